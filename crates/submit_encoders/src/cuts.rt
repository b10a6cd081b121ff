// Cuts a text where something else is sent than what stands there.
ghost use Rattle.std.specs.Prelude.{◌≡◌, MatchOption, position, true, false};
ghost use Rattle.form_controls.specs.Texts.{is_newline};
ghost use Rattle.submit_encoders.specs.Cuts.{CutsLine, CutsQuote, begins_with_line_end, has_line_end, has_quote, past_line_end};

// The place of the first line end.
fn line_end(bytes: &[u8]) -> Option<usize>
    ensures { result ≡ position is_newline bytes.now }
{
    bytes.iter().position(|b| *b == b'\r' || *b == b'\n')
}

// What follows the line end with which the text begins.
fn past_line_end(text: &str) -> &str
    requires { begins_with_line_end text.now ≡ true }
    ensures { result.now ≡ past_line_end text.now }
{
    if text.as_bytes().starts_with(b"\r\n") {
        &text[2..]
    } else {
        &text[1..]
    }
}

// What stands before the first line end, and what follows it. None: there is no line end.
pub(crate) fn cut_line(text: &str) -> Option<(&str, &str)>
    ensures { MatchOption result (has_line_end text.now ≡ false) (λ parts. CutsLine text.now parts.0.now parts.1.now) }
{
    let end = line_end(text.as_bytes())?;
    let (line, rest) = text.split_at(end);
    Some((line, past_line_end(rest)))
}

// What stands before the first quote, and what follows it. None: there is no quote.
pub(crate) fn cut_quote(text: &str) -> Option<(&str, &str)>
    ensures { MatchOption result (has_quote text.now ≡ false) (λ parts. CutsQuote text.now parts.0.now parts.1.now) }
{
    text.split_once('"')
}
