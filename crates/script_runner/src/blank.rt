// Tells a line that says nothing, before it is read.
ghost use Rattle.std.specs.Prelude.{◌≡◌, nat_le, length};
ghost use Rattle.std.specs.Str.{is_utf8};
ghost use Rattle.rule_tokens.specs.Tokens.{is_blank};
ghost use Rattle.script_runner.specs.Blank.{says_nothing};

/// Whether the line is read as a blank one: no bytes, spaces alone or a comment, within the limit and UTF-8.
#[tactic(auto, using(crate::proofs::BlankLaws::too_long, crate::proofs::BlankLaws::not_blank, crate::proofs::BlankLaws::blank_text))]
pub(crate) fn says_nothing(limit: usize, line: &[u8]) -> bool
    ensures { result ≡ says_nothing limit line.now }
{
    if !is_within(limit, line) {
        return false;
    }
    if !is_blank(line) {
        return false;
    }
    is_text(line)
}

fn is_within(limit: usize, line: &[u8]) -> bool
    ensures { result ≡ nat_le (length line.now) limit }
{
    line.len() <= limit
}

// Whether the bytes say nothing, where they are UTF-8.
fn is_blank(bytes: &[u8]) -> bool
    ensures { result ≡ is_blank bytes.now }
{
    for b in bytes {
        if *b != b' ' {
            return *b == b'#';
        }
    }
    true
}

#[tactic(auto, using(ce_base::proofs::Utf8::utf8_tests))]
fn is_text(bytes: &[u8]) -> bool
    ensures { result ≡ is_utf8 bytes.now }
{
    match std::str::from_utf8(bytes) {
        Ok(_) => true,
        Err(_) => false,
    }
}
