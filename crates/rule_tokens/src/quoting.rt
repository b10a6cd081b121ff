// Writes a text in quotes.
ghost use Rattle.std.specs.Prelude.{◌≡◌, ◌<◌, ◌++◌, ◌∷◌, [], None, MatchOption, OnOk, IfOk, encode_utf8_all, string_bytes};
ghost use Rattle.std.specs.Char.{digit_char};
ghost use Rattle.std.specs.Str.{IsUtf8};
ghost use Rattle.rule_tokens.specs.Quoted.{IsReadBack, escape, escaped, hex, in_quotes, short_letter};

use crate::tokens::chars_in;
use ce_base::{NoMemory, Text};
use std::alloc::Global;

fn push_digit(out: &mut String, d: u32) -> Result<(), NoMemory>
    requires { d < 16 }
    ensures { OnOk result (string_bytes out.new ≡ string_bytes out.old ++ digit_char d ∷ []) }
{
    out.push(char::from_digit(d, 16).unwrap())?;
    Ok(())
}

fn push_hex(out: &mut String, n: u32) -> Result<(), NoMemory>
    requires { n < 128 }
    ensures { OnOk result (string_bytes out.new ≡ string_bytes out.old ++ hex n) }
{
    if n >= 16 {
        push_digit(out, n / 16)?;
    }
    push_digit(out, n % 16)
}

// The escape of a character that has a short one.
#[tactic(auto, unfolding(crate::specs::Quoted::escape))]
fn short_escape(c: char) -> Option<&'static str>
    ensures { MatchOption result (short_letter c ≡ None) (λ text. text.now ≡ encode_utf8_all (escape c)) }
{
    match c {
        '\\' => Some("\\\\"),
        '"' => Some("\\\""),
        '\n' => Some("\\n"),
        '\r' => Some("\\r"),
        '\t' => Some("\\t"),
        _ => None,
    }
}

// Puts a character at the end that has no short escape.
#[tactic(auto, unfolding(crate::specs::Quoted::escape))]
fn push_other(out: &mut String, c: char) -> Result<(), NoMemory>
    requires { short_letter c ≡ None }
    ensures { OnOk result (string_bytes out.new ≡ string_bytes out.old ++ encode_utf8_all (escape c)) }
{
    if !c.is_ascii_control() {
        out.push(c)?;
        return Ok(());
    }
    out.push_str("\\u{")?;
    push_hex(out, c as u32)?;
    out.push_str("}")?;
    Ok(())
}

fn push_escaped(out: &mut String, c: char) -> Result<(), NoMemory>
    ensures { OnOk result (string_bytes out.new ≡ string_bytes out.old ++ encode_utf8_all (escape c)) }
{
    match short_escape(c) {
        None => push_other(out, c),
        Some(text) => {
            out.push_str(text)?;
            Ok(())
        }
    }
}

fn push_all_escaped(out: &mut String, chars: &[char]) -> Result<(), NoMemory>
    ensures { OnOk result (string_bytes out.new ≡ string_bytes out.old ++ escaped chars.now) }
{
    for c in chars {
        push_escaped(out, *c)?;
    }
    Ok(())
}

/// Puts a text in quotes at the end: `\`, `"` and control characters by their escapes, all else as it
/// stands. `NoMemory` comes only where memory was refused, and then what is written to is only dropped.
pub fn push_quoted(alloc: Global, out: &mut String, text: &str) -> Result<(), NoMemory>
    ensures { OnOk result (string_bytes out.new ≡ string_bytes out.old ++ in_quotes text.now) }
{
    let chars = chars_in(alloc, text)?;
    out.push('"')?;
    push_all_escaped(out, chars.as_slice())?;
    out.push('"')?;
    Ok(())
}

fn quoted_text(alloc: Global, text: &str) -> Result<Text, NoMemory>
    ensures text { IfOk result (λ t. t ≡ in_quotes text.now) }
    ensures utf8 { IfOk result (λ t. IsUtf8 t) }
{
    let mut out = String::new(alloc);
    push_quoted(alloc, &mut out, text)?;
    // The bytes of a `String` are UTF-8: reading it as a `str` says so.
    let _text = out.as_str();
    Ok(Text::from(out))
}

/// The text in quotes. `NoMemory` comes only where memory was refused.
pub fn quoted(alloc: Global, text: &str) -> Result<Text, NoMemory>
    ensures text { IfOk result (λ t. t ≡ in_quotes text.now) }

    // It reads as one token, which says the text.
    ensures back { IfOk result (λ t. IsReadBack text.now t) }
{
    quoted_text(alloc, text)
}
