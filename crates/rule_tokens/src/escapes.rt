// Reads the escapes of a quoted token.
ghost use Rattle.std.specs.Prelude.{◌≡◌};
ghost use Rattle.rule_tokens.specs.Escapes.{EscapeStep, named, short_escape, unescape};
ghost use Rattle.rule_tokens.specs.Gives.{Gives};
ghost use Rattle.rule_tokens.specs.declared.escapes.InEscape.TheVariants.{Outside};

use crate::chars::Chars;
use crate::{Bad, LineRefused};
use std::alloc::Global;

/// Where in an escape a character stands.
#[derive(Drop)]
pub enum InEscape {
    /// In none.
    Outside,
    /// Behind the backslash.
    AfterBackslash,
    /// Behind the `u`.
    AfterU,
    /// Behind the opening brace, with what came after it.
    Digits(Chars),
}

/// The character that one to six hexadecimal digits name.
#[tactic(auto, unfolding(crate::specs::Escapes::hex_from, crate::specs::Escapes::named))]
fn named(digits: &[char]) -> Option<char>
    ensures { result ≡ named digits.now }
{
    if digits.is_empty() || digits.len() > 6 {
        return None;
    }
    let mut code: u32 = 0;
    for d in digits {
        let value = d.to_digit(16)?;
        code = code * 16 + value;
    }
    char::from_u32(code)
}

fn short_escape(c: char) -> Option<char>
    ensures { result ≡ short_escape c }
{
    match c {
        '\\' => Some('\\'),
        '"' => Some('"'),
        'n' => Some('\n'),
        'r' => Some('\r'),
        't' => Some('\t'),
        _ => None,
    }
}

#[tactic(auto, unfolding(crate::specs::Escapes::unescape))]
fn step(alloc: Global, text: &mut Chars, escape: InEscape, c: char) -> Result<InEscape, LineRefused>
    ensures { EscapeStep text.old escape c text.new result }
{
    match escape {
        InEscape::Outside => {
            if c == '\\' {
                return Ok(InEscape::AfterBackslash);
            }
            text.push(c)?;
            Ok(InEscape::Outside)
        }
        InEscape::AfterBackslash => {
            if c == 'u' {
                return Ok(InEscape::AfterU);
            }
            match short_escape(c) {
                None => Err(LineRefused::Bad(Bad::Escape)),
                Some(d) => {
                    text.push(d)?;
                    Ok(InEscape::Outside)
                }
            }
        }
        InEscape::AfterU => {
            if c == '{' {
                return Ok(InEscape::Digits(Chars::make(alloc)));
            }
            Err(LineRefused::Bad(Bad::Escape))
        }
        InEscape::Digits(mut digits) => {
            if c == '}' {
                return match named(digits.as_slice()) {
                    None => Err(LineRefused::Bad(Bad::Escape)),
                    Some(d) => {
                        text.push(d)?;
                        Ok(InEscape::Outside)
                    }
                };
            }
            digits.push(c)?;
            Ok(InEscape::Digits(digits))
        }
    }
}

/// The characters that stand between the quotes, with each escape read.
#[tactic(auto, unfolding(crate::specs::Escapes::unescape))]
pub(crate) fn unescape(alloc: Global, chars: &[char]) -> Result<Chars, LineRefused>
    ensures { Gives result (unescape chars.now Outside) }
{
    let mut text = Chars::make(alloc);
    let mut escape = InEscape::Outside;
    for c in chars {
        escape = step(alloc, &mut text, escape, *c)?;
    }
    match escape {
        InEscape::Outside => Ok(text),
        InEscape::AfterBackslash => Err(LineRefused::Bad(Bad::Escape)),
        InEscape::AfterU => Err(LineRefused::Bad(Bad::Escape)),
        InEscape::Digits(_) => Err(LineRefused::Bad(Bad::Escape)),
    }
}
