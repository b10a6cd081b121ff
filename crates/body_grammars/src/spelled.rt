// Names and values as a urlencoded body spells them.
ghost use Rattle.std.specs.Prelude.{◌≡◌};
ghost use Rattle.body_grammars.specs.Bodies.{is_bare};
ghost use Rattle.body_grammars.specs.Cuts.{only_utf8};
ghost use Rattle.body_grammars.specs.Escapes.{IsStep, bare, escaped, read_text, unspell};
ghost use Rattle.body_grammars.specs.Gives.{Gives, GivesSeen};
ghost use Rattle.body_grammars.specs.declared.spelled.InEscape.TheVariants.{Outside};

use crate::BodyRefused;
use crate::texts::text_of;
use ce_base::Text;
use std::alloc::Global;

/// Where in an escape the next byte stands.
#[derive(Clone, Copy, Debug, PartialEq, Eq)]
pub enum InEscape {
    /// In none.
    Outside,
    /// Behind the percent sign.
    AfterPercent,
    /// Behind the percent sign and this byte.
    AfterDigit(u8),
}

// Whether the byte stands for itself.
fn is_bare(b: u8) -> bool
    ensures { result ≡ is_bare b }
{
    b >= 33 && b <= 126 && b != b'&' && b != b'+' && b != b'=' && b != b'%'
}

// What a byte stands for that begins no escape. None: it does not stand there.
fn bare(b: u8) -> Option<u8>
    ensures { result ≡ bare b }
{
    if b == b'+' {
        return Some(b' ');
    }
    if is_bare(b) {
        return Some(b);
    }
    None
}

// The byte of two hexadecimal digits. None: one of them is none.
fn escaped(high: u8, low: u8) -> Option<u8>
    ensures { result ≡ escaped high low }
{
    let high = char::from(high).to_digit(16)?;
    let low = char::from(low).to_digit(16)?;
    Some((16 * high + low) as u8)
}

// Takes a byte more: puts what it stands for, and gives where it leads.
#[tactic(auto, unfolding(crate::specs::Escapes::unspell))]
fn step(text: &mut Vec<u8>, escape: InEscape, b: u8) -> Result<InEscape, BodyRefused>
    ensures { IsStep text.old.items escape b text.new.items result }
{
    let byte = match escape {
        InEscape::Outside => {
            if b == b'%' {
                return Ok(InEscape::AfterPercent);
            }
            bare(b)
        }
        InEscape::AfterPercent => return Ok(InEscape::AfterDigit(b)),
        InEscape::AfterDigit(high) => escaped(high, b),
    };
    match byte {
        None => Err(BodyRefused::NotABody),
        Some(byte) => {
            text.push(byte)?;
            Ok(InEscape::Outside)
        }
    }
}

// The bytes that are spelled so.
#[tactic(auto, unfolding(crate::specs::Escapes::unspell))]
fn unspell(alloc: Global, bytes: &[u8]) -> Result<Vec<u8>, BodyRefused>
    ensures { GivesSeen (λ v. v.items) result (unspell bytes.now Outside) }
{
    let mut text = Vec::new(alloc);
    let mut escape = InEscape::Outside;
    for b in bytes {
        escape = step(&mut text, escape, *b)?;
    }
    match escape {
        InEscape::Outside => Ok(text),
        InEscape::AfterPercent => Err(BodyRefused::NotABody),
        InEscape::AfterDigit(_) => Err(BodyRefused::NotABody),
    }
}

/// The name or the value that the bytes spell. NotABody: they spell none.
pub(crate) fn read_text(alloc: Global, bytes: &[u8]) -> Result<Text, BodyRefused>
    ensures { Gives result (read_text bytes.now) }
{
    let bytes = unspell(alloc, bytes)?;
    text_of(alloc, &bytes)
}
