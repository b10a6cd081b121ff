// Cuts a line at its spaces, and knows what stands between quotes.
ghost use Rattle.std.specs.Prelude.{[]};
ghost use Rattle.rule_tokens.specs.Cut.{cut, CutStep};
ghost use Rattle.rule_tokens.specs.Gives.{GivesSeen, with_front};
ghost use Rattle.rule_tokens.specs.declared.cutting.Within.TheVariants.{Bare, Gap, Quoted};

use crate::chars::Chars;
use crate::{Bad, LineRefused};
use std::alloc::Global;

/// A token as it stands in the line, without its quotes.
#[derive(Drop)]
pub struct Raw {
    /// It stands in quotes.
    pub quoted: bool,
    /// Its characters, with escapes as they are written.
    pub chars: Chars,
}

/// Within what a character stands, with what came of its token before it.
#[derive(Drop)]
pub enum Within {
    /// Between tokens.
    Gap,
    /// A bare token.
    Bare(Chars),
    /// A quoted token.
    Quoted(Chars),
    /// A quoted token, behind a backslash that protects what comes.
    Protected(Chars),
    /// Behind the end of a quoted token.
    Closed,
}

// What comes behind a bare token and one more character.
#[tactic(auto, unfolding(crate::specs::Cut::cut))]
fn bare_step(done: &mut Vec<Raw>, mut chars: Chars, c: char) -> Result<Within, LineRefused>
    ensures { CutStep done.old.items (Bare chars) c done.new.items result }
{
    if c == ' ' {
        done.push(Raw {
            quoted: false,
            chars,
        })?;
        return Ok(Within::Gap);
    }
    if c == '"' {
        return Err(LineRefused::Bad(Bad::Quote));
    }
    chars.push(c)?;
    Ok(Within::Bare(chars))
}

// What comes behind a quoted token, as far as it goes, and one more character.
#[tactic(auto, unfolding(crate::specs::Cut::cut))]
fn quoted_step(done: &mut Vec<Raw>, mut chars: Chars, c: char) -> Result<Within, LineRefused>
    ensures { CutStep done.old.items (Quoted chars) c done.new.items result }
{
    if c == '"' {
        done.push(Raw {
            quoted: true,
            chars,
        })?;
        return Ok(Within::Closed);
    }
    chars.push(c)?;
    if c == '\\' {
        return Ok(Within::Protected(chars));
    }
    Ok(Within::Quoted(chars))
}

// What comes behind one more character.
#[tactic(auto, unfolding(crate::specs::Cut::cut))]
fn step(alloc: Global, done: &mut Vec<Raw>, within: Within, c: char) -> Result<Within, LineRefused>
    ensures { CutStep done.old.items within c done.new.items result }
{
    match within {
        Within::Gap => {
            if c == ' ' {
                return Ok(Within::Gap);
            }
            let mut chars = Chars::make(alloc);
            if c == '"' {
                return Ok(Within::Quoted(chars));
            }
            chars.push(c)?;
            Ok(Within::Bare(chars))
        }
        Within::Bare(chars) => bare_step(done, chars, c),
        Within::Quoted(chars) => quoted_step(done, chars, c),
        Within::Protected(mut chars) => {
            chars.push(c)?;
            Ok(Within::Quoted(chars))
        }
        Within::Closed => {
            if c == ' ' {
                return Ok(Within::Gap);
            }
            Err(LineRefused::Bad(Bad::Quote))
        }
    }
}

// The last token, where the line ends within it.
#[tactic(auto, unfolding(crate::specs::Cut::cut))]
fn closed(mut done: Vec<Raw>, within: Within) -> Result<Vec<Raw>, LineRefused>
    ensures { GivesSeen (λ raws. raws.items) result (with_front done.items (cut [] within)) }
{
    match within {
        Within::Gap => Ok(done),
        Within::Closed => Ok(done),
        Within::Bare(chars) => {
            done.push(Raw {
                quoted: false,
                chars,
            })?;
            Ok(done)
        }
        Within::Quoted(_) => Err(LineRefused::Bad(Bad::Quote)),
        Within::Protected(_) => Err(LineRefused::Bad(Bad::Quote)),
    }
}

/// The tokens of a line as they stand in it, from left to right.
#[tactic(auto, unfolding(crate::specs::Cut::cut))]
pub(crate) fn cut(alloc: Global, line: &[char]) -> Result<Vec<Raw>, LineRefused>
    ensures { GivesSeen (λ raws. raws.items) result (cut line.now Gap) }
{
    let mut done = Vec::new(alloc);
    let mut within = Within::Gap;
    for c in line {
        within = step(alloc, &mut done, within, *c)?;
    }
    closed(done, within)
}
