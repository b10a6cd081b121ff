// The lines of a made script, one after the other.
ghost use Rattle.std.specs.Prelude.{◌≡◌, ◌∷◌, [], IfOk, IfSome, IfNone, OnErr, slice_get};
ghost use Rattle.made_scripts.specs.Made.{made_lines};

use crate::lines::{ELEMENT_LINES, FIRST_LINES, element_line, first_line, line_count, submit_line};
use ce_base::{NoMemory, Text};
use std::alloc::Global;
use std::marker::Model;

/// The lines of a made script that are left, in their order. A contract sees them as a list; none of them is in
/// memory before it is given.
#[derive(Drop)]
pub struct Maker {
    elements: u32,
    // How many lines were given.
    given: u64,
}

impl Model for Maker {
    ghost use Rattle.std.specs.Prelude.{ℕ, List, drop};
    ghost use Rattle.made_scripts.specs.Made.{made_lines};

    ghost Value = { List (List ℕ) };

    ghost view = { λ m. drop m.given (made_lines m.elements) };
}

impl Maker {
    /// All lines of the made script of n.
    pub fn of(n: u32) -> Maker
        ensures { result ≡ made_lines n }
    {
        Maker {
            elements: n,
            given: 0,
        }
    }

    /// The next line, without its line feed. None exactly where none is left. NoMemory: memory was refused, and
    /// the lines that are left stay.
    pub fn next_line(&mut self, alloc: Global) -> Result<Option<Text>, NoMemory>
        ensures next { IfOk result (λ o. IfSome o (λ line. self.old ≡ line ∷ self.new)) }
        ensures none { IfOk result (λ o. IfNone o ((self.old ≡ []) × (self.new ≡ []))) }
        ensures err { OnErr result (self.new ≡ self.old) }
    {
        match made_line(alloc, self.elements, self.given)? {
            None => Ok(None),
            Some(line) => {
                self.given += 1;
                Ok(Some(line))
            }
        }
    }
}

// The line at a place of the made script of n. None exactly where it ends before it.
fn made_line(alloc: Global, n: u32, place: u64) -> Result<Option<Text>, NoMemory>
    ensures { IfOk result (λ o. o ≡ slice_get (made_lines n) place) }
{
    let submit = line_count(n) - 1;
    if place < FIRST_LINES {
        return Ok(Some(Text::of(alloc, first_line(place))?));
    }
    if place < submit {
        let behind = place - FIRST_LINES;
        let number = behind / ELEMENT_LINES + 1;
        return Ok(Some(element_line(alloc, number, behind % ELEMENT_LINES)?));
    }
    if place == submit {
        return Ok(Some(submit_line(alloc)?));
    }
    Ok(None)
}
