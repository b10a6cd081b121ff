// Reading a line.
ghost use Rattle.std.specs.Prelude.{IfOk};
ghost use Rattle.rule_tokens.specs.Gives.{GivesSeen, IfBad};
ghost use Rattle.rule_lines.specs.Acts.{Said, line_of};
ghost use Rattle.rule_script.specs.Below.{Below};
ghost use Rattle.rule_script.specs.Cases.{RefusedFor};
ghost use Rattle.rule_script.specs.Reading.{longest, reading};
ghost use Rattle.rule_script.specs.Spells.{Spells};

use crate::place::placed;
use rule_lines::{Line, faults_are_apart, forms_are_read, what_is_spelled_is_read};
use rule_reader::{form_of, lines_are_read_by_the_table, operands_tell_forms};
use rule_tokens::{LineRefused, a_line_says_one_thing, lines_are_answered, tokens_of};
use std::alloc::Global;

/// How many bytes a line of a script has at most.
pub const LONGEST: usize = 4096;

// The laws of the crates below hold.
pub(crate) fn below()
    ensures { Below }
{
    lines_are_answered();
    a_line_says_one_thing();
    forms_are_read();
    what_is_spelled_is_read();
    faults_are_apart();
    lines_are_read_by_the_table();
    operands_tell_forms();
}

// What the tokens of a line say.
#[tactic(auto, unfolding(crate::specs::Reading::reading))]
fn said(alloc: Global, limit: usize, bytes: &[u8]) -> Result<Line, LineRefused>
    ensures { GivesSeen line_of result (reading limit bytes.now) }
{
    match tokens_of(alloc, limit, bytes)? {
        None => Ok(Line::Blank),
        Some(tokens) => {
            let form = form_of(alloc, tokens.as_slice())?;
            placed(alloc, form)
        }
    }
}

/// Reads a line, without its end. It is refused for the first of these that holds: it has more than `limit` bytes;
/// it is not UTF-8; a quote is amiss; an escape is none; a control character or a bare backslash stands in it, or a
/// word or an operand is amiss; an operand is missing or left over; the form may not stand there. A comment is
/// refused for the first two alone. `NoMemory` comes only where memory was refused, and tells nothing of the line.
pub fn read_line_within(alloc: Global, limit: usize, bytes: &[u8]) -> Result<Line, LineRefused>
    // What is read is spelled so.
    ensures found { IfOk result (λ x. Spells limit bytes.now (line_of x)) }

    // What is spelled so is read, unless memory is refused: so a line spells one thing at most.
    ensures only { (x : Said) → Spells limit bytes.now x → GivesSeen line_of result (Ok x) }

    // What is wrong with the line is the first of the cases that holds.
    ensures refused { IfBad result (RefusedFor limit bytes.now) }

    // Which it is, as a function that computes.
    ensures exact { GivesSeen line_of result (reading limit bytes.now) }
{
    below();
    said(alloc, limit, bytes)
}

/// Reads a line of a script as `read_line_within` does, within the limit `LONGEST`.
pub fn read_line(alloc: Global, bytes: &[u8]) -> Result<Line, LineRefused>
    ensures found { IfOk result (λ x. Spells longest bytes.now (line_of x)) }
    ensures only { (x : Said) → Spells longest bytes.now x → GivesSeen line_of result (Ok x) }
    ensures refused { IfBad result (RefusedFor longest bytes.now) }
    ensures exact { GivesSeen line_of result (reading longest bytes.now) }
{
    read_line_within(alloc, LONGEST, bytes)
}
