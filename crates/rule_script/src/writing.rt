// Writing a line.
ghost use Rattle.std.specs.Prelude.{IfOk};
ghost use Rattle.rule_lines.specs.Acts.{line_of};
ghost use Rattle.rule_script.specs.Below.{BelowWriting};
ghost use Rattle.rule_script.specs.Canonical.{CanBeSpelled, IsCanonical, ReadsAgain, SpellsWithin};

use crate::reading::below;
use ce_base::{NoMemory, Text};
use rule_lines::{Line, canonical_tokens_are_clean, canonical_tokens_are_spelled};
use rule_tokens::what_is_written_is_read;
use rule_writer::{as_line, forms_are_canonical};
use std::alloc::Global;

// The laws of the crates below hold.
fn below_writing()
    ensures { BelowWriting }
{
    below();
    what_is_written_is_read();
    canonical_tokens_are_spelled();
    canonical_tokens_are_clean();
    forms_are_canonical();
}

/// The canonical line of what a line says: one space between its tokens, bare tokens wherever they must be
/// bare, flags once each in their order, and every text in quotes with its escapes. A blank line's is empty.
/// `NoMemory` comes only where memory was refused.
pub fn write_line(alloc: Global, line: &Line) -> Result<Text, NoMemory>
    // Its operands have their forms and stand where they may.
    requires { CanBeSpelled (line_of line.now) }

    // The text is the canonical line.
    ensures text { IfOk result (IsCanonical (line_of line.now)) }

    // It spells the line, under each limit that it does not pass,
    ensures spells { IfOk result (SpellsWithin (line_of line.now)) }

    // and is read as it under such a limit.
    ensures reads { IfOk result (ReadsAgain (line_of line.now)) }
{
    below_writing();
    as_line(alloc, line)
}
