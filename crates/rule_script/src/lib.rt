//! The lines of a script: what they say, reading them and writing them.
#![tactic(auto)]

mod body;
mod body_operands;
mod laws;
mod place;
mod reading;
mod top;
mod writing;

pub use laws::lines_read_as_they_spell;
pub use reading::{LONGEST, read_line, read_line_within};
pub use rule_lines::{Action, AskWord, ClassPart, Cmd, Line, Op, Vals};
pub use rule_tokens::{Bad, CallName, CallOrUpgrade, LineRefused, Operand, Val};
pub use writing::write_line;
