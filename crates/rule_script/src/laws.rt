// What holds of what lines read as, as the contract of a function that does nothing.
ghost use Rattle.rule_script.specs.Laws.{ReadsSpelled, RefusesFirst};

use crate::reading::below;

/// The function that computes what a line reads as gives what the line spells by the grammar, and refuses each
/// other line for the first of the cases that holds. So what is said of a script by that function is said by the
/// grammar.
pub fn lines_read_as_they_spell()
    ensures reads { ReadsSpelled }
    ensures refuses { RefusesFirst }
{
    below();
}
