// The deeds of what the user does.
ghost use Rattle.std.specs.Prelude.{None, IfOk};
ghost use Rattle.ce_algorithms.specs.Deeds.{resolve_user};
ghost use Rattle.ce_algorithms.specs.State.{view};
ghost use Rattle.session_state.specs.Resolved.{Resolves};
ghost use Rattle.ce_operations.specs.ByUser.{IsByUser};
ghost use Rattle.ce_operations.specs.Ready.{IsReady};

use super::controls::{choose, edit, tick};
use super::forms::{press, reset, restore};
use ce_algorithms::Deed;
use ce_base::Refused;
use reaction_queue::Mode;
use rule_lines::Cmd;
use session_state::State;

/// The deed of what the user does, or the first fault of its operands. ReferenceError: an operand is `this`, since nothing
/// is `this`. TypeError: a variable is not set, or a node is not what it has to be. NoMemory: memory was refused.
pub fn resolve_user(state: &State, c: Cmd) -> Result<Deed, Refused>
    requires { IsByUser c }
    ensures deed { Resolves result (resolve_user (view None state.now) c) }
    ensures ready { IfOk result (IsReady state.now.page.forest) }
{
    match c {
        Cmd::UserEdit { node, value } => edit(state, &None, &node, value, true),
        Cmd::UserCheck { node, on } => tick(state, &None, &node, on, true),
        Cmd::UserChoose { node, on } => choose(state, &None, &node, on, true),
        Cmd::UserReset { form } => reset(state, &None, &form, true),
        Cmd::UserRestore { node, value } => restore(state, &node, value, Mode::Restore),
        Cmd::UserAutofill { node, value } => restore(state, &node, value, Mode::Autocomplete),
        Cmd::UserPress { node } => press(state, &node),
        _ => unreachable!(),
    }
}
