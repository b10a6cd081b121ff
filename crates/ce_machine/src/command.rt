// One line of a script, on the state.
ghost use Rattle.std.specs.Prelude.{◌≡◌, ◌≤◌, ◌<◌, [], true, IfOk, OnOk, OnErr, IsErrOf};
ghost use Rattle.ce_base.specs.Faults.{Rose};
ghost use Rattle.ce_base.specs.Outside.{AppendsPart};
ghost use Rattle.rule_lines.specs.Acts.{part_of};
ghost use Rattle.ce_algorithms.specs.Model.{model};
ghost use Rattle.ce_algorithms.specs.Session.{command, class_part, log_of};
ghost use Rattle.ce_algorithms.specs.Steps.{Goes};
ghost use Rattle.ce_events.specs.Text.{text};
ghost use Rattle.ce_algorithms.specs.Written.{Did};
ghost use Rattle.ce_page.specs.Settled.{IsSettled};
ghost use Rattle.frame_stack.specs.Sessions.{ArePaired, session};
ghost use Rattle.ce_machine.specs.Ended.{IsNoFault, end_for, outcome_of};

use crate::End;
use crate::looping::run;
use crate::operate::begin;
use ce_base::{NoMemory, Refused, Sink, Stop};
use ce_events::Event;
use ce_operations::State;
use ce_outcomes::Came;
use frame_stack::Stack;
use rule_lines::{ClassPart, Cmd};
use std::alloc::Global;

/// Takes a part of a class, and logs the reply where it is refused.
pub(crate) fn reply_to_part(
    state: &mut State,
    alloc: Global,
    stack: &mut Stack,
    line: u64,
    p: ClassPart,
) -> Result<(), NoMemory>
    requires rest { stack.old.frames ≡ [] }
    requires paired { ArePaired stack.old state.old }
    ensures taken { OnOk result (Goes tt (session stack.new state.new) ≡ class_part line (part_of p) (session stack.old state.old)) }
    ensures rest { OnOk result (stack.new.frames ≡ []) }
    ensures paired { OnOk result (ArePaired stack.new state.new) }
    ensures page { state.new.page ≡ state.old.page }
{
    match state.part(alloc, stack, p) {
        Ok(()) => Ok(()),
        Err(Refused::Fault(f)) => state.log(Event::Threw(line, f)),
        Err(Refused::NoMemory) => Err(NoMemory),
    }
}

/// Runs a command on the state of a session, and writes what comes of it: its first turn, and then the loop.
///
/// No frame lies on the stack before it, and none after it; each class has its behaviour there.
///
/// FuelSpent exactly where the fuel is spent in it. WriteFault only where a write failed; NoMemory where memory
/// was refused. The state is only dropped after the last two.
pub(crate) fn run_command<K: Sink>(
    state: &mut State,
    alloc: Global,
    stack: &mut Stack,
    line: u64,
    c: Cmd,
    trace: bool,
    sink: &mut K,
) -> Result<End, Stop>
    requires rest { stack.old.frames ≡ [] }
    requires paired { ArePaired stack.old state.old }
    ensures ran { IfOk result (λ end. Did trace (K.held sink.old) (K.held sink.new) (command model line c (session stack.old state.old))
        (outcome_of end (session stack.new state.new))) }
    ensures empty { OnOk result (state.new.log ≡ []) }
    ensures rest { OnOk result (stack.new.frames ≡ []) }
    ensures paired { OnOk result (ArePaired stack.new state.new) }
    ensures settled { OnOk result (IsSettled state.new.page) }
    ensures part { OnErr result (AppendsPart (K.held sink.old) (K.held sink.new) (text trace (log_of (command model line c (session stack.old state.old))))) }
    ensures later { K.failed sink.old ≤ K.failed sink.new }
    ensures cause { IsErrOf result Stop.WriteFault → Rose (K.failed sink.old) (K.failed sink.new) }
    ensures told { K.failed sink.old < K.failed sink.new → IsErrOf result Stop.WriteFault }
    ensures home { K.home sink.new ≡ K.home sink.old }
    ensures below { K.below sink.old ≤ K.below sink.new }
{
    let end = begin(state, alloc, stack, line, c)?;
    let now = run(state, alloc, stack, end, trace, sink)?;
    Ok(ended(now))
}

// How a command ended. None throws.
fn ended(now: Came) -> End
    requires { IsNoFault now }
    ensures { result ≡ end_for now }
{
    match now {
        Came::Went(_) => End::Replied,
        Came::Over => End::FuelSpent,
        Came::Threw(_) => unreachable!(),
    }
}
