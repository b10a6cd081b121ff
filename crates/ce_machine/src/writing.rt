// One line of a script on the state, with all that it logs written out.
ghost use Rattle.std.specs.Prelude.{◌≡◌, ◌≤◌, ◌<◌, [], Err, true, OnOk, OnErr, IsErrOf};
ghost use Rattle.ce_base.specs.Faults.{Rose};
ghost use Rattle.ce_base.specs.Outside.{AppendsPart};
ghost use Rattle.rule_lines.specs.Acts.{part_of};
ghost use Rattle.ce_algorithms.specs.Model.{model};
ghost use Rattle.ce_algorithms.specs.Session.{class_part, log_of, run_line};
ghost use Rattle.ce_algorithms.specs.Steps.{Goes};
ghost use Rattle.ce_events.specs.Text.{text};
ghost use Rattle.ce_algorithms.specs.Written.{Did};
ghost use Rattle.frame_stack.specs.Sessions.{ArePaired, session};

use crate::command::reply_to_part;
use ce_base::{Sink, Stop};
use ce_events::Event;
use ce_operations::State;
use frame_stack::Stack;
use rule_lines::ClassPart;
use rule_tokens::Bad;
use std::alloc::Global;

/// Takes a part of a class, and writes the reply where it is refused.
pub(crate) fn write_part<K: Sink>(
    state: &mut State,
    alloc: Global,
    stack: &mut Stack,
    line: u64,
    p: ClassPart,
    trace: bool,
    sink: &mut K,
) -> Result<(), Stop>
    requires rest { stack.old.frames ≡ [] }
    requires paired { ArePaired stack.old state.old }
    ensures ran { OnOk result (Did trace (K.held sink.old) (K.held sink.new) (class_part line (part_of p) (session stack.old state.old))
        (Goes tt (session stack.new state.new))) }
    ensures empty { OnOk result (state.new.log ≡ []) }
    ensures rest { OnOk result (stack.new.frames ≡ []) }
    ensures paired { OnOk result (ArePaired stack.new state.new) }
    ensures page { OnOk result (state.new.page ≡ state.old.page) }
    ensures part { OnErr result
        (AppendsPart (K.held sink.old) (K.held sink.new) (text trace (log_of (class_part line (part_of p) (session stack.old state.old))))) }
    ensures later { K.failed sink.old ≤ K.failed sink.new }
    ensures cause { IsErrOf result Stop.WriteFault → Rose (K.failed sink.old) (K.failed sink.new) }
    ensures told { K.failed sink.old < K.failed sink.new → IsErrOf result Stop.WriteFault }
    ensures home { K.home sink.new ≡ K.home sink.old }
    ensures below { K.below sink.old ≤ K.below sink.new }
{
    reply_to_part(state, alloc, stack, line, p)?;
    state.flush(alloc, trace, sink)?;
    Ok(())
}

/// Writes the reply to a line that was refused.
pub(crate) fn write_refused<K: Sink>(
    state: &mut State,
    alloc: Global,
    stack: &Stack,
    line: u64,
    bad: Bad,
    trace: bool,
    sink: &mut K,
) -> Result<(), Stop>
    ensures ran { OnOk result (Did trace (K.held sink.old) (K.held sink.new) (run_line model line (Err bad) (session stack.now state.old))
        (Goes tt (session stack.now state.new))) }
    ensures empty { OnOk result (state.new.log ≡ []) }
    ensures classes { OnOk result (state.new.classes ≡ state.old.classes) }
    ensures page { OnOk result (state.new.page ≡ state.old.page) }
    ensures part { OnErr result
        (AppendsPart (K.held sink.old) (K.held sink.new) (text trace (log_of (run_line model line (Err bad) (session stack.now state.old))))) }
    ensures later { K.failed sink.old ≤ K.failed sink.new }
    ensures cause { IsErrOf result Stop.WriteFault → Rose (K.failed sink.old) (K.failed sink.new) }
    ensures told { K.failed sink.old < K.failed sink.new → IsErrOf result Stop.WriteFault }
    ensures home { K.home sink.new ≡ K.home sink.old }
    ensures below { K.below sink.old ≤ K.below sink.new }
{
    state.log(Event::WasBad(line, bad))?;
    state.flush(alloc, trace, sink)?;
    Ok(())
}
