// The loop: the frames are finished, the topmost first. What a command logs is written out here alone.
ghost use Rattle.std.specs.Prelude.{◌≡◌, ◌≤◌, ◌<◌, [], IfOk, OnOk, OnErr, IsErrOf};
ghost use Rattle.std.specs.Io.KnownBytes.{Appends};
ghost use Rattle.ce_base.specs.Faults.{Rose};
ghost use Rattle.ce_base.specs.Outside.{AppendsPart};
ghost use Rattle.ce_algorithms.specs.Session.{log_of};
ghost use Rattle.ce_events.specs.Text.{text};
ghost use Rattle.ce_algorithms.specs.Written.{Did};
ghost use Rattle.ce_page.specs.Settled.{IsSettled};
ghost use Rattle.frame_stack.specs.Sessions.{ArePaired, session};
ghost use Rattle.frame_stack.specs.Stacked.{frames_of};
ghost use Rattle.ce_algorithms.specs.State.{forgotten};
ghost use Rattle.ce_outcomes.specs.Placed.{ArePlaced};
ghost use Rattle.ce_machine.specs.Turns.{over};
ghost use Rattle.ce_outcomes.specs.Turns.{came_in, end_of};

use crate::turns::turn;
use ce_base::{Sink, Stop};
use ce_operations::State;
use ce_outcomes::Came;
use frame_stack::Stack;
use std::alloc::Global;

/// Finishes the frames, the topmost first, and writes out what they log. NoMemory comes too where memory was refused
/// before, and what is kept of form owners does not stand for the page.
pub(crate) fn run<K: Sink>(
    state: &mut State,
    alloc: Global,
    stack: &mut Stack,
    end: Came,
    trace: bool,
    sink: &mut K,
) -> Result<Came, Stop>
    requires paired { ArePaired stack.old state.old }
    requires placed { ArePlaced state.old.page.forest (frames_of stack.old) (end_of end) }
    ensures ran { IfOk result (λ now. Did trace (K.held sink.old) (K.held sink.new) (over stack.old (came_in end (session stack.old state.old)))
        (came_in now (session stack.new state.new))) }
    ensures empty { OnOk result (state.new.log ≡ []) }
    ensures rest { OnOk result (stack.new.frames ≡ []) }
    ensures paired { OnOk result (ArePaired stack.new state.new) }
    ensures settled { OnOk result (IsSettled state.new.page) }
    ensures part { OnErr result
        (AppendsPart (K.held sink.old) (K.held sink.new) (text trace (log_of (over stack.old (came_in end (session stack.old state.old)))))) }
    ensures later { K.failed sink.old ≤ K.failed sink.new }
    ensures cause { IsErrOf result Stop.WriteFault → Rose (K.failed sink.old) (K.failed sink.new) }
    ensures told { K.failed sink.old < K.failed sink.new → IsErrOf result Stop.WriteFault }
    ensures home { K.home sink.new ≡ K.home sink.old }
    ensures below { K.below sink.old ≤ K.below sink.new }
{
    let mut now = end;
    while !stack.is_empty() {
        state.flush(alloc, trace, sink)?;
        now = turn(state, alloc, stack, now)?;
    }
    flush_settled(state, alloc, trace, sink)?;
    Ok(now)
}

// Writes out what was logged last. NoMemory comes too where the page is not settled.
fn flush_settled<K: Sink>(
    state: &mut State,
    alloc: Global,
    trace: bool,
    sink: &mut K,
) -> Result<(), Stop>
    ensures written { OnOk result (Appends (K.held sink.old) (K.held sink.new) (text trace state.old.log)) }
    ensures state { OnOk result (state.new ≡ forgotten state.old) }
    ensures settled { OnOk result (IsSettled state.new.page) }
    ensures part { OnErr result (AppendsPart (K.held sink.old) (K.held sink.new) (text trace state.old.log)) }
    ensures later { K.failed sink.old ≤ K.failed sink.new }
    ensures cause { IsErrOf result Stop.WriteFault → Rose (K.failed sink.old) (K.failed sink.new) }
    ensures told { K.failed sink.old < K.failed sink.new → IsErrOf result Stop.WriteFault }
    ensures home { K.home sink.new ≡ K.home sink.old }
    ensures below { K.below sink.old ≤ K.below sink.new }
{
    if !state.page().is_settled() {
        return Err(Stop::NoMemory);
    }
    state.flush(alloc, trace, sink)
}
