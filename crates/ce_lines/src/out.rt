// Writes events out.
ghost use Rattle.std.specs.Prelude.{◌≡◌, ◌≤◌, ◌<◌, ◌++◌, ◌∷◌, [], IfOk, OnErr, OnOk, IsErrOf};
ghost use Rattle.std.specs.Io.KnownBytes.{Appends};
ghost use Rattle.ce_base.specs.Faults.{Rose};
ghost use Rattle.ce_base.specs.Outside.{AppendsPart};
ghost use Rattle.ce_events.specs.Text.{event_text, shown};

use crate::event_line::put_event;
use crate::trace::is_trace;
use crate::written::Written;
use ce_base::{NoMemory, Sink, Stop, write_all};
use ce_events::Event;
use std::alloc::Global;

fn whole_line(alloc: Global, e: &Event) -> Result<Written, NoMemory>
    ensures { IfOk result (λ line. line ≡ event_text e.now ++ 10 ∷ []) }
{
    let mut out = Written::make(alloc);
    put_event(alloc, &mut out, e)?;
    out.put("\n")?;
    Ok(out)
}

/// Writes the line of an event with its line feed, the line of an event that only a trace shows only with
/// `trace`. Where it stops, a front of the line is written: with `WriteFault` where the sink failed, and else
/// with `NoMemory`.
pub fn write_out<K: Sink>(alloc: Global, sink: &mut K, trace: bool, e: &Event) -> Result<(), Stop>
    ensures all { OnOk result (Appends (K.held sink.old) (K.held sink.new) (shown trace e.now)) }
    ensures part { OnErr result (AppendsPart (K.held sink.old) (K.held sink.new) (shown trace e.now)) }
    ensures later { K.failed sink.old ≤ K.failed sink.new }
    ensures cause { IsErrOf result Stop.WriteFault → Rose (K.failed sink.old) (K.failed sink.new) }
    ensures told { K.failed sink.old < K.failed sink.new → IsErrOf result Stop.WriteFault }
    ensures home { K.home sink.new ≡ K.home sink.old }
    ensures below { K.below sink.old ≤ K.below sink.new }
{
    if !trace && is_trace(e) {
        return Ok(());
    }
    let line = whole_line(alloc, e)?;
    write_all(sink, line.as_str().as_bytes())
}
