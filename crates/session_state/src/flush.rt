// What was logged is written out.
ghost use Rattle.std.specs.Prelude.{◌≡◌, ◌≤◌, ◌<◌, OnOk, OnErr, IsErrOf};
ghost use Rattle.std.specs.Io.KnownBytes.{Appends};
ghost use Rattle.ce_base.specs.Faults.{Rose};
ghost use Rattle.ce_base.specs.Outside.{AppendsPart};
ghost use Rattle.ce_events.specs.Text.{text};
ghost use Rattle.ce_algorithms.specs.State.{forgotten};

use crate::State;
use ce_base::{Sink, Stop};
use ce_events::Event;
use ce_lines::write_out;
use std::alloc::Global;

impl State {
    /// Writes out what was logged, and forgets it. WriteFault: a write failed, and the sink's count of faults rose.
    /// NoMemory: memory was refused. After both a front of the text was written, and the state is only dropped.
    pub fn flush<K: Sink>(&mut self, alloc: Global, trace: bool, sink: &mut K) -> Result<(), Stop>
        ensures written { OnOk result (Appends (K.held sink.old) (K.held sink.new) (text trace self.old.log)) }
        ensures state { OnOk result (self.new ≡ forgotten self.old) }
        ensures part { OnErr result (AppendsPart (K.held sink.old) (K.held sink.new) (text trace self.old.log)) }
        ensures later { K.failed sink.old ≤ K.failed sink.new }
        ensures cause { IsErrOf result Stop.WriteFault → Rose (K.failed sink.old) (K.failed sink.new) }
        ensures told { K.failed sink.old < K.failed sink.new → IsErrOf result Stop.WriteFault }
        ensures home { K.home sink.new ≡ K.home sink.old }
        ensures below { K.below sink.old ≤ K.below sink.new }
    {
        write_log(alloc, trace, &self.log, sink)?;
        self.log.clear();
        Ok(())
    }
}

// Writes the lines of a log.
fn write_log<K: Sink>(alloc: Global, trace: bool, log: &[Event], sink: &mut K) -> Result<(), Stop>
    ensures written { OnOk result (Appends (K.held sink.old) (K.held sink.new) (text trace log.now)) }
    ensures part { OnErr result (AppendsPart (K.held sink.old) (K.held sink.new) (text trace log.now)) }
    ensures later { K.failed sink.old ≤ K.failed sink.new }
    ensures cause { IsErrOf result Stop.WriteFault → Rose (K.failed sink.old) (K.failed sink.new) }
    ensures told { K.failed sink.old < K.failed sink.new → IsErrOf result Stop.WriteFault }
    ensures home { K.home sink.new ≡ K.home sink.old }
    ensures below { K.below sink.old ≤ K.below sink.new }
{
    for e in log {
        write_out(alloc, sink, trace, e)?;
    }
    Ok(())
}
