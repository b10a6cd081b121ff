// A sink over a sink, so that few and large writes reach the one below.
ghost use Rattle.std.specs.Prelude.{◌≡◌, ◌≤◌, ◌<◌, [], OnOk, IsErrOf};
ghost use Rattle.std.specs.Io.KnownBytes.{Keeps};
ghost use Rattle.ce_base.specs.Faults.{Rose};
ghost use Rattle.ce_base.specs.Gathered.{behind, count_of};

use crate::outside::write_on;
use crate::pending::Pending;
use crate::{Put, Sink, Stop};

/// A sink that holds what it takes, at most 65,536 bytes, and passes it on to the sink below once it is full.
#[derive(Drop)]
pub struct Gathering<'a, 'b, K> {
    sink: &'a mut K,
    pending: &'b mut Pending,
}

impl<'a, 'b, K: Sink> Gathering<'a, 'b, K> {
    /// A sink over this one, that keeps in `pending` what it has not passed on.
    pub fn make(sink: &'a mut K, pending: &'b mut Pending) -> Gathering<'a, 'b, K>
        ensures home { result.sink.ghost_name ≡ sink.entry.ghost_name }
        ensures sink { result.sink.now ≡ sink.old }
        ensures pending { result.pending.now ≡ pending.old }
    {
        Gathering { sink, pending }
    }

    /// Passes on all that is pending. Where a write fails, the rest stays pending.
    pub fn pass_on(&mut self) -> Result<(), Stop>
        ensures held { Keeps (behind (K.held self.old.sink.now) self.old.pending.now) (behind (K.held self.new.sink.now) self.new.pending.now) }
        ensures none { OnOk result (self.new.pending.now ≡ []) }
        ensures later { K.failed self.old.sink.now ≤ K.failed self.new.sink.now }
        ensures cause { IsErrOf result Stop.WriteFault → Rose (K.failed self.old.sink.now) (K.failed self.new.sink.now) }
        ensures told { K.failed self.old.sink.now < K.failed self.new.sink.now → IsErrOf result Stop.WriteFault }
        ensures home { self.new.sink.ghost_name ≡ self.old.sink.ghost_name }
        ensures below { count_of (K.held self.old.sink.now) ≤ count_of (K.held self.new.sink.now) }
    {
        let (count, end) = write_on(self.sink, self.pending.as_slice());
        self.pending.take(count);
        end
    }
}

impl<K: Sink> Sink for Gathering<'_, '_, K> {
    ghost held = { λ g. behind (K.held g.sink.now) g.pending.now };

    ghost failed = { λ g. K.failed g.sink.now };

    ghost home = { λ g. g.sink.ghost_name };

    ghost below = { λ g. count_of (K.held g.sink.now) };

    fn faults(&self) -> u64 {
        self.sink.faults()
    }

    fn write(&mut self, piece: &[u8]) -> Put {
        if self.pending.room() == 0 {
            match self.pass_on() {
                Ok(()) => {}
                Err(Stop::WriteFault) => return Put::Failed,
                Err(Stop::NoMemory) => return Put::NoMemory,
            }
        }
        match self.pending.push(piece) {
            Ok(count) => Put::Took(count),
            Err(_) => Put::NoMemory,
        }
    }
}
