// A sink in memory that takes a few bytes at a time.
ghost use Rattle.std.specs.Prelude.{◌≡◌, ◌≢◌, ◌≤◌, ◌<◌, ◌↔◌, ◌⊎◌, Some, [], length, min, Contains};
ghost use Rattle.std.specs.Io.KnownBytes.{Appends};
ghost use Rattle.ce_base.specs.Faults.{Rose, next_count};
ghost use Rattle.ce_base.specs.Outside.{bytes_put, TakesSome, faults_put};

use crate::calls::Calls;
use crate::{Put, Sink, SureSink};
use std::marker::Model;

/// A sink in memory that takes at most `cut` bytes a call, and fails at exactly the calls whose numbers, from 1, are in its
/// list.
#[derive(Drop)]
pub struct ShortSink {
    inner: SureSink,
    cut: usize,
    calls: Calls,
}

impl Model for ShortSink {
    ghost use Rattle.std.specs.Prelude.{◌≤◌};
    ghost use Rattle.ce_base.specs.Failing.{ShortStore};

    ghost Value = { ShortStore };

    ghost view = { λ s. record {
      store = record { held = s.inner; fails = s.calls.fails.items; calls = s.calls.made; failures = s.calls.failures };
      cut = s.cut;
    } };

    ghost invariant = { λ s. 1 ≤ s.cut };
}

impl ShortSink {
    /// A sink that holds nothing yet, takes at most `cut` bytes a call, and fails at the calls listed.
    pub fn make(cut: usize, fails: Vec<u64>) -> ShortSink
        requires { 1 ≤ cut }
        ensures { result ≡ record { store = record { held = []; fails = fails.items; calls = 0; failures = 0 }; cut = cut } }
    {
        let alloc = *fails.allocator();
        ShortSink {
            inner: SureSink::make(alloc),
            cut,
            calls: Calls::make(fails),
        }
    }

    /// The bytes that it holds.
    pub fn bytes(&self) -> &[u8]
        ensures { result.now ≡ self.now.store.held }
    {
        self.inner.bytes()
    }
}

impl Sink for ShortSink {
    ghost held = { λ s. Some s.store.held };

    ghost failed = { λ s. s.store.failures };

    fn faults(&self) -> u64 {
        self.calls.failures
    }

    /// Takes as much of the front of the piece as it takes a call. The number of a call stays at the greatest u64 once it is
    /// there.
    fn write(&mut self, piece: &[u8]) -> Put
        ensures took { TakesSome result piece.now }
        ensures bytes { Appends (Some self.old.store.held) (Some self.new.store.held) (bytes_put result piece.now) }
        ensures later { self.old.store.failures ≤ self.new.store.failures }
        ensures cause { result ≡ Put.Failed → Rose self.old.store.failures self.new.store.failures }
        ensures told { self.old.store.failures < self.new.store.failures → result ≡ Put.Failed }
        ensures number { self.new.store.calls ≡ next_count self.old.store.calls }
        ensures fails { (result ≡ Put.Failed) ↔ Contains self.old.store.fails self.new.store.calls }
        ensures count { self.new.store.failures ≡ faults_put result self.old.store.failures }
        ensures short { (result ≢ Put.Failed) → (result ≡ Put.Took (min (length piece.now) self.old.cut)) ⊎ (result ≡ Put.NoMemory) }
        ensures cut { self.new.cut ≡ self.old.cut }
        ensures list { self.new.store.fails ≡ self.old.store.fails }
    {
        if self.calls.next_fails() {
            return Put::Failed;
        }
        let count = piece.len().min(self.cut);
        self.inner.write(&piece[..count])
    }
}
