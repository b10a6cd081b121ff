// A sink in memory that takes no more than so many bytes.
ghost use Rattle.std.specs.Prelude.{◌≡◌, ◌≤◌, ◌<◌, [], ◌∷◌, Some, vec_len};
ghost use Rattle.std.specs.Io.KnownBytes.{Appends};
ghost use Rattle.ce_base.specs.Faults.{Rose};
ghost use Rattle.ce_base.specs.Outside.{bytes_put, TakesSome};

use ce_base::{Put, Sink};
use std::alloc::Global;
use std::marker::Model;

// A sink in memory that fails exactly where it is full.
#[derive(Drop)]
pub(crate) struct BoundedSink {
    content: Vec<u8>,
    most: usize,
    faults: u64,
}

impl Model for BoundedSink {
    ghost use Rattle.std.specs.Prelude.{◌≤◌, ◌<◌, vec_len};
    ghost use Rattle.page_runner.specs.Memory.{Store};

    ghost Value = { Store };

    ghost view = { λ s. record { held = s.content.items; most = s.most; faults = s.faults } };

    ghost invariant = { λ s. (vec_len s.content ≤ s.most) × (0 < s.faults → s.most ≤ vec_len s.content) };
}

impl BoundedSink {
    // A sink that holds nothing yet, and at most so many bytes.
    pub(crate) fn make(alloc: Global, most: usize) -> BoundedSink
        ensures { result ≡ record { held = []; most = most; faults = 0 } }
    {
        BoundedSink {
            content: Vec::new(alloc),
            most,
            faults: 0,
        }
    }

    // The bytes that it holds: as many as it may, where it has failed.
    pub(crate) fn into_bytes(self) -> Vec<u8>
        ensures held { result.items ≡ self.held }
        ensures within { vec_len result ≤ self.most }
        ensures full { 0 < self.faults → self.most ≤ vec_len result }
    {
        self.content
    }
}

impl Sink for BoundedSink {
    // Before the bytes it tells how many it may hold, so that whoever knows what was appended knows that this stayed.
    ghost held = { λ s. Some (s.most ∷ s.held) };

    ghost failed = { λ s. s.faults };

    fn faults(&self) -> u64 {
        self.faults
    }

    fn write(&mut self, piece: &[u8]) -> Put {
        let room = self.most - self.content.len();
        if room == 0 && !piece.is_empty() {
            self.faults = self.faults.saturating_add(1);
            return Put::Failed;
        }
        let count = piece.len().min(room);
        match self.content.extend_from_slice(&piece[..count]) {
            Ok(()) => Put::Took(count),
            Err(_) => Put::NoMemory,
        }
    }
}
