// A source that gives one byte without end.
ghost use Rattle.std.specs.Prelude.{◌≡◌, ◌≤◌, ◌<◌, None, false, true, length, replicate};
ghost use Rattle.std.specs.Io.KnownBytes.{Consumes, IsAtEnd};
ghost use Rattle.ce_base.specs.Faults.{Rose};
ghost use Rattle.ce_base.specs.Outside.{bytes_got, IsWithin, gave_end};

use crate::{Got, Source};
use std::marker::Model;

/// A source that fills each buffer with one byte. It never ends, never fails, and tells nothing of the bytes that are left.
#[derive(Drop)]
pub struct EndlessSource {
    byte: u8,
}

impl Model for EndlessSource {
    ghost use Rattle.std.specs.Prelude.{ℕ};

    ghost Value = { ℕ };

    ghost view = { λ s. s.byte };
}

impl EndlessSource {
    /// A source of this byte.
    pub fn make(byte: u8) -> EndlessSource
        ensures { result ≡ byte }
    {
        EndlessSource { byte }
    }
}

impl Source for EndlessSource {
    ghost left = { λ s. None };

    ghost failed = { λ s. 0 };

    ghost ended = { λ s. false };

    fn faults(&self) -> u64 {
        0
    }

    fn read(&mut self, buf: &mut [u8]) -> Got
        ensures within { IsWithin result buf.new }
        ensures bytes { Consumes None None (bytes_got result buf.new) }
        ensures ended { false ≡ gave_end result (length buf.new) }
        ensures end { gave_end result (length buf.new) ≡ true → IsAtEnd None }
        ensures later { 0 ≤ 0 }
        ensures cause { result ≡ Got.Failed → Rose 0 0 }
        ensures told { 0 < 0 → result ≡ Got.Failed }
        ensures full { result ≡ Got.Bytes (length buf.old) }
        ensures filled { buf.new ≡ replicate (length buf.old) self.old }
        ensures same { self.new ≡ self.old }
    {
        buf.fill(self.byte);
        Got::Bytes(buf.len())
    }
}
