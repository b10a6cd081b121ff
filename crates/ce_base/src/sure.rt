// A source and a sink in memory that never fail.
ghost use Rattle.std.specs.Prelude.{◌≡◌, ◌≤◌, ◌<◌, ◌⊎◌, Some, [], false, true, length};
ghost use Rattle.std.specs.Io.KnownBytes.{Consumes, Appends, IsAtEnd};
ghost use Rattle.ce_base.specs.Faults.{Rose};
ghost use Rattle.ce_base.specs.Outside.{bytes_got, IsWithin, gave_end, bytes_put, TakesSome};
ghost use Rattle.ce_base.specs.Sure.{sure_got};

use crate::{Got, Put, Sink, Source};
use std::alloc::Global;
use std::marker::Model;

/// A source over bytes in memory. It never fails, and gives at most `cut` bytes a call.
#[derive(Drop)]
pub struct SureSource {
    content: Vec<u8>,
    at: usize,
    cut: usize,
    ended: bool,
}

impl Model for SureSource {
    ghost use Rattle.std.specs.Prelude.{◌≤◌, vec_len, drop};
    ghost use Rattle.ce_base.specs.Sure.{Supply};

    ghost Value = { Supply };

    ghost view = { λ s. record { left = drop s.at s.content.items; cut = s.cut; ended = s.ended } };

    ghost invariant = { λ s. (s.at ≤ vec_len s.content) × (1 ≤ s.cut) };
}

impl SureSource {
    /// A source of these bytes, at most `cut` a call.
    pub fn make(content: Vec<u8>, cut: usize) -> SureSource
        requires { 1 ≤ cut }
        ensures { result ≡ record { left = content.items; cut = cut; ended = false } }
    {
        SureSource {
            content,
            at: 0,
            cut,
            ended: false,
        }
    }
}

impl Source for SureSource {
    ghost left = { λ s. Some s.left };

    ghost failed = { λ s. 0 };

    ghost ended = { λ s. s.ended };

    fn faults(&self) -> u64 {
        0
    }

    fn read(&mut self, buf: &mut [u8]) -> Got
        ensures within { IsWithin result buf.new }
        ensures bytes { Consumes (Some self.old.left) (Some self.new.left) (bytes_got result buf.new) }
        ensures ended { self.new.ended ≡ gave_end result (length buf.new) }
        ensures end { gave_end result (length buf.new) ≡ true → IsAtEnd (Some self.new.left) }
        ensures later { 0 ≤ 0 }
        ensures cause { result ≡ Got.Failed → Rose 0 0 }
        ensures told { 0 < 0 → result ≡ Got.Failed }
        ensures exact { result ≡ sure_got self.old (length buf.old) }
        ensures cut { self.new.cut ≡ self.old.cut }
    {
        let rest = &self.content[self.at..];
        if rest.is_empty() {
            self.ended = true;
            return Got::End;
        }
        let count = rest.len().min(buf.len()).min(self.cut);
        buf[..count].copy_from_slice(&rest[..count]);
        self.at += count;
        self.ended = false;
        Got::Bytes(count)
    }
}

/// A sink in memory. It never fails but where memory is refused. A contract sees the bytes that it holds.
#[derive(Drop)]
pub struct SureSink {
    content: Vec<u8>,
}

impl Model for SureSink {
    ghost use Rattle.std.specs.Prelude.{ℕ, List};

    ghost Value = { List ℕ };

    ghost view = { λ s. s.content.items };
}

impl SureSink {
    /// A sink that holds nothing yet.
    pub fn make(alloc: Global) -> SureSink
        ensures { result ≡ [] }
    {
        SureSink {
            content: Vec::new(alloc),
        }
    }

    /// The bytes that it holds.
    pub fn bytes(&self) -> &[u8]
        ensures { result.now ≡ self.now }
    {
        self.content.as_slice()
    }
}

impl Sink for SureSink {
    ghost held = { λ s. Some s };

    ghost failed = { λ s. 0 };

    fn faults(&self) -> u64 {
        0
    }

    fn write(&mut self, piece: &[u8]) -> Put
        ensures took { TakesSome result piece.now }
        ensures bytes { Appends (Some self.old) (Some self.new) (bytes_put result piece.now) }
        ensures later { 0 ≤ 0 }
        ensures cause { result ≡ Put.Failed → Rose 0 0 }
        ensures told { 0 < 0 → result ≡ Put.Failed }
        ensures whole { (result ≡ Put.Took (length piece.now)) ⊎ (result ≡ Put.NoMemory) }
    {
        match self.content.extend_from_slice(piece) {
            Ok(()) => Put::Took(piece.len()),
            Err(_) => Put::NoMemory,
        }
    }
}
