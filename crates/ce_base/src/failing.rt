// A source and a sink in memory that fail at the calls whose numbers they are given.
ghost use Rattle.std.specs.Prelude.{◌≡◌, ◌≢◌, ◌≤◌, ◌<◌, ◌↔◌, ◌⊎◌, Some, [], false, true, length, Contains};
ghost use Rattle.std.specs.Io.KnownBytes.{Consumes, Appends, IsAtEnd};
ghost use Rattle.ce_base.specs.Faults.{Rose, next_count};
ghost use Rattle.ce_base.specs.Outside.{bytes_got, IsWithin, gave_end, faults_got, bytes_put, TakesSome, faults_put};
ghost use Rattle.ce_base.specs.Sure.{sure_got};

use crate::calls::Calls;
use crate::{Got, Put, Sink, Source, SureSink, SureSource};
use std::alloc::Global;
use std::marker::Model;

/// A source over bytes in memory that gives at most `cut` bytes a call, and fails at exactly the calls
/// whose numbers, from 1, are in its list.
#[derive(Drop)]
pub struct MemSource {
    inner: SureSource,
    ended: bool,
    calls: Calls,
}

impl Model for MemSource {
    ghost use Rattle.ce_base.specs.Failing.{FailingSupply};

    ghost Value = { FailingSupply };

    ghost view = { λ s. record {
      supply = record { left = s.inner.left; cut = s.inner.cut; ended = s.ended };
      fails = s.calls.fails.items;
      calls = s.calls.made;
      failures = s.calls.failures;
    } };
}

impl MemSource {
    /// A source of these bytes, at most `cut` a call, that fails at the calls listed.
    pub fn make(content: Vec<u8>, cut: usize, fails: Vec<u64>) -> MemSource
        requires { 1 ≤ cut }
        ensures { result ≡ record {
          supply = record { left = content.items; cut = cut; ended = false };
          fails = fails.items;
          calls = 0;
          failures = 0;
        } }
    {
        MemSource {
            inner: SureSource::make(content, cut),
            ended: false,
            calls: Calls::make(fails),
        }
    }
}

// Whether a read into a buffer with so much room gave the end.
fn gave_end(got: Got, room: usize) -> bool
    ensures { result ≡ gave_end got room }
{
    match got {
        Got::Bytes(count) => count == 0 && room > 0,
        Got::End => true,
        Got::Failed => false,
    }
}

impl Source for MemSource {
    ghost left = { λ s. Some s.supply.left };

    ghost failed = { λ s. s.failures };

    ghost ended = { λ s. s.supply.ended };

    fn faults(&self) -> u64 {
        self.calls.failures
    }

    /// Reads bytes into the front of the buffer. The number of a call stays at the greatest u64 once it
    /// is there.
    fn read(&mut self, buf: &mut [u8]) -> Got
        ensures within { IsWithin result buf.new }
        ensures bytes { Consumes (Some self.old.supply.left) (Some self.new.supply.left) (bytes_got result buf.new) }
        ensures ended { self.new.supply.ended ≡ gave_end result (length buf.new) }
        ensures end { gave_end result (length buf.new) ≡ true → IsAtEnd (Some self.new.supply.left) }
        ensures later { self.old.failures ≤ self.new.failures }
        ensures cause { result ≡ Got.Failed → Rose self.old.failures self.new.failures }
        ensures told { self.old.failures < self.new.failures → result ≡ Got.Failed }
        ensures number { self.new.calls ≡ next_count self.old.calls }
        ensures fails { (result ≡ Got.Failed) ↔ Contains self.old.fails self.new.calls }
        ensures count { self.new.failures ≡ faults_got result self.old.failures }
        ensures exact { (result ≢ Got.Failed) → result ≡ sure_got self.old.supply (length buf.old) }
        ensures cut { self.new.supply.cut ≡ self.old.supply.cut }
        ensures list { self.new.fails ≡ self.old.fails }
    {
        if self.calls.next_fails() {
            self.ended = false;
            return Got::Failed;
        }
        let got = self.inner.read(buf);
        self.ended = gave_end(got, buf.len());
        got
    }
}

/// A sink in memory that fails at exactly the calls whose numbers, from 1, are in its list.
#[derive(Drop)]
pub struct MemSink {
    inner: SureSink,
    calls: Calls,
}

impl Model for MemSink {
    ghost use Rattle.ce_base.specs.Failing.{FailingStore};

    ghost Value = { FailingStore };

    ghost view = { λ s. record {
      held = s.inner;
      fails = s.calls.fails.items;
      calls = s.calls.made;
      failures = s.calls.failures;
    } };
}

impl MemSink {
    /// A sink that holds nothing yet, and fails at the calls listed.
    pub fn make(alloc: Global, fails: Vec<u64>) -> MemSink
        ensures { result ≡ record { held = []; fails = fails.items; calls = 0; failures = 0 } }
    {
        MemSink {
            inner: SureSink::make(alloc),
            calls: Calls::make(fails),
        }
    }

    /// The bytes that it holds.
    pub fn bytes(&self) -> &[u8]
        ensures { result.now ≡ self.now.held }
    {
        self.inner.bytes()
    }
}

impl Sink for MemSink {
    ghost held = { λ s. Some s.held };

    ghost failed = { λ s. s.failures };

    fn faults(&self) -> u64 {
        self.calls.failures
    }

    /// Takes the whole piece. The number of a call stays at the greatest u64 once it is there.
    fn write(&mut self, piece: &[u8]) -> Put
        ensures took { TakesSome result piece.now }
        ensures bytes { Appends (Some self.old.held) (Some self.new.held) (bytes_put result piece.now) }
        ensures later { self.old.failures ≤ self.new.failures }
        ensures cause { result ≡ Put.Failed → Rose self.old.failures self.new.failures }
        ensures told { self.old.failures < self.new.failures → result ≡ Put.Failed }
        ensures number { self.new.calls ≡ next_count self.old.calls }
        ensures fails { (result ≡ Put.Failed) ↔ Contains self.old.fails self.new.calls }
        ensures count { self.new.failures ≡ faults_put result self.old.failures }
        ensures whole { (result ≢ Put.Failed) → (result ≡ Put.Took (length piece.now)) ⊎ (result ≡ Put.NoMemory) }
        ensures list { self.new.fails ≡ self.old.fails }
    {
        if self.calls.next_fails() {
            return Put::Failed;
        }
        self.inner.write(piece)
    }
}
