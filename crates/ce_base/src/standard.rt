// A source over a reader of std, and a sink over a writer of std: the trusted edge.
ghost use Rattle.std.specs.Prelude.{◌≡◌, ◌≢◌, ◌≤◌, ◌<◌, None, false, true, length};
ghost use Rattle.std.specs.Io.KnownBytes.{Consumes, Appends, IsAtEnd};
ghost use Rattle.ce_base.specs.Faults.{Rose};
ghost use Rattle.ce_base.specs.Outside.{bytes_got, IsWithin, gave_end, faults_got, bytes_put, TakesSome, faults_put};

use crate::{Got, Put, Sink, Source};
use std::io::{Read, Write};
use std::marker::Model;

/// A source over a reader of std. It tells nothing of the bytes that are left, and counts each error of
/// the reader as a fault.
#[derive(Drop)]
pub struct StdSource<R: Read> {
    inner: R,
    faults: u64,
    ended: bool,
}

impl<R: Read> Model for StdSource<R> {
    ghost use Rattle.ce_base.specs.Standard.{Reading};

    ghost Value = { Reading };

    ghost view = { λ s. record { faults = s.faults; ended = s.ended } };
}

impl<R: Read> StdSource<R> {
    /// A source over this reader, without a fault yet.
    pub fn make(inner: R) -> StdSource<R>
        ensures { result ≡ record { faults = 0; ended = false } }
    {
        StdSource {
            inner,
            faults: 0,
            ended: false,
        }
    }
}

impl<R: Read> Source for StdSource<R> {
    ghost left = { λ s. None };

    ghost failed = { λ s. s.faults };

    ghost ended = { λ s. s.ended };

    fn faults(&self) -> u64 {
        self.faults
    }

    fn read(&mut self, buf: &mut [u8]) -> Got
        ensures within { IsWithin result buf.new }
        ensures bytes { Consumes None None (bytes_got result buf.new) }
        ensures ended { self.new.ended ≡ gave_end result (length buf.new) }
        ensures end { gave_end result (length buf.new) ≡ true → IsAtEnd None }
        ensures later { self.old.faults ≤ self.new.faults }
        ensures cause { result ≡ Got.Failed → Rose self.old.faults self.new.faults }
        ensures told { self.old.faults < self.new.faults → result ≡ Got.Failed }
        ensures count { self.new.faults ≡ faults_got result self.old.faults }
    {
        match self.inner.read(buf) {
            Ok(count) => {
                self.ended = count == 0 && !buf.is_empty();
                Got::Bytes(count)
            }
            Err(_) => {
                self.ended = false;
                self.faults = self.faults.saturating_add(1);
                Got::Failed
            }
        }
    }
}

/// A sink over a writer of std. It tells nothing of the bytes that it holds, and counts as a fault each
/// error of the writer and each write that takes no byte of a piece that has one. A contract sees the count.
#[derive(Drop)]
pub struct StdSink<W: Write> {
    inner: W,
    faults: u64,
}

impl<W: Write> Model for StdSink<W> {
    ghost use Rattle.std.specs.Prelude.{ℕ};

    ghost Value = { ℕ };

    ghost view = { λ s. s.faults };
}

impl<W: Write> StdSink<W> {
    /// A sink over this writer, without a fault yet.
    pub fn make(inner: W) -> StdSink<W>
        ensures { result ≡ 0 }
    {
        StdSink { inner, faults: 0 }
    }
}

impl<W: Write> Sink for StdSink<W> {
    ghost held = { λ s. None };

    ghost failed = { λ s. s };

    fn faults(&self) -> u64 {
        self.faults
    }

    fn write(&mut self, piece: &[u8]) -> Put
        ensures took { TakesSome result piece.now }
        ensures bytes { Appends None None (bytes_put result piece.now) }
        ensures later { self.old ≤ self.new }
        ensures cause { result ≡ Put.Failed → Rose self.old self.new }
        ensures told { self.old < self.new → result ≡ Put.Failed }
        ensures count { self.new ≡ faults_put result self.old }
        ensures memory { result ≢ Put.NoMemory }
    {
        if piece.is_empty() {
            return Put::Took(0);
        }
        match self.inner.write(piece) {
            Ok(count) if count > 0 => Put::Took(count),
            _ => {
                self.faults = self.faults.saturating_add(1);
                Put::Failed
            }
        }
    }
}
