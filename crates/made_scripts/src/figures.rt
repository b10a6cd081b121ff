// A sink that counts lines.
ghost use Rattle.std.specs.Prelude.{◌≡◌, ◌+◌, ◌^◌, ◌<◌, ◌≤◌, ◌↔◌, ◌⊎◌, ◌++◌, ◌∷◌, Some, [], IsTrue, length};
ghost use Rattle.std.specs.Io.KnownBytes.{Appends};
ghost use Rattle.ce_base.specs.Faults.{Rose};
ghost use Rattle.ce_base.specs.Outside.{bytes_put, TakesSome};
ghost use Rattle.made_scripts.specs.Figures.{lines_in, calls_in};
ghost use Rattle.made_scripts.specs.Wanted.{ends_beginning, wanted_next};

use crate::taken::Taken;
use ce_base::{Put, Sink};
use std::marker::Model;

// What a line begins with that tells a call.
const CALL: &[u8] = b"call";

/// A sink that keeps no byte, only how many lines there were and how many of them tell a call. A contract sees
/// the bytes that it took.
#[derive(Drop)]
pub struct Figures {
    bytes: u64,
    lines: u64,
    calls: u64,
    // What the line has still to go on with to tell a call. Nothing where that is decided.
    wanted: &'static [u8],
    taken: Taken,
}

impl Model for Figures {
    ghost use Rattle.std.specs.Prelude.{◌≡◌, ℕ, List, length};
    ghost use Rattle.made_scripts.specs.Figures.{lines_in, calls_in};
    ghost use Rattle.made_scripts.specs.Wanted.{wanted_after};

    ghost Value = { List ℕ };

    ghost view = { λ f. f.taken.bytes };

    ghost invariant = { λ f. (f.bytes ≡ length f.taken.bytes) × (f.lines ≡ lines_in f.taken.bytes)
        × (f.calls ≡ calls_in f.taken.bytes) × (f.wanted.now ≡ wanted_after f.taken.bytes) };
}

impl Figures {
    /// No byte was taken yet.
    pub fn make() -> Figures
        ensures { result ≡ [] }
    {
        Figures {
            bytes: 0,
            lines: 0,
            calls: 0,
            wanted: CALL,
            taken: Taken::none(),
        }
    }

    /// How many lines the bytes have, by their line feeds.
    pub fn lines(&self) -> u64
        ensures { result ≡ lines_in self.now }
    {
        self.lines
    }

    /// How many lines begin with `call`. Bytes behind the last line feed are a line here, too.
    pub fn calls(&self) -> u64
        ensures { result ≡ calls_in self.now }
    {
        self.calls
    }

    // Whether so many bytes more can be counted.
    fn has_room(&self, count: usize) -> bool
        ensures { IsTrue result ↔ (length self.now + count < 2 ^ 64) }
    {
        count as u64 <= u64::MAX - self.bytes
    }

    // Takes one byte.
    fn take(&mut self, byte: u8)
        requires { length self.old + 1 < 2 ^ 64 }
        ensures { self.new ≡ self.old ++ byte ∷ [] }
    {
        self.bytes += 1;
        self.lines += u64::from(byte == b'\n');
        self.calls += u64::from(ends_beginning(self.wanted, byte));
        self.wanted = wanted_next(self.wanted, byte);
        self.taken.take(&[byte]);
    }
}

// Whether the byte makes the line one that tells a call.
fn ends_beginning(wanted: &[u8], byte: u8) -> bool
    ensures { result ≡ ends_beginning wanted.now byte }
{
    match wanted {
        [last] => byte != b'\n' && *last == byte,
        _ => false,
    }
}

// What the line has still to go on with after this byte.
fn wanted_next(wanted: &'static [u8], byte: u8) -> &'static [u8]
    ensures { result.now ≡ wanted_next wanted.now byte }
{
    if byte == b'\n' {
        return CALL;
    }
    match wanted.split_first() {
        Some((first, rest)) if *first == byte => rest,
        _ => &[],
    }
}

impl Sink for Figures {
    ghost held = { λ f. Some f };

    ghost failed = { λ f. 0 };

    fn faults(&self) -> u64 {
        0
    }

    /// Takes the whole piece. NoMemory, with nothing taken, only where there would be 2^64 bytes or more.
    fn write(&mut self, piece: &[u8]) -> Put
        ensures took { TakesSome result piece.now }
        ensures bytes { Appends (Some self.old) (Some self.new) (bytes_put result piece.now) }
        ensures later { 0 ≤ 0 }
        ensures cause { result ≡ Put.Failed → Rose 0 0 }
        ensures told { 0 < 0 → result ≡ Put.Failed }
        ensures whole { (result ≡ Put.Took (length piece.now)) ⊎ (result ≡ Put.NoMemory) }
        ensures memory { result ≡ Put.NoMemory → 2 ^ 64 ≤ length self.old + length piece.now }
    {
        if !self.has_room(piece.len()) {
            return Put::NoMemory;
        }
        for byte in piece {
            self.take(*byte);
        }
        Put::Took(piece.len())
    }
}
