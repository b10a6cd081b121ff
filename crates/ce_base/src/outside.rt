// A source of bytes and a sink for bytes, each with a count of its faults.
ghost use Rattle.std.specs.Prelude.{◌≡◌, ◌≤◌, ◌<◌, ℕ, List, Bool, true, length, take, OnOk, OnErr, IsErrOf};
ghost use Rattle.std.specs.Io.KnownBytes.{Consumes, Appends, IsAtEnd};
ghost use Rattle.std.specs.declared.option.Option.{Option};
ghost use Rattle.ce_base.specs.Faults.{Rose};
ghost use Rattle.ce_base.specs.Outside.{bytes_got, IsWithin, gave_end, bytes_put, TakesSome, AppendsPart};
ghost use base.Fml.{GName};

use crate::Stop;

/// What a read gave.
#[derive(Clone, Copy, Debug)]
pub enum Got {
    /// So many bytes, at the front of the buffer. None for a buffer with room is the end too.
    Bytes(usize),
    /// No more bytes come.
    End,
    /// The read failed, and took nothing.
    Failed,
}

/// Where bytes come from.
pub trait Source {
    /// The bytes that are left, where the source tells them.
    ghost left: { Self → Option (List ℕ) };

    /// How often it has failed.
    ghost failed: { Self → ℕ };

    /// Whether the last read gave the end.
    ghost ended: { Self → Bool };

    /// How often it has failed. The count stays at the greatest u64 once it is there.
    fn faults(&self) -> u64
        ensures { result ≡ failed self.now };

    /// Reads bytes into the front of the buffer.
    fn read(&mut self, buf: &mut [u8]) -> Got
        ensures within { IsWithin result buf.new }
        ensures bytes { Consumes (left self.old) (left self.new) (bytes_got result buf.new) }
        ensures ended { ended self.new ≡ gave_end result (length buf.new) }
        ensures end { gave_end result (length buf.new) ≡ true → IsAtEnd (left self.new) }
        ensures later { failed self.old ≤ failed self.new }
        ensures cause { result ≡ Got.Failed → Rose (failed self.old) (failed self.new) }
        ensures told { failed self.old < failed self.new → result ≡ Got.Failed };
}

/// What a write did.
#[derive(Clone, Copy)]
pub enum Put {
    /// It took so many bytes from the front of the piece, at least one where there is one.
    Took(usize),
    /// The write failed, and took nothing.
    Failed,
    /// Memory was refused, and nothing was taken.
    NoMemory,
}

/// Where bytes go.
pub trait Sink {
    /// The bytes that it holds, where the sink tells them.
    ghost held: { Self → Option (List ℕ) };

    /// How often it has failed.
    ghost failed: { Self → ℕ };

    /// Whose bytes they are in the end: of a sink over another one, which one that is.
    ghost home: { Self → GName } = { λ _. 0 };

    /// Of a sink over another one, how many bytes that one holds.
    ghost below: { Self → ℕ } = { λ _. 0 };

    /// How often it has failed. The count stays at the greatest u64 once it is there.
    fn faults(&self) -> u64
        ensures { result ≡ failed self.now };

    /// Takes bytes from the front of the piece, and puts them behind those that it holds.
    fn write(&mut self, piece: &[u8]) -> Put
        ensures took { TakesSome result piece.now }
        ensures bytes { Appends (held self.old) (held self.new) (bytes_put result piece.now) }
        ensures later { failed self.old ≤ failed self.new }
        ensures cause { result ≡ Put.Failed → Rose (failed self.old) (failed self.new) }
        ensures told { failed self.old < failed self.new → result ≡ Put.Failed }
        ensures home { home self.new ≡ home self.old }
        ensures below { below self.old ≤ below self.new };
}

/// Writes all of the bytes, in as many writes as it takes. Where it stops, a front of them is written.
pub fn write_all<K: Sink>(sink: &mut K, bytes: &[u8]) -> Result<(), Stop>
    ensures all { OnOk result (Appends (K.held sink.old) (K.held sink.new) bytes.now) }
    ensures part { OnErr result (AppendsPart (K.held sink.old) (K.held sink.new) bytes.now) }
    ensures later { K.failed sink.old ≤ K.failed sink.new }
    ensures cause { IsErrOf result Stop.WriteFault → Rose (K.failed sink.old) (K.failed sink.new) }
    ensures told { K.failed sink.old < K.failed sink.new → IsErrOf result Stop.WriteFault }
    ensures home { K.home sink.new ≡ K.home sink.old }
    ensures below { K.below sink.old ≤ K.below sink.new }
{
    let (_, end) = write_on(sink, bytes);
    end
}

// Writes bytes until all are written or it stops, and says how many were written.
pub(crate) fn write_on<K: Sink>(sink: &mut K, bytes: &[u8]) -> (usize, Result<(), Stop>)
    ensures count { result.0 ≤ length bytes.now }
    ensures written { Appends (K.held sink.old) (K.held sink.new) (take result.0 bytes.now) }
    ensures all { OnOk result.1 (result.0 ≡ length bytes.now) }
    ensures later { K.failed sink.old ≤ K.failed sink.new }
    ensures cause { IsErrOf result.1 Stop.WriteFault → Rose (K.failed sink.old) (K.failed sink.new) }
    ensures told { K.failed sink.old < K.failed sink.new → IsErrOf result.1 Stop.WriteFault }
    ensures home { K.home sink.new ≡ K.home sink.old }
    ensures below { K.below sink.old ≤ K.below sink.new }
{
    let mut count = 0;
    while count < bytes.len() {
        match sink.write(&bytes[count..]) {
            Put::Took(more) => count += more,
            Put::Failed => return (count, Err(Stop::WriteFault)),
            Put::NoMemory => return (count, Err(Stop::NoMemory)),
        }
    }
    (count, Ok(()))
}
