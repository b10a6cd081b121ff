// The whole of a source: read to its end, or as far as there may be bytes.
ghost use Rattle.std.specs.Prelude.{◌≡◌, ◌≤◌, ◌<◌, ◌⊎◌, List, ℕ, Some, Ok, IsErr, true, length, IfOk, vec_len};
ghost use Rattle.std.specs.Io.KnownBytes.{Consumes, IsAtEnd};
ghost use Rattle.ce_base.specs.Faults.{Rose};
ghost use Rattle.ce_base.specs.Outside.{bytes_got, IsSomeBytes, is_end};
ghost use Rattle.ce_base.specs.Whole.{ReadMeets, piece};

use crate::{Bytes, Got, NoMemory, Source};
use std::alloc::Global;

// How many bytes are asked for at a time.
const BUFFER: usize = 65_536;

/// What reading a whole source came to.
#[derive(Drop)]
pub enum Read {
    /// All of its bytes.
    Whole(Bytes),
    /// A read failed, and the source's count of faults rose.
    Failed,
    /// The source gave more bytes than there may be.
    TooLong,
}

/// Asks the source for bytes. None for a buffer with room are the end.
pub fn ask<S: Source>(source: &mut S, buf: &mut [u8]) -> Got
    requires { 0 < length buf.old }
    ensures some { IsSomeBytes result (length buf.new) }
    ensures bytes { Consumes (S.left source.old) (S.left source.new) (bytes_got result buf.new) }
    ensures ended { S.ended source.new ≡ is_end result }
    ensures end { is_end result ≡ true → IsAtEnd (S.left source.new) }
    ensures later { S.failed source.old ≤ S.failed source.new }
    ensures cause { result ≡ Got.Failed → Rose (S.failed source.old) (S.failed source.new) }
    ensures told { S.failed source.old < S.failed source.new → result ≡ Got.Failed }
{
    match source.read(buf) {
        Got::Bytes(0) | Got::End => Got::End,
        Got::Bytes(count) => Got::Bytes(count),
        Got::Failed => Got::Failed,
    }
}

/// Reads the source to its end, or until it fails or gives more than `limit` bytes. A read that failed is not tried again.
/// Memory is refused only while no more bytes than that were given.
pub fn read_all<S: Source>(alloc: Global, source: &mut S, limit: usize) -> Result<Read, NoMemory>
    ensures row { ReadMeets limit result (S.left source.old) (S.left source.new) (S.ended source.new) (S.failed source.old) (S.failed source.new) }
    ensures later { S.failed source.old ≤ S.failed source.new }
    ensures told { S.failed source.old < S.failed source.new → result ≡ Ok Read.Failed }

    // A source that ends within the limit is read whole, unless its count of faults rises or memory is refused.
    ensures complete { (bytes : List ℕ) → S.left source.old ≡ Some bytes → length bytes ≤ limit → ¬ Rose (S.failed source.old) (S.failed source.new)
        → (result ≡ Ok (Read.Whole bytes)) ⊎ IsErr result }
{
    let mut buffer = make_buffer(alloc)?;
    read_pieces(alloc, source, &mut buffer, limit)
}

/// A buffer of 65,536 bytes, for reads to fill. NoMemory: memory was refused.
pub fn make_buffer(alloc: Global) -> Result<Vec<u8>, NoMemory>
    ensures { IfOk result (λ buffer. vec_len buffer ≡ piece) }
{
    Ok(vec![in alloc; 0u8; BUFFER]?)
}

// Asks for a piece after the other, and keeps each behind those before it.
fn read_pieces<S: Source>(
    alloc: Global,
    source: &mut S,
    buffer: &mut [u8],
    limit: usize,
) -> Result<Read, NoMemory>
    requires { 0 < length buffer.old }
    ensures row { ReadMeets limit result (S.left source.old) (S.left source.new) (S.ended source.new) (S.failed source.old) (S.failed source.new) }
    ensures later { S.failed source.old ≤ S.failed source.new }
    ensures told { S.failed source.old < S.failed source.new → result ≡ Ok Read.Failed }
{
    let mut taken: Vec<u8> = Vec::new(alloc);
    loop {
        match ask(source, buffer) {
            Got::Failed => return Ok(Read::Failed),
            Got::End => return Ok(Read::Whole(Bytes::of(taken))),
            Got::Bytes(count) => {
                if count > limit - taken.len() {
                    return Ok(Read::TooLong);
                }
                taken.extend_from_slice(&buffer[..count])?;
            }
        }
    }
}
