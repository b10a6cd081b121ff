// A whole run, from the words and the source to the sink and a status.
ghost use Rattle.std.specs.Prelude.{◌≡◌, ◌≤◌, ◌<◌, ◌↔◌, length, map, string_bytes, None, Some, List, ℕ, IsErrOf, OnErr, OnOk};
ghost use Rattle.std.specs.Io.KnownBytes.{Appends};
ghost use Rattle.ce_base.specs.Faults.{Rose};
ghost use Rattle.ce_base.specs.Outside.{AppendsPart};
ghost use Rattle.ce_base.specs.declared.entries.Entry.{Entry};
ghost use Rattle.body_reader.specs.Asked.{asked};
ghost use Rattle.body_reader.specs.Listing.{refused_line};
ghost use Rattle.body_grammars.specs.Reads.{Reads};
ghost use Rattle.body_reader.specs.Table.{AnswerMeets, IsBody, IsReadable, RunMeets, RunsWhole, limit};

use crate::ReadStatus;
use crate::body_type::BodyType;
use crate::listing::write_listing;
use body_grammars::{BodyRefused, read_multipart, read_plain, read_urlencoded};
use ce_base::{Entries, NoMemory, Read, Sink, Source, Stop, read_all, write_all};
use std::alloc::Global;

// How many bytes a body may have.
const LIMIT: usize = 33_554_432;

/// Reads the body that the source gives, of the type that the words ask for, and writes its entries to the sink, a line each:
/// the name and the value in quotes, as in a transcript. The words are `urlencoded`, which no words at all mean too, `plain`, or
/// `multipart` and a boundary of 1 to 70 ASCII letters and digits.
///
/// Usage comes exactly where the words are others, and then nothing is read or written. The source is read to its end before
/// anything is written. Done: its bytes are a body, and its entries were written. Refused: they are none, and the one line
/// `refused` was written. ReadFault: a read failed, and the source's count of faults rose. TooLong: the source gave more than
/// 33,554,432 bytes. With both of these nothing was written.
///
/// WriteFault: a write failed, and the sink's count of faults rose. NoMemory: memory was refused. With both a front of what
/// was to be written was written.
pub fn read_run<S: Source, K: Sink>(
    alloc: Global,
    words: &Vec<String>,
    source: &mut S,
    sink: &mut K,
) -> ReadStatus
    ensures usage { (result ≡ ReadStatus.Usage) ↔ (asked (map (λ w. string_bytes w) words.now.items) ≡ None) }
    ensures untouched { result ≡ ReadStatus.Usage → (source.new ≡ source.old) × (sink.new ≡ sink.old) }
    ensures table { RunMeets (asked (map (λ w. string_bytes w) words.now.items)) result
        (S.left source.old) (S.left source.new) (K.held sink.old) (K.held sink.new) (S.ended source.new)
        (S.failed source.old) (S.failed source.new) (K.failed sink.old) (K.failed sink.new) }
    ensures later { (S.failed source.old ≤ S.failed source.new) × (K.failed sink.old ≤ K.failed sink.new) }

    // A fault that was counted is the status: a read that failed is not tried again, nor a failed write told as want of memory.
    ensures read_fault { S.failed source.old < S.failed source.new → result ≡ ReadStatus.ReadFault }
    ensures write_fault { K.failed sink.old < K.failed sink.new → result ≡ ReadStatus.WriteFault }

    // A body that ends within the limit is read whole, unless a count of faults rises or memory is refused.
    ensures complete { (body_type : BodyType) (bytes : List ℕ)
        → asked (map (λ w. string_bytes w) words.now.items) ≡ Some body_type → S.left source.old ≡ Some bytes → length bytes ≤ limit
        → ¬ Rose (S.failed source.old) (S.failed source.new) → ¬ Rose (K.failed sink.old) (K.failed sink.new)
        → RunsWhole body_type bytes result (K.held sink.old) (K.held sink.new) }
{
    match BodyType::of(alloc, words) {
        Err(NoMemory) => ReadStatus::NoMemory,
        Ok(None) => ReadStatus::Usage,
        Ok(Some(body_type)) => run_typed(alloc, &body_type, source, sink),
    }
}

// The same, of a body of this type.
fn run_typed<S: Source, K: Sink>(
    alloc: Global,
    body_type: &BodyType,
    source: &mut S,
    sink: &mut K,
) -> ReadStatus
    requires { IsReadable body_type.now }
    ensures table { RunMeets (Some body_type.now) result (S.left source.old) (S.left source.new) (K.held sink.old) (K.held sink.new)
        (S.ended source.new) (S.failed source.old) (S.failed source.new) (K.failed sink.old) (K.failed sink.new) }
    ensures later { (S.failed source.old ≤ S.failed source.new) × (K.failed sink.old ≤ K.failed sink.new) }
    ensures read_fault { S.failed source.old < S.failed source.new → result ≡ ReadStatus.ReadFault }
    ensures write_fault { K.failed sink.old < K.failed sink.new → result ≡ ReadStatus.WriteFault }
{
    match read_all(alloc, source, LIMIT) {
        Err(NoMemory) => ReadStatus::NoMemory,
        Ok(Read::Failed) => ReadStatus::ReadFault,
        Ok(Read::TooLong) => ReadStatus::TooLong,
        Ok(Read::Whole(bytes)) => answer(alloc, body_type, bytes.as_slice(), sink),
    }
}

// Reads the bytes as a body of this type, and writes what comes of it.
fn answer<K: Sink>(alloc: Global, body_type: &BodyType, bytes: &[u8], sink: &mut K) -> ReadStatus
    requires { IsReadable body_type.now }
    ensures meets { AnswerMeets body_type.now bytes.now result (K.held sink.old) (K.held sink.new) (K.failed sink.old) (K.failed sink.new) }
    ensures later { K.failed sink.old ≤ K.failed sink.new }
    ensures told { K.failed sink.old < K.failed sink.new → result ≡ ReadStatus.WriteFault }
{
    match read_body(alloc, body_type, bytes) {
        Ok(entries) => ReadStatus::Done.after(write_listing(alloc, entries.as_slice(), sink)),
        Err(BodyRefused::NotABody) => ReadStatus::Refused.after(write_refused(sink)),
        Err(BodyRefused::NoMemory) => ReadStatus::NoMemory,
    }
}

// The entry list whose body of this type the bytes are.
fn read_body(alloc: Global, body_type: &BodyType, bytes: &[u8]) -> Result<Entries, BodyRefused>
    requires { IsReadable body_type.now }
    ensures { Reads (λ (list : List Entry). IsBody body_type.now list bytes.now) result }
{
    match body_type {
        BodyType::Urlencoded => read_urlencoded(alloc, bytes),
        BodyType::Plain => read_plain(alloc, bytes),
        BodyType::Multipart(boundary) => read_multipart(alloc, bytes, boundary.as_str()),
    }
}

// Writes that the bytes are no body.
fn write_refused<K: Sink>(sink: &mut K) -> Result<(), Stop>
    ensures all { OnOk result (Appends (K.held sink.old) (K.held sink.new) refused_line) }
    ensures part { OnErr result (AppendsPart (K.held sink.old) (K.held sink.new) refused_line) }
    ensures later { K.failed sink.old ≤ K.failed sink.new }
    ensures cause { IsErrOf result Stop.WriteFault → Rose (K.failed sink.old) (K.failed sink.new) }
    ensures told { K.failed sink.old < K.failed sink.new → IsErrOf result Stop.WriteFault }
{
    write_all(sink, b"refused\n")
}
