// A whole check, from the words and the source to the sink and a status.
ghost use Rattle.std.specs.Prelude.{◌≡◌, ◌↔◌, ◌≤◌, ◌<◌, length, vec_len, Some, List, ℕ};
ghost use Rattle.ce_base.specs.Faults.{Rose};
ghost use Rattle.trace_check.specs.Table.{CheckMeets, ChecksWhole, limit};

use crate::CheckStatus;
use crate::telling::tell_verdict;
use ce_base::{NoMemory, Read, Sink, Source, read_all};
use std::alloc::Global;

// How many bytes a trace may have.
const LIMIT: usize = 67_108_864;

/// Checks the trace that the source gives against the law of order, and writes the verdict to the sink: `lawful` and how
/// many lines there are, or `unlawful` and the number of the first line with which they are those of no lawful log. The
/// source is read to its end first.
///
/// Usage comes exactly where there is any word, and then nothing is read or written. Lawful and Unlawful: the source gave
/// its end within 67,108,864 bytes, and the verdict was written whole. ReadFault: a read failed, and the source's count of
/// faults rose. TooLong: the source gave more bytes. With both nothing was written. WriteFault: a write failed, and the
/// sink's count of faults rose. NoMemory: memory was refused. With both a front of the verdict was written, or nothing.
pub fn check_run<S: Source, K: Sink>(
    alloc: Global,
    words: &Vec<String>,
    source: &mut S,
    sink: &mut K,
) -> CheckStatus
    ensures usage { (result ≡ CheckStatus.Usage) ↔ (0 < vec_len words.now) }
    ensures untouched { result ≡ CheckStatus.Usage → (source.new ≡ source.old) × (sink.new ≡ sink.old) }
    ensures table { CheckMeets result (S.left source.old) (S.left source.new) (K.held sink.old) (K.held sink.new)
        (S.ended source.new) (S.failed source.old) (S.failed source.new) (K.failed sink.old) (K.failed sink.new) }
    ensures later { (S.failed source.old ≤ S.failed source.new) × (K.failed sink.old ≤ K.failed sink.new) }

    // A fault that was counted is the status: a read that failed is not tried again, nor a failed write told as want of memory.
    ensures read_fault { S.failed source.old < S.failed source.new → result ≡ CheckStatus.ReadFault }
    ensures write_fault { K.failed sink.old < K.failed sink.new → result ≡ CheckStatus.WriteFault }

    // A trace that ends within the limit is judged, unless a count of faults rises or memory is refused.
    ensures complete { (trace : List ℕ) → vec_len words.now ≡ 0 → S.left source.old ≡ Some trace → length trace ≤ limit
        → ¬ Rose (S.failed source.old) (S.failed source.new) → ¬ Rose (K.failed sink.old) (K.failed sink.new)
        → ChecksWhole trace result (K.held sink.old) (K.held sink.new) }
{
    if !words.is_empty() {
        return CheckStatus::Usage;
    }
    match read_all(alloc, source, LIMIT) {
        Err(NoMemory) => CheckStatus::NoMemory,
        Ok(Read::Failed) => CheckStatus::ReadFault,
        Ok(Read::TooLong) => CheckStatus::TooLong,
        Ok(Read::Whole(bytes)) => CheckStatus::of(tell_verdict(alloc, bytes.as_slice(), sink)),
    }
}
