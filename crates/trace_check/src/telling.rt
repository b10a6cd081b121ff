// A verdict as a line.
ghost use Rattle.std.specs.Prelude.{◌≡◌, ◌≤◌, ◌<◌, ◌++◌, ◌∷◌, [], codes, IfOk, IsErrOf};
ghost use Rattle.std.specs.Fmt.{decimal};
ghost use Rattle.ce_algorithms.specs.Lines.{lines_of};
ghost use Rattle.trace_check.specs.Told.{TellsVerdict, line_of};

use crate::{Verdict, check};
use ce_base::{NoMemory, Sink, Stop, Text, write_all};
use std::alloc::Global;
use std::fmt::Write;

// A word, a number, and a line feed.
fn numbered(alloc: Global, word: &str, number: u64) -> Result<Text, NoMemory>
    ensures { IfOk result (λ line. line ≡ word.now ++ decimal number ++ 10 ∷ []) }
{
    let mut line = String::new(alloc);
    line.push_str(word)?;
    write!(line, "{number}\n")?;
    Ok(Text::from(line))
}

// The line of a verdict.
fn line_of(alloc: Global, verdict: Verdict) -> Result<Text, NoMemory>
    ensures { IfOk result (λ line. line ≡ line_of verdict) }
{
    match verdict {
        Verdict::Yes(count) => numbered(alloc, "lawful ", count),
        Verdict::No(number) => numbered(alloc, "unlawful ", number),
    }
}

// Checks the bytes, and writes the line of the verdict.
pub(crate) fn tell_verdict<K: Sink>(
    alloc: Global,
    bytes: &[u8],
    sink: &mut K,
) -> Result<Verdict, Stop>
    ensures tells { TellsVerdict (lines_of bytes.now) result (K.held sink.old) (K.held sink.new) (K.failed sink.old) (K.failed sink.new) }
    ensures later { K.failed sink.old ≤ K.failed sink.new }
    ensures told { K.failed sink.old < K.failed sink.new → IsErrOf result Stop.WriteFault }
{
    let verdict = check(alloc, bytes)?;
    let line = line_of(alloc, verdict)?;
    write_all(sink, line.as_str().as_bytes())?;
    Ok(verdict)
}
