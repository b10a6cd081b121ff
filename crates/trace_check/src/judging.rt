// A trace checked against the law of order, line by line.
ghost use Rattle.std.specs.Prelude.{◌≡◌, ◌∷◌, ◌<◌, ◌≤◌, ℕ, length, Err, Ok, IfOk};
ghost use Rattle.ce_algorithms.specs.Lines.{lines_of};
ghost use Rattle.trace_check.specs.Next.{IsAfterEvent, IsAfterLine};
ghost use Rattle.trace_check.specs.Traces.{AreLawful};
ghost use Rattle.trace_check.specs.Verdict.{BreaksAt, IsVerdict};

use crate::Verdict;
use crate::laws::each_trace_has_one_verdict;
use ce_base::NoMemory;
use ce_events::Event;
use ce_lines::{EventRefused, read_event};
use event_reader::texts_tell_steps;
use order_checker::Checker;
use std::alloc::Global;

// The first line, without its line feed, and what stands behind it.
fn cut(bytes: &[u8]) -> (&[u8], &[u8])
    requires { 0 < length bytes.now }
    ensures lines { lines_of bytes.now ≡ result.0.now ∷ lines_of result.1.now }
    ensures shorter { length result.1.now < length bytes.now }
{
    for (i, b) in bytes.iter().enumerate() {
        if *b == b'\n' {
            return (&bytes[..i], &bytes[i + 1..]);
        }
    }
    (bytes, &[])
}

// The book after an event, where it may come.
fn after_event(book: Checker, e: &Event) -> Result<Option<Checker>, NoMemory>
    ensures { IfOk result (λ next. IsAfterEvent book e.now next) }
{
    if !book.may_come(e) {
        drop(book);
        return Ok(None);
    }
    match book.read(e) {
        Ok(next) => Ok(Some(next)),
        Err(NoMemory) => Err(NoMemory),
    }
}

// The book after the event of a line, where it is the line of one that may come.
fn after_line(alloc: Global, book: Checker, line: &[u8]) -> Result<Option<Checker>, NoMemory>
    ensures { IfOk result (λ next. IsAfterLine book line.now next) }
{
    texts_tell_steps();
    match read_event(alloc, line) {
        Ok(e) => after_event(book, &e),
        Err(EventRefused::NotAnEvent) => {
            drop(book);
            Ok(None)
        }
        Err(EventRefused::NoMemory) => {
            drop(book);
            Err(NoMemory)
        }
    }
}

// Checks the lines in one pass.
fn verdict_of(alloc: Global, bytes: &[u8]) -> Result<Verdict, NoMemory>
    ensures { IfOk result (λ v. IsVerdict v (lines_of bytes.now)) }
{
    texts_tell_steps();
    let mut book = Checker::make(alloc);
    let mut count: u64 = 0;
    let mut rest = bytes;
    while !rest.is_empty() {
        let (line, behind) = cut(rest);
        match after_line(alloc, book, line)? {
            None => return Ok(Verdict::No(count + 1)),
            Some(next) => book = next,
        }
        count += 1;
        rest = behind;
    }
    drop(book);
    Ok(Verdict::Yes(count))
}

/// Checks a trace against the law of order, in one pass. Its lines are cut at each line feed, and may be of any length; a
/// last line without a line feed counts where it is not empty. NoMemory: memory was refused.
pub fn check(alloc: Global, bytes: &[u8]) -> Result<Verdict, NoMemory>
    ensures says { IfOk result (λ v. IsVerdict v (lines_of bytes.now)) }

    // Each answer comes exactly where what it says holds.
    ensures yes { AreLawful (lines_of bytes.now) → IfOk result (λ v. v ≡ Verdict.Yes (length (lines_of bytes.now))) }
    ensures no { (n : ℕ) → BreaksAt n (lines_of bytes.now) → IfOk result (λ v. v ≡ Verdict.No n) }
{
    each_trace_has_one_verdict();
    verdict_of(alloc, bytes)
}
