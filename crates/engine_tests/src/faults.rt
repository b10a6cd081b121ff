// Reads and writes that fail, each in its turn, sources without end, callbacks within callbacks, and a deep chain of elements.
use crate::devices::{failing_source, status_into};
use crate::script::{
    ends, put_line, put_words, ran_by, ran_from, same_status, script_of, transcript_of,
};
use crate::worked::forms::SUBMITTED;
use ce_base::{EndlessSource, MemSource, ShortSink, Source};
use page_runner::Status;
use std::alloc::Global;
use std::process::Abort;
use std::test::Fail;

// The front of a transcript that the first so many lines of the script have written: it ends with a line that begins
// with the number of one of them.
fn front_of(alloc: Global, transcript: &str, lines: u64) -> Result<String, Fail> {
    let mut out = String::new(alloc);
    let mut pending = String::new(alloc);
    for row in transcript.lines() {
        pending.push_str(row)?;
        pending.push_str("\n")?;
        let Some((number, _)) = row.split_once(": ") else {
            continue;
        };
        let Ok(number) = number.parse::<u64>() else {
            continue;
        };
        if number <= lines {
            out.push_str(pending.as_str())?;
        }
        pending.clear();
    }
    Ok(out)
}

// How many lines end within these bytes.
fn lines_in(bytes: &[u8]) -> u64 {
    let mut count = 0_u64;
    for byte in bytes {
        if *byte == b'\n' {
            count = count.saturating_add(1);
        }
    }
    count
}

// Sees what is written where the script comes in pieces of 64 bytes, and this read fails.
fn stops_at_read(rt: &impl Abort, alloc: Global, read: usize) -> Result<(), Fail> {
    let script = script_of(alloc, SUBMITTED)?;
    let taken = read.saturating_sub(1).saturating_mul(64).min(script.len());
    let front = front(alloc, lines_in(&script.as_bytes()[..taken]))?;
    let mut source = failing_source(alloc, script.as_str(), 64, read as u64)?;
    ran_from(alloc, &mut source)?.is(rt, Status::ReadFault, front.as_str());
    Ok(())
}

// The front of the transcript that the first so many lines have written.
fn front(alloc: Global, lines: u64) -> Result<String, Fail> {
    let transcript = transcript_of(alloc, SUBMITTED)?;
    front_of(alloc, transcript.as_str(), lines)
}

// The last read of all is the one that gives the end.
#[test]
fn each_read_may_fail(rt: HostRuntime) -> Result<(), Fail> {
    let alloc = rt.alloc();
    let reads = script_of(alloc, SUBMITTED)?.len().div_ceil(64);
    for read in 0..reads {
        stops_at_read(&rt, alloc, read + 1)?;
    }
    stops_at_read(&rt, alloc, reads.saturating_add(1))
}

// No read comes behind the one that gives the end.
#[test]
fn a_read_beyond_the_end_is_not_made(rt: HostRuntime) -> Result<(), Fail> {
    let alloc = rt.alloc();
    let script = script_of(alloc, SUBMITTED)?;
    let transcript = transcript_of(alloc, SUBMITTED)?;
    let beyond = (script.len() as u64).saturating_add(2);
    let mut source = failing_source(alloc, script.as_str(), 1, beyond)?;
    ran_from(alloc, &mut source)?.is(&rt, Status::Done, transcript.as_str());
    Ok(())
}

// A sink that takes seven bytes a call, and whose write with this number fails.
fn short_sink(alloc: Global, write: u64) -> Result<ShortSink, Fail> {
    Ok(ShortSink::make(7, vec![in alloc; write]?))
}

// Sees that what the writes before this one took is written, and no more, and that it is a front of the transcript.
fn stops_at_write(
    rt: &impl Abort,
    alloc: Global,
    transcript: &str,
    write: usize,
) -> Result<(), Fail> {
    let mut sink = short_sink(alloc, write as u64)?;
    let status = status_into(alloc, SUBMITTED, &mut sink)?;
    same_status(rt, status, Status::WriteFault);
    assert!(rt; sink.bytes().len() == write.saturating_sub(1).saturating_mul(7));
    assert!(rt; transcript.as_bytes().starts_with(sink.bytes()));
    Ok(())
}

// Sees that all of it is written where the write with this number is not made.
fn goes_on_to_the_end(
    rt: &impl Abort,
    alloc: Global,
    transcript: &str,
    write: usize,
) -> Result<(), Fail> {
    let mut sink = short_sink(alloc, write as u64)?;
    let status = status_into(alloc, SUBMITTED, &mut sink)?;
    same_status(rt, status, Status::Done);
    assert!(rt; sink.bytes() == transcript.as_bytes());
    Ok(())
}

#[test]
fn each_write_may_fail(rt: HostRuntime) -> Result<(), Fail> {
    let alloc = rt.alloc();
    let transcript = transcript_of(alloc, SUBMITTED)?;
    let writes = transcript.len().div_ceil(7);
    for write in 0..writes {
        stops_at_write(&rt, alloc, transcript.as_str(), write + 1)?;
    }
    goes_on_to_the_end(&rt, alloc, transcript.as_str(), writes.saturating_add(1))
}

// A source of one line, whose second read fails.
fn one_line(alloc: Global) -> Result<MemSource, Fail> {
    let script = b"create $a div\n".to_vec(alloc)?;
    let fails = vec![in alloc; 2]?;
    Ok(MemSource::make(script, 65_536, fails))
}

// The script comes in one read, and the second one fails.
#[test]
fn fuel_ends_before_the_source_is_asked_again(rt: HostRuntime) -> Result<(), Fail> {
    let alloc = rt.alloc();
    let mut words = Vec::new(alloc);
    put_words(alloc, &mut words, "--fuel=1")?;
    let mut source = one_line(alloc)?;
    ran_by(alloc, &words, &mut source)?.is(&rt, Status::Fuel, "fuel\n");
    assert!(rt; source.faults() == 0);
    Ok(())
}

#[test]
fn a_source_without_end_is_too_long(rt: HostRuntime) -> Result<(), Fail> {
    let alloc = rt.alloc();
    ran_from(alloc, &mut EndlessSource::make(b'x'))?.is(&rt, Status::TooLong, "");
    ran_from(alloc, &mut EndlessSource::make(b'\n'))?.is(&rt, Status::TooLong, "");
    Ok(())
}

// A callback that sets the attribute that it is called for.
const ENDLESS: &str = r#"> class A
> observe A k
> on A attribute : setattr this k 1
> define x-a A
> create $e x-a
> setattr $e k 1
< 4: ok
< construct A
< 5: #2
< call #2 attribute "k" null "1""#;

// Sees that with so much fuel so many more calls come, all of which wait for the one within.
fn calls(rt: &impl Abort, alloc: Global, words: &str, more: usize) -> Result<(), Fail> {
    let script = script_of(alloc, ENDLESS)?;
    let mut transcript = transcript_of(alloc, ENDLESS)?;
    put_line(&mut transcript, "call #2 attribute \"k\" \"1\" \"1\"", more)?;
    put_line(&mut transcript, "fuel", 1)?;
    let (script, transcript) = (script.as_bytes(), transcript.as_str());
    ends(rt, alloc, words, script, 65_536, Status::Fuel, transcript)
}

#[test]
fn a_callback_that_calls_itself_ends_with_the_fuel(rt: HostRuntime) -> Result<(), Fail> {
    calls(&rt, rt.alloc(), "--fuel 20", 7)?;
    calls(&rt, rt.alloc(), "--fuel 200000", 99_997)
}

fn put_chain(alloc: Global, out: &mut String) -> Result<(), Fail> {
    out.push_str("create $n0 div\nappend doc $n0\n")?;
    for i in 1..10_000_u64 {
        let before = i - 1;
        let lines = format!(in alloc; "create $n{i} div\nappend $n{before} $n{i}\n")?;
        out.push_str(lines.as_str())?;
    }
    out.push_str("clone $copy $n0 deep\ndetach $n0\n")?;
    Ok(())
}

fn put_replies(alloc: Global, out: &mut String) -> Result<(), Fail> {
    for i in 0..10_000_u64 {
        let (made, appended, node) = (2 * i + 1, 2 * i + 2, i + 2);
        let lines = format!(in alloc; "{made}: #{node}\n{appended}: ok\n")?;
        out.push_str(lines.as_str())?;
    }
    out.push_str("20001: #10002\n20002: ok\n")?;
    Ok(())
}

// A chain of 10,000 elements, one in the other, is cloned with all below it, and then detached.
#[test]
fn a_deep_chain_is_cloned_and_detached(rt: HostRuntime) -> Result<(), Fail> {
    let alloc = rt.alloc();
    let mut script = String::new(alloc);
    put_chain(alloc, &mut script)?;
    let mut wanted = String::new(alloc);
    put_replies(alloc, &mut wanted)?;
    let (script, wanted) = (script.as_bytes(), wanted.as_str());
    ends(
        &rt,
        alloc,
        "--fuel 60000",
        script,
        65_536,
        Status::Done,
        wanted,
    )
}
