// Devices that fail, and one that takes little.
use crate::script::{FIRST, ran_from, same_status, script_of, source_of, status_of, transcript_of};
use ce_base::{Gathering, MemSink, MemSource, Pending, Sink, Source, StdSink, Stop, write_all};
use page_runner::Status;
use std::alloc::Global;
use std::io;
use std::io::Write;
use std::process::Abort;
use std::test::Fail;

// A source that gives a script in pieces of at most `cut` bytes, and whose read with this number fails.
pub(crate) fn failing_source(
    alloc: Global,
    script: &str,
    cut: usize,
    read: u64,
) -> Result<MemSource, Fail> {
    let script = script.as_bytes().to_vec(alloc)?;
    Ok(MemSource::make(script, cut.max(1), vec![in alloc; read]?))
}

// Sees what the first script writes where a read fails.
fn reads(
    rt: &impl Abort,
    alloc: Global,
    cut: usize,
    read: u64,
    transcript: &str,
) -> Result<(), Fail> {
    let script = script_of(alloc, FIRST)?;
    let mut source = failing_source(alloc, script.as_str(), cut, read)?;
    ran_from(alloc, &mut source)?.is(rt, Status::ReadFault, transcript);
    Ok(())
}

// The third read, with no line before it that is answered, and the read behind the script.
#[test]
fn a_failing_read_ends_the_run(rt: HostRuntime) -> Result<(), Fail> {
    let transcript = transcript_of(rt.alloc(), FIRST)?;
    reads(&rt, rt.alloc(), 16, 3, "")?;
    reads(&rt, rt.alloc(), 4096, 2, transcript.as_str())
}

// The first two reads give more commands than there is fuel, and the third one fails.
#[test]
fn lines_are_run_before_the_source_is_asked_again(rt: HostRuntime) -> Result<(), Fail> {
    let alloc = rt.alloc();
    let script = script_of(alloc, "10001> create $a p")?;
    let mut source = failing_source(alloc, script.as_str(), 65_000, 3)?;
    same_status(&rt, ran_from(alloc, &mut source)?.status, Status::Fuel);
    assert!(rt; source.faults() == 0);
    Ok(())
}

// Sees how a script ends where the write with this number fails, and that so much of its transcript was
// written.
fn writes(
    rt: &impl Abort,
    alloc: Global,
    text: &str,
    write: u64,
    status: Status,
    most: usize,
) -> Result<(), Fail> {
    let transcript = transcript_of(alloc, text)?;
    let mut sink = MemSink::make(alloc, vec![in alloc; write]?);
    same_status(rt, status_into(alloc, text, &mut sink)?, status);
    let transcript = transcript.as_bytes();
    assert!(rt; sink.bytes() == &transcript[..transcript.len().min(most)]);
    Ok(())
}

// Runs a script, in one piece, into a sink.
pub(crate) fn status_into(alloc: Global, text: &str, sink: &mut impl Sink) -> Result<Status, Fail> {
    let script = script_of(alloc, text)?;
    let mut source = source_of(alloc, script.as_bytes(), 100_000)?;
    Ok(status_of(alloc, &mut source, sink))
}

// The last command writes a value of 4000 bytes 21 times.
const MUCH: &str = r#"> class A
> observe A k
20> on A attribute : log @3
> define x-a A
> create $e x-a
> setattr $e k …
< 23: ok
< construct A
< 24: #2
< call #2 attribute "k" null "…"
20< log "…"
< 25: ok"#;

// What comes before a failing write was passed on, also within a command.
#[test]
fn a_failing_write_ends_the_run(rt: HostRuntime) -> Result<(), Fail> {
    writes(&rt, rt.alloc(), FIRST, 1, Status::WriteFault, 0)?;
    writes(&rt, rt.alloc(), MUCH, 1, Status::WriteFault, 0)?;
    writes(&rt, rt.alloc(), MUCH, 2, Status::WriteFault, 65_536)?;
    writes(&rt, rt.alloc(), MUCH, 3, Status::Done, 100_000)
}

// The sink that gathers answers takes as much as it may hold, and the next bytes want the sink below.
#[test]
fn a_first_write_that_fails_below_is_a_write_fault(rt: HostRuntime) -> Result<(), Fail> {
    let alloc = rt.alloc();
    let bytes = "v".repeat(alloc, 65_537)?;
    let mut sink = MemSink::make(alloc, vec![in alloc; 1]?);
    fails_below(&rt, alloc, &mut sink, bytes.as_bytes());
    assert!(rt; sink.faults() == 1 && sink.bytes().is_empty());
    Ok(())
}

// Sees that bytes are gathered as far as they may be, and that the sink below fails then.
fn fails_below(rt: &impl Abort, alloc: Global, sink: &mut MemSink, bytes: &[u8]) {
    let mut pending = Pending::make(alloc);
    let mut out = Gathering::make(sink, &mut pending);
    let wrote = write_all(&mut out, bytes);
    assert!(rt; matches!(wrote, Err(Stop::WriteFault)));
    assert!(rt; pending.as_slice().len() == 65_536);
}

// A writer that takes three bytes a call, and fails at the call with this number.
#[derive(Drop)]
struct Pipe {
    taken: Vec<u8>,
    calls: u64,
    fails: u64,
}

impl Write for Pipe {
    fn write(&mut self, buf: &[u8]) -> io::Result<usize> {
        self.calls = self.calls.saturating_add(1);
        if self.calls == self.fails {
            return Err(io::Error::from(io::ErrorKind::Other));
        }
        let few = &buf[..buf.len().min(3)];
        self.taken.extend_from_slice(few)?;
        Ok(few.len())
    }

    fn flush(&mut self) -> io::Result<()> {
        Ok(())
    }
}

// Runs the first script over a pipe, and says how it ended and how many faults its sink counted.
fn ran_over(alloc: Global, pipe: &mut Pipe) -> Result<(Status, u64), Fail> {
    let mut sink = StdSink::make(pipe);
    let status = status_into(alloc, FIRST, &mut sink)?;
    Ok((status, sink.faults()))
}

// Sees how the first script ends over a pipe that fails at the call with this number, how many faults the
// sink counts, and what the pipe took.
fn pipes(
    rt: &impl Abort,
    alloc: Global,
    fails: u64,
    ended: (Status, u64),
    taken: &str,
) -> Result<(), Fail> {
    let mut pipe = Pipe {
        taken: Vec::new(alloc),
        calls: 0,
        fails,
    };
    let (status, faults) = ran_over(alloc, &mut pipe)?;
    same_status(rt, status, ended.0);
    assert!(rt; faults == ended.1);
    assert!(rt; pipe.taken.as_slice() == taken.as_bytes());
    Ok(())
}

#[test]
fn a_writer_may_take_a_few_bytes_at_a_time_and_fail(rt: HostRuntime) -> Result<(), Fail> {
    let transcript = transcript_of(rt.alloc(), FIRST)?;
    pipes(&rt, rt.alloc(), 0, (Status::Done, 0), transcript.as_str())?;
    pipes(&rt, rt.alloc(), 1, (Status::WriteFault, 1), "")?;
    pipes(&rt, rt.alloc(), 4, (Status::WriteFault, 1), "4: ok\ncon")
}
