// The lengths that a script and a line may have.
use crate::script::ends;
use page_runner::Status;
use std::alloc::Global;
use std::process::Abort;
use std::test::Fail;

// Sees how a script of so many empty lines ends.
fn feeds(rt: &impl Abort, alloc: Global, length: usize, status: Status) -> Result<(), Fail> {
    let script = "\n".repeat(alloc, length)?;
    ends(rt, alloc, "", script.as_bytes(), 65_536, status, "")
}

#[test]
fn a_script_may_have_16_777_216_bytes(rt: HostRuntime) -> Result<(), Fail> {
    feeds(&rt, rt.alloc(), 16_777_216, Status::Done)
}

#[test]
fn a_longer_script_is_too_long(rt: HostRuntime) -> Result<(), Fail> {
    feeds(&rt, rt.alloc(), 16_777_217, Status::TooLong)
}

// Sees how a comment of so many bytes ends, and a command behind it.
fn comments(
    rt: &impl Abort,
    alloc: Global,
    length: usize,
    status: Status,
    transcript: &str,
) -> Result<(), Fail> {
    let comment = "#".repeat(alloc, length)?;
    let script = format!(in alloc; "{comment}\ncreate $a p\n")?;
    ends(rt, alloc, "", script.as_bytes(), 65_536, status, transcript)
}

// A longer line is refused, and the next one runs.
#[test]
fn a_line_may_have_4096_bytes_and_no_more(rt: HostRuntime) -> Result<(), Fail> {
    let transcript = "1: bad long\n2: #2\n";
    comments(&rt, rt.alloc(), 4096, Status::Done, "2: #2\n")?;
    comments(&rt, rt.alloc(), 4097, Status::BadLines, transcript)?;
    comments(&rt, rt.alloc(), 65_536, Status::BadLines, transcript)?;
    comments(&rt, rt.alloc(), 100_000, Status::BadLines, transcript)
}
