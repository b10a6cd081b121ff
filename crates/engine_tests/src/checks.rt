// Traces that are checked by whole runs, and devices that fail.
use ce_base::{MemSink, MemSource};
use std::alloc::Global;
use std::process::Abort;
use std::test::Fail;
use trace_check::{CheckStatus, check_run};

// An upgrade up to the line of a callback, and its end, whole and without the end of that callback's reaction.
const UPGRADE: &str = r#"~ open 1
~ drain 1
~ close 1
1: #2
~ open 2
~ drain 2
~ close 2
2: ok
~ open 3
~ drain 3
~ close 3
3: #3
~ open 4
~ drain 4
~ close 4
4: ok
~ open 5
~ enq 1 #3 upgrade 5
~ drain 5
~ start 1
~ up #3
~ enq 2 #3 connected 0
construct A
~ done #3
~ finish 1
~ start 2
call #3 connected
"#;

const UPGRADE_ENDS: &str = r#"~ finish 2
~ close 5
~ drain 0
~ close 0
9: ok
"#;

const UPGRADE_ENDS_EARLY: &str = r#"~ close 5
~ drain 0
~ close 0
9: ok
"#;

// A source of a trace in pieces of seven bytes, of which a read may fail. No read has the number 0.
fn source_of(alloc: Global, trace: &str, fails: u64) -> Result<MemSource, Fail> {
    let reads = vec![in alloc; fails]?;
    Ok(MemSource::make(trace.as_bytes().to_vec(alloc)?, 7, reads))
}

// Checks what a source gives, where a write may fail, and sees how it ended and what was written.
fn sees(
    rt: &impl Abort,
    alloc: Global,
    source: &mut MemSource,
    fails: u64,
    status: CheckStatus,
    written: &str,
) -> Result<(), Fail> {
    let mut sink = MemSink::make(alloc, vec![in alloc; fails]?);
    let ended = check_run(alloc, &Vec::new(alloc), source, &mut sink);
    assert_eq!(rt; ended, status);
    assert!(rt; sink.bytes() == written.as_bytes());
    Ok(())
}

// Checks a trace, where a read and a write may fail, and sees how it ended and what was written.
fn ends(
    rt: &impl Abort,
    alloc: Global,
    trace: &str,
    fails: (u64, u64),
    status: CheckStatus,
    written: &str,
) -> Result<(), Fail> {
    let mut source = source_of(alloc, trace, fails.0)?;
    sees(rt, alloc, &mut source, fails.1, status, written)
}

// The same, where no call fails.
fn judges(
    rt: &impl Abort,
    alloc: Global,
    trace: &str,
    status: CheckStatus,
    written: &str,
) -> Result<(), Fail> {
    ends(rt, alloc, trace, (0, 0), status, written)
}

#[test]
fn lines_are_judged(rt: HostRuntime) -> Result<(), Fail> {
    let alloc = rt.alloc();
    judges(&rt, alloc, "", CheckStatus::Lawful, "lawful 0\n")?;
    let two = "~ open 1\n~ drain 1";
    judges(&rt, alloc, two, CheckStatus::Lawful, "lawful 2\n")?;
    judges(&rt, alloc, "fuel\n", CheckStatus::Lawful, "lawful 1\n")?;
    let (unlawful, first) = (CheckStatus::Unlawful, "unlawful 1\n");
    judges(&rt, alloc, "hello\n", unlawful, first)?;
    judges(&rt, alloc, "call #2 connected\n", unlawful, first)?;
    let second = "unlawful 2\n";
    judges(&rt, alloc, "fuel\n\n", unlawful, second)?;
    judges(&rt, alloc, "~ open 1\n~ open 3\n", unlawful, second)
}

#[test]
fn an_upgrade_is_judged(rt: HostRuntime) -> Result<(), Fail> {
    let alloc = rt.alloc();
    let whole = format!(in alloc; "{UPGRADE}{UPGRADE_ENDS}")?;
    let cut = format!(in alloc; "{UPGRADE}{UPGRADE_ENDS_EARLY}")?;
    let (lawful, unlawful) = (CheckStatus::Lawful, CheckStatus::Unlawful);
    judges(&rt, alloc, whole.as_str(), lawful, "lawful 32\n")?;
    judges(&rt, alloc, cut.as_str(), unlawful, "unlawful 28\n")
}

#[test]
fn a_device_that_fails_is_told(rt: HostRuntime) -> Result<(), Fail> {
    let alloc = rt.alloc();
    ends(&rt, alloc, UPGRADE, (3, 0), CheckStatus::ReadFault, "")?;
    ends(&rt, alloc, UPGRADE, (0, 1), CheckStatus::WriteFault, "")
}
