// Lines of a transcript, read as events and written again.
mod tables;

use ce_base::{NoMemory, NodeNo, Text};
use ce_lines::{Event, EventRefused, read_event, write_event};
use std::alloc::Global;
use std::process::Abort;
use std::test::Fail;
use tables::*;

fn line_of(alloc: Global, e: Event) -> Result<Text, NoMemory> {
    let line = write_event(alloc, &e);
    drop(e);
    line
}

// Compares a line with that of the event that it is read as.
fn see(rt: &impl Abort, alloc: Global, line: &str) -> Result<(), Fail> {
    let e = read_event(alloc, line.as_bytes())?;
    let again = line_of(alloc, e)?;
    assert_eq!(rt; again.as_str(), line);
    Ok(())
}

fn see_lines(rt: &impl Abort, alloc: Global, rows: &str) -> Result<(), Fail> {
    for line in rows.lines() {
        see(rt, alloc, line)?;
    }
    Ok(())
}

#[test]
fn each_line_of_a_transcript_is_read(rt: HostRuntime) -> Result<(), Fail> {
    see_lines(&rt, rt.alloc(), LINES)?;
    see_lines(&rt, rt.alloc(), TRACED)?;
    for line in ODD.split('|') {
        see(&rt, rt.alloc(), line)?;
    }
    Ok(())
}

#[test]
fn a_node_is_a_reply_that_gives_it(rt: HostRuntime) -> Result<(), Fail> {
    let e = read_event(rt.alloc(), b"3: #7")?;
    let gives = matches!(&e, Event::Gave(3, NodeNo(7)));
    drop(e);
    assert!(rt; gives);
    Ok(())
}

// Why the bytes are not read.
fn refusal(alloc: Global, bytes: &[u8]) -> Option<EventRefused> {
    match read_event(alloc, bytes) {
        Ok(e) => {
            drop(e);
            None
        }
        Err(refused) => Some(refused),
    }
}

fn refuse(rt: &impl Abort, alloc: Global, bytes: &[u8]) {
    let refused = refusal(alloc, bytes);
    assert_eq!(rt; refused, Some(EventRefused::NotAnEvent), "at {bytes:?}");
}

#[test]
fn what_is_no_line_is_refused(rt: HostRuntime) {
    for row in REFUSED.split('|') {
        refuse(&rt, rt.alloc(), row.as_bytes());
    }
    refuse(&rt, rt.alloc(), b"construct \xff");
    refuse(&rt, rt.alloc(), b"log \"\xc3\"");
}
