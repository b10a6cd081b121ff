// Bodies that are read by whole runs.
use crate::script::{put_words, source_of};
use body_reader::{ReadStatus, read_run};
use ce_base::{MemSink, MemSource, Sink, Source, SureSink, SureSource};
use std::alloc::Global;
use std::process::Abort;
use std::test::Fail;

fn same_status(rt: &impl Abort, given: ReadStatus, want: ReadStatus) {
    assert_eq!(rt; given, want);
}

// Sees how a run of what a source gives ends, and what it writes.
fn ends(
    rt: &impl Abort,
    alloc: Global,
    words: &Vec<String>,
    source: &mut impl Source,
    status: ReadStatus,
    text: &str,
) {
    let mut sink = SureSink::make(alloc);
    same_status(rt, read_run(alloc, words, source, &mut sink), status);
    assert!(rt; sink.bytes() == text.as_bytes());
}

// Sees how a body is read.
fn reads(
    rt: &impl Abort,
    alloc: Global,
    words: &str,
    body: &str,
    status: ReadStatus,
    text: &str,
) -> Result<(), Fail> {
    let mut source = source_of(alloc, body.as_bytes(), 7)?;
    let mut list = Vec::new(alloc);
    put_words(alloc, &mut list, words)?;
    ends(rt, alloc, &list, &mut source, status, text);
    Ok(())
}

// Sees that a body is refused.
fn refuses(rt: &impl Abort, alloc: Global, words: &str, body: &str) -> Result<(), Fail> {
    reads(rt, alloc, words, body, ReadStatus::Refused, "refused\n")
}

// Sees that words are refused.
fn refuses_words(rt: &impl Abort, alloc: Global, words: &str) -> Result<(), Fail> {
    reads(rt, alloc, words, "a=1", ReadStatus::Usage, "")
}

const SENT: &str = "full+name=%C3%81na+Lee&pw=a%2Bb%3Dc&news=on&size=L%26XL&rating=4&go=Send";

const LISTED: &str = r#""full name" "Ána Lee"
"pw" "a+b=c"
"news" "on"
"size" "L&XL"
"rating" "4"
"go" "Send"
"#;

#[test]
fn urlencoded_bodies_are_read(rt: HostRuntime) -> Result<(), Fail> {
    reads(&rt, rt.alloc(), "", SENT, ReadStatus::Done, LISTED)?;
    reads(
        &rt,
        rt.alloc(),
        "urlencoded",
        SENT,
        ReadStatus::Done,
        LISTED,
    )?;
    reads(&rt, rt.alloc(), "urlencoded", "", ReadStatus::Done, "")
}

#[test]
fn what_is_not_urlencoded_is_refused(rt: HostRuntime) -> Result<(), Fail> {
    refuses(&rt, rt.alloc(), "urlencoded", "a=1&")?;
    refuses(&rt, rt.alloc(), "urlencoded", "a")?;
    refuses(&rt, rt.alloc(), "urlencoded", "a=%zz")?;
    refuses(&rt, rt.alloc(), "urlencoded", "a=%FF")
}

#[test]
fn plain_bodies_are_read(rt: HostRuntime) -> Result<(), Fail> {
    let listed = "\"a\" \"b=c\"\n";
    reads(
        &rt,
        rt.alloc(),
        "plain",
        "a=b=c\r\n",
        ReadStatus::Done,
        listed,
    )?;
    refuses(&rt, rt.alloc(), "plain", "a=1\n")
}

const PARTS: &str = "--XX\r\nContent-Disposition: form-data; name=\"a%22%0D%0A\"\r\n\r\np\r\nq\r\n\
    --XX\r\nContent-Disposition: form-data; name=\"u\"\r\n\r\n1\r\n\
    --XX\r\nContent-Disposition: form-data; name=\"v\"\r\n\r\n\r\n\
    --XX--\r\n";

const PARTS_LISTED: &str = r#""a%22%0D%0A" "p\r\nq"
"u" "1"
"v" ""
"#;

#[test]
fn multipart_bodies_are_read(rt: HostRuntime) -> Result<(), Fail> {
    reads(
        &rt,
        rt.alloc(),
        "multipart XX",
        PARTS,
        ReadStatus::Done,
        PARTS_LISTED,
    )?;
    refuses(&rt, rt.alloc(), "multipart XY", PARTS)
}

#[test]
fn other_words_are_refused(rt: HostRuntime) -> Result<(), Fail> {
    refuses_words(&rt, rt.alloc(), "multipart")?;
    refuses_words(&rt, rt.alloc(), "multipart X-X")?;
    refuses_words(&rt, rt.alloc(), "plain plain")
}

// Sees how a body of so many bytes ends.
fn feeds(
    rt: &impl Abort,
    alloc: Global,
    length: usize,
    status: ReadStatus,
    text: &str,
) -> Result<(), Fail> {
    let mut source = SureSource::make(vec![in alloc; 120u8; length]?, 65_536);
    let mut list = Vec::new(alloc);
    put_words(alloc, &mut list, "plain")?;
    ends(rt, alloc, &list, &mut source, status, text);
    Ok(())
}

#[test]
fn a_body_may_have_33_554_432_bytes(rt: HostRuntime) -> Result<(), Fail> {
    feeds(
        &rt,
        rt.alloc(),
        33_554_432,
        ReadStatus::Refused,
        "refused\n",
    )?;
    feeds(&rt, rt.alloc(), 33_554_433, ReadStatus::TooLong, "")
}

// The second read of a body fails.
#[test]
fn a_failing_read_ends_the_run(rt: HostRuntime) -> Result<(), Fail> {
    let alloc = rt.alloc();
    let body = b"a=1".to_vec(alloc)?;
    let mut source = MemSource::make(body, 2, vec![in alloc; 2]?);
    ends(
        &rt,
        alloc,
        &Vec::new(alloc),
        &mut source,
        ReadStatus::ReadFault,
        "",
    );
    Ok(())
}

// The first write fails.
#[test]
fn a_failing_write_ends_the_run(rt: HostRuntime) -> Result<(), Fail> {
    let alloc = rt.alloc();
    let mut source = source_of(alloc, b"a=1", 7)?;
    let mut sink = MemSink::make(alloc, vec![in alloc; 1]?);
    let status = read_run(alloc, &Vec::new(alloc), &mut source, &mut sink);
    same_status(&rt, status, ReadStatus::WriteFault);
    assert!(rt; sink.bytes().is_empty());
    Ok(())
}
