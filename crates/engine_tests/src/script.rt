// Scripts as texts: rows that begin with "> " are lines of the script, rows that begin with "< " lines of the
// transcript. A number before the sign says how many times they come, and `…` stands for a value of 4000 bytes.
use ce_base::{Sink, Source, SureSink, SureSource};
use page_runner::{Status, run};
use std::alloc::Global;
use std::process::Abort;
use std::test::Fail;

// What a row spells.
fn spelled(alloc: Global, row: &str) -> Result<String, Fail> {
    let value = "v".repeat(alloc, 4_000)?;
    Ok(row.replace(alloc, "…", value.as_str())?)
}

// Puts a line behind a text, so many times.
pub(crate) fn put_line(out: &mut String, line: &str, times: usize) -> Result<(), Fail> {
    for _ in 0..times {
        out.push_str(line)?;
        out.push('\n')?;
    }
    Ok(())
}

// Puts the rows of a text with this sign, spelled out, behind another.
fn put_rows(alloc: Global, out: &mut String, text: &str, sign: &str) -> Result<(), Fail> {
    for row in text.lines() {
        if let Some((times, row)) = row.split_once(sign) {
            let times = times.parse::<usize>().unwrap_or(1);
            put_line(out, spelled(alloc, row)?.as_str(), times)?;
        }
    }
    Ok(())
}

// The rows of a text with this sign, spelled out.
fn rows(alloc: Global, text: &str, sign: &str) -> Result<String, Fail> {
    let mut out = String::new(alloc);
    put_rows(alloc, &mut out, text, sign)?;
    Ok(out)
}

pub(crate) fn script_of(alloc: Global, text: &str) -> Result<String, Fail> {
    rows(alloc, text, "> ")
}

pub(crate) fn transcript_of(alloc: Global, text: &str) -> Result<String, Fail> {
    rows(alloc, text, "< ")
}

// How a run ended, and what it wrote.
#[derive(Drop)]
pub(crate) struct Ended {
    pub(crate) status: Status,
    pub(crate) text: String,
}

impl Ended {
    // Sees that it ended with this status and this transcript.
    pub(crate) fn is(&self, rt: &impl Abort, status: Status, transcript: &str) {
        same_status(rt, self.status, status);
        assert_eq!(rt; self.text.as_str(), transcript);
    }
}

pub(crate) fn same_status(rt: &impl Abort, given: Status, want: Status) {
    assert_eq!(rt; given, want);
}

// Runs what a source gives into a sink.
pub(crate) fn status_of(alloc: Global, source: &mut impl Source, sink: &mut impl Sink) -> Status {
    run(alloc, &Vec::new(alloc), source, sink)
}

// Runs what a source gives, with these words.
pub(crate) fn ran_by(
    alloc: Global,
    words: &Vec<String>,
    source: &mut impl Source,
) -> Result<Ended, Fail> {
    let mut sink = SureSink::make(alloc);
    let status = run(alloc, words, source, &mut sink);
    let text = String::from_utf8_lossy(alloc, sink.bytes())?;
    Ok(Ended { status, text })
}

// Runs what a source gives.
pub(crate) fn ran_from(alloc: Global, source: &mut impl Source) -> Result<Ended, Fail> {
    ran_by(alloc, &Vec::new(alloc), source)
}

// Puts words, which spaces part, into a list.
pub(crate) fn put_words(alloc: Global, list: &mut Vec<String>, words: &str) -> Result<(), Fail> {
    for word in words.split_whitespace() {
        list.push(String::from_str(alloc, word)?)?;
    }
    Ok(())
}

// A source that gives a script in pieces of at most `cut` bytes.
pub(crate) fn source_of(alloc: Global, script: &[u8], cut: usize) -> Result<SureSource, Fail> {
    Ok(SureSource::make(script.to_vec(alloc)?, cut.max(1)))
}

// Runs a script that is read in such pieces, with these words, which spaces part.
pub(crate) fn ran_with(
    alloc: Global,
    words: &str,
    script: &[u8],
    cut: usize,
) -> Result<Ended, Fail> {
    let mut source = source_of(alloc, script, cut)?;
    let mut list = Vec::new(alloc);
    put_words(alloc, &mut list, words)?;
    ran_by(alloc, &list, &mut source)
}

// Sees how a script that is read in such pieces ends, with these words, and what it writes.
pub(crate) fn ends(
    rt: &impl Abort,
    alloc: Global,
    words: &str,
    script: &[u8],
    cut: usize,
    status: Status,
    transcript: &str,
) -> Result<(), Fail> {
    ran_with(alloc, words, script, cut)?.is(rt, status, transcript);
    Ok(())
}

// Sees that a script has its transcript, with these words, in one piece and in pieces of one byte.
pub(crate) fn comes(rt: &impl Abort, alloc: Global, words: &str, text: &str) -> Result<(), Fail> {
    comes_in(rt, alloc, words, text, 1)?;
    comes_in(rt, alloc, words, text, 65_536)
}

// Sees that a script has its transcript, with these words, in pieces of at most `cut` bytes.
pub(crate) fn comes_in(
    rt: &impl Abort,
    alloc: Global,
    words: &str,
    text: &str,
    cut: usize,
) -> Result<(), Fail> {
    let script = script_of(alloc, text)?;
    let transcript = transcript_of(alloc, text)?;
    let (script, transcript) = (script.as_bytes(), transcript.as_str());
    ends(rt, alloc, words, script, cut, Status::Done, transcript)
}

// A class that logs its attribute's changes, its definition, an element, and a change to an equal value.
pub(crate) const FIRST: &str = r#"> class A
> observe A k
> on A attribute : log @1 @2 @3
> define x-a A
> create $e x-a
2> setattr $e k 1
< 4: ok
< construct A
< 5: #2
< call #2 attribute "k" null "1"
< log "k" "" "1"
< 6: ok
< call #2 attribute "k" "1" "1"
< log "k" "1" "1"
< 7: ok"#;
