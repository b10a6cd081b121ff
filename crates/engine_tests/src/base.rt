// Lists, and what comes of readers and writers of std that give or take nothing.
use crate::rows::same;
use ce_base::*;
use std::alloc::Global;
use std::io;
use std::io::{Read, Write};
use std::process::Abort;
use std::test::Fail;

// A reader whose reads all fail.
#[derive(Drop)]
struct Broken;

impl Read for Broken {
    fn read(&mut self, _: &mut [u8]) -> io::Result<usize> {
        Err(io::ErrorKind::Other.into())
    }
}

// A writer that takes no byte, and no error either.
#[derive(Drop)]
struct Full;

impl Write for Full {
    fn write(&mut self, _: &[u8]) -> io::Result<usize> {
        Ok(0)
    }

    fn flush(&mut self) -> io::Result<()> {
        Ok(())
    }
}

fn one_entry(alloc: Global) -> Result<Entry, Fail> {
    let name = Text::of(alloc, "city")?;
    let value = Text::of(alloc, "Lyon")?;
    Ok(Entry { name, value })
}

// The value of an entry of a list. Empty where there is none.
fn value_at(entries: &Entries, i: usize) -> &str {
    match entries.get(i) {
        None => "",
        Some(entry) => entry.value.as_str(),
    }
}

// The name of an entry of a list. Empty where there is none.
fn name_at(entries: &Entries, i: usize) -> &str {
    match entries.get(i) {
        None => "",
        Some(entry) => entry.name.as_str(),
    }
}

fn put_entry(alloc: Global, entries: &mut Entries) -> Result<(), Fail> {
    entries.push(alloc, one_entry(alloc)?)?;
    Ok(())
}

#[test]
fn entries_are_kept(rt: HostRuntime) -> Result<(), Fail> {
    let mut entries = Entries::make(rt.alloc());
    put_entry(rt.alloc(), &mut entries)?;
    assert!(rt; entries.len() == 1);
    assert!(rt; value_at(&entries, 0) == "Lyon");
    Ok(())
}

// A text of a list. Empty where there is none.
fn text_at(texts: &Texts, i: usize) -> &str {
    match texts.get(i) {
        None => "",
        Some(text) => text.as_str(),
    }
}

fn put_text(alloc: Global, texts: &mut Texts, text: &str) -> Result<(), Fail> {
    texts.push(alloc, Text::of(alloc, text)?)?;
    Ok(())
}

#[test]
fn texts_are_kept(rt: HostRuntime) -> Result<(), Fail> {
    let mut texts = Texts::make(rt.alloc());
    put_text(rt.alloc(), &mut texts, "déjà")?;
    assert!(rt; texts.len() == 1);
    assert!(rt; text_at(&texts, 0) == "déjà");
    Ok(())
}

fn put_nodes(alloc: Global, nodes: &mut Nodes) -> Result<(), Fail> {
    nodes.push(alloc, NodeNo(7))?;
    nodes.push(alloc, NodeNo(1))?;
    Ok(())
}

fn see_nodes(rt: &impl Abort, nodes: &Nodes) {
    assert!(rt; nodes.len() == 2);
    assert!(rt;
        matches!(
            (nodes.get(0), nodes.get(1)),
            (Some(NodeNo(7)), Some(NodeNo(1)))
        )
    );
}

#[test]
fn nodes_are_copied(rt: HostRuntime) -> Result<(), Fail> {
    let alloc = rt.alloc();
    let mut nodes = Nodes::make(alloc);
    put_nodes(alloc, &mut nodes)?;
    see_nodes(&rt, &nodes.copy(alloc)?);
    Ok(())
}

fn put_copy(alloc: Global, entries: &mut Entries) -> Result<(), Fail> {
    let entry = one_entry(alloc)?;
    entries.push(alloc, entry.copy(alloc)?)?;
    Ok(())
}

// Sees an entry behind another in a list.
fn see_second(rt: &impl Abort, entries: &Entries) {
    assert!(rt; entries.len() == 2);
    assert!(rt; name_at(entries, 1) == "city" && value_at(entries, 1) == "Lyon");
}

#[test]
fn entries_are_copied(rt: HostRuntime) -> Result<(), Fail> {
    let alloc = rt.alloc();
    let mut entries = Entries::make(alloc);
    put_entry(alloc, &mut entries)?;
    put_copy(alloc, &mut entries)?;
    see_second(&rt, &entries);
    see_second(&rt, &entries.copy(alloc)?);
    Ok(())
}

// Sees two texts in a list.
fn see_texts(rt: &impl Abort, texts: &Texts) {
    assert!(rt; texts.len() == 2);
    assert!(rt; text_at(texts, 0) == "déjà" && text_at(texts, 1) == "vu");
}

#[test]
fn texts_are_copied(rt: HostRuntime) -> Result<(), Fail> {
    let alloc = rt.alloc();
    let mut texts = Texts::make(alloc);
    put_text(alloc, &mut texts, "déjà")?;
    put_text(alloc, &mut texts, "vu")?;
    see_texts(&rt, &texts.copy(alloc)?);
    Ok(())
}

fn end_word(end: Result<(), Stop>) -> &'static str {
    match end {
        Ok(()) => "ok",
        Err(Stop::WriteFault) => "fault",
        Err(Stop::NoMemory) => "no memory",
    }
}

fn put_word(put: Put) -> &'static str {
    match put {
        Put::Took(_) => "ok",
        Put::Failed => "fault",
        Put::NoMemory => "no memory",
    }
}

// What a read gave, how many faults there were, and the bytes of the buffer then.
fn told<S: Source>(alloc: Global, source: &mut S, buf: &mut [u8]) -> Result<String, Fail> {
    let got = source.read(buf);
    let bytes = String::from_utf8_lossy(alloc, buf)?;
    Ok(format!(in alloc; "{got:?} faults {} {bytes}", source.faults())?)
}

// Reads into a buffer of four bytes.
fn read_rows<S: Source>(
    rt: &impl Abort,
    alloc: Global,
    source: &mut S,
    rows: &str,
) -> Result<(), Fail> {
    let mut buf = *b"....";
    for want in rows.lines() {
        same(rt, told(alloc, source, &mut buf)?.as_str(), want, "a read");
    }
    Ok(())
}

const READS: &str = "Bytes(4) faults 0 abcd
Bytes(1) faults 0 ebcd
Bytes(0) faults 0 ebcd";

const BROKEN_READS: &str = "Failed faults 1 ....
Failed faults 2 ....";

#[test]
fn errors_of_a_reader_are_counted(rt: HostRuntime) -> Result<(), Fail> {
    let mut source = StdSource::make(&b"abcde"[..]);
    read_rows(&rt, rt.alloc(), &mut source, READS)?;
    let mut broken = StdSource::make(Broken);
    read_rows(&rt, rt.alloc(), &mut broken, BROKEN_READS)
}

#[test]
fn a_write_that_takes_no_byte_is_counted(rt: HostRuntime) {
    let mut full = StdSink::make(Full);
    same(&rt, put_word(full.write(b"")), "ok", "no byte");
    assert!(rt; full.faults() == 0);
    same(&rt, end_word(write_all(&mut full, b"a")), "fault", "a");
    assert!(rt; full.faults() == 1);
}
