// Reads plain text bodies.
ghost use Rattle.std.specs.Prelude.{List};
ghost use Rattle.ce_base.specs.declared.entries.Entry.{Entry};
ghost use Rattle.body_grammars.specs.Bodies.{PlainText};
ghost use Rattle.body_grammars.specs.Cuts.{cut_at, only_utf8};
ghost use Rattle.body_grammars.specs.Gives.{Gives, IsAdded, paired};
ghost use Rattle.body_grammars.specs.ReadPlain.{plain_entries, read_line, read_line_cut};
ghost use Rattle.body_grammars.specs.Reads.{Reads};

use crate::BodyRefused;
use crate::cuts::cut_at;
use crate::texts::text_of;
use ce_base::{Entries, Entry};
use std::alloc::Global;

// The entry of a name and a value that stand so.
fn read_entry(alloc: Global, name: &[u8], value: &[u8]) -> Result<Entry, BodyRefused>
    ensures { Gives result (paired (only_utf8 name.now) (only_utf8 value.now)) }
{
    let name = text_of(alloc, name)?;
    let value = text_of(alloc, value)?;
    Ok(Entry { name, value })
}

// The entry of a line, without its line end.
fn read_whole(alloc: Global, line: &[u8]) -> Result<Entry, BodyRefused>
    ensures { Gives result (read_line_cut (cut_at 61 line.now)) }
{
    match cut_at(line, b'=') {
        None => Err(BodyRefused::NotABody),
        Some((name, value)) => read_entry(alloc, name, value),
    }
}

// The entry of what stands before a line feed.
fn read_line(alloc: Global, part: &[u8]) -> Result<Entry, BodyRefused>
    ensures { Gives result (read_line part.now) }
{
    match cut_at(part, b'\r') {
        None => Err(BodyRefused::NotABody),
        Some((line, behind)) => {
            if !behind.is_empty() {
                return Err(BodyRefused::NotABody);
            }
            read_whole(alloc, line)
        }
    }
}

// Puts the entry of a line behind the others.
fn add_line(alloc: Global, entries: &mut Entries, part: &[u8]) -> Result<(), BodyRefused>
    ensures { IsAdded read_line entries.old part.now entries.new result }
{
    let e = read_line(alloc, part)?;
    entries.push(alloc, e)?;
    Ok(())
}

// The entries of the lines.
#[tactic(auto, using(crate::proofs::SplitLaws::lines_some, crate::proofs::SplitLaws::lines_none))]
fn read_lines(alloc: Global, bytes: &[u8]) -> Result<Entries, BodyRefused>
    ensures { Gives result (plain_entries bytes.now) }
{
    let mut entries = Entries::make(alloc);
    let mut rest = bytes;
    while let Some((part, behind)) = cut_at(rest, b'\n') {
        add_line(alloc, &mut entries, part)?;
        rest = behind;
    }
    if rest.is_empty() {
        Ok(entries)
    } else {
        Err(BodyRefused::NotABody)
    }
}

/// The entry list whose body of type text/plain the bytes are. NotABody: they are that of no list. Names have no `=`, and
/// neither names nor values have line ends.
pub fn read_plain(alloc: Global, bytes: &[u8]) -> Result<Entries, BodyRefused>
    ensures { Reads (λ (list : List Entry). PlainText list bytes.now) result }
{
    read_lines(alloc, bytes)
}
