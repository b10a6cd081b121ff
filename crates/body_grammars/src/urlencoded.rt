// Reads urlencoded bodies.
ghost use Rattle.std.specs.Prelude.{List};
ghost use Rattle.ce_base.specs.declared.entries.Entry.{Entry};
ghost use Rattle.body_grammars.specs.Bodies.{UrlText};
ghost use Rattle.body_grammars.specs.Escapes.{read_text};
ghost use Rattle.body_grammars.specs.Gives.{Gives, IsAdded, paired};
ghost use Rattle.body_grammars.specs.ReadUrl.{read_pair, read_parts, urlencoded_entries};
ghost use Rattle.body_grammars.specs.Reads.{Reads};

use crate::BodyRefused;
use crate::cuts::cut_at;
use crate::spelled::read_text;
use ce_base::{Entries, Entry};
use std::alloc::Global;

// The entry of a name and a value that are spelled so.
fn read_entry(alloc: Global, name: &[u8], value: &[u8]) -> Result<Entry, BodyRefused>
    ensures { Gives result (paired (read_text name.now) (read_text value.now)) }
{
    let name = read_text(alloc, name)?;
    let value = read_text(alloc, value)?;
    Ok(Entry { name, value })
}

// The entry of a pair.
fn read_pair(alloc: Global, part: &[u8]) -> Result<Entry, BodyRefused>
    ensures { Gives result (read_pair part.now) }
{
    match cut_at(part, b'=') {
        None => Err(BodyRefused::NotABody),
        Some((name, value)) => read_entry(alloc, name, value),
    }
}

// Puts the entry of a pair behind the others.
fn add_pair(alloc: Global, entries: &mut Entries, part: &[u8]) -> Result<(), BodyRefused>
    ensures { IsAdded read_pair entries.old part.now entries.new result }
{
    let e = read_pair(alloc, part)?;
    entries.push(alloc, e)?;
    Ok(())
}

// The entries of the pairs between `&` and `&`.
#[tactic(auto, using(crate::proofs::SplitLaws::parts_some, crate::proofs::SplitLaws::parts_none))]
fn read_parts(alloc: Global, bytes: &[u8]) -> Result<Entries, BodyRefused>
    ensures { Gives result (read_parts bytes.now) }
{
    let mut entries = Entries::make(alloc);
    let mut rest = bytes;
    while let Some((part, behind)) = cut_at(rest, b'&') {
        add_pair(alloc, &mut entries, part)?;
        rest = behind;
    }
    add_pair(alloc, &mut entries, rest)?;
    Ok(entries)
}

// The entries of a body, which may be empty.
fn urlencoded_entries(alloc: Global, bytes: &[u8]) -> Result<Entries, BodyRefused>
    ensures { Gives result (urlencoded_entries bytes.now) }
{
    if bytes.is_empty() {
        return Ok(Entries::make(alloc));
    }
    read_parts(alloc, bytes)
}

/// The entry list whose body of type application/x-www-form-urlencoded the bytes are. NotABody: they are that of no list. It
/// forgives nothing: the pairs are joined by one `&` each, and each has its `=`.
pub fn read_urlencoded(alloc: Global, bytes: &[u8]) -> Result<Entries, BodyRefused>
    ensures { Reads (λ (list : List Entry). UrlText list bytes.now) result }
{
    urlencoded_entries(alloc, bytes)
}
