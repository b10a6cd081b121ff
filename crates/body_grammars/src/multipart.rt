// Reads multipart bodies.
ghost use Rattle.std.specs.Prelude.{◌≡◌, ◌+◌, List, length};
ghost use Rattle.ce_base.specs.declared.entries.Entry.{Entry};
ghost use Rattle.body_grammars.specs.Bodies.{IsBoundary, PartText};
ghost use Rattle.body_grammars.specs.Cuts.{behind};
ghost use Rattle.body_grammars.specs.Gives.{Gives};
ghost use Rattle.body_grammars.specs.ReadParts.{IsAddedPart, closing, is_end, multipart_entries, read_tail};
ghost use Rattle.body_grammars.specs.Reads.{Reads};

use crate::BodyRefused;
use crate::cuts::behind;
use crate::parts::read_part;
use ce_base::Entries;
use std::alloc::Global;

// Whether this is the end of the line that closes, behind its boundary.
fn is_closing(bytes: &[u8]) -> bool
    ensures { result ≡ is_end (behind closing bytes.now) }
{
    match behind(bytes, b"--\r\n") {
        None => false,
        Some(rest) => rest.is_empty(),
    }
}

// Puts the entry of the part that begins here behind the others, and gives what follows the part.
fn add_part<'a>(
    alloc: Global,
    entries: &mut Entries,
    bytes: &'a [u8],
    boundary: &[u8],
) -> Result<&'a [u8], BodyRefused>
    ensures { IsAddedPart boundary.now entries.old bytes.now entries.new result }
{
    let (e, rest) = read_part(alloc, bytes, boundary)?;
    entries.push(alloc, e)?;
    Ok(rest)
}

// The entries of the parts behind a boundary, up to the closing line.
#[tactic(auto, using(crate::proofs::PartCuts::tail_end, crate::proofs::PartCuts::tail_more))]
fn read_tail(alloc: Global, bytes: &[u8], boundary: &[u8]) -> Result<Entries, BodyRefused>
    ensures { Gives result (read_tail (length bytes.now + 1) boundary.now bytes.now) }
{
    let mut entries = Entries::make(alloc);
    let mut rest = bytes;
    for _i in 0..bytes.len() + 1 {
        if is_closing(rest) {
            return Ok(entries);
        }
        rest = add_part(alloc, &mut entries, rest, boundary)?;
    }
    Err(BodyRefused::NotABody)
}

// The entries of a body.
fn multipart_entries(alloc: Global, bytes: &[u8], boundary: &[u8]) -> Result<Entries, BodyRefused>
    ensures { Gives result (multipart_entries boundary.now bytes.now) }
{
    match behind(bytes, b"--") {
        None => Err(BodyRefused::NotABody),
        Some(rest) => match behind(rest, boundary) {
            None => Err(BodyRefused::NotABody),
            Some(rest) => read_tail(alloc, rest, boundary),
        },
    }
}

/// The entry list whose multipart body with this boundary the bytes are (RFC 7578). NotABody: they are that of no list. A part
/// has one header line, which tells a name and no file, as the encoder writes it.
pub fn read_multipart(alloc: Global, bytes: &[u8], boundary: &str) -> Result<Entries, BodyRefused>
    requires { IsBoundary boundary.now }
    ensures { Reads (λ (list : List Entry). PartText list boundary.now bytes.now) result }
{
    multipart_entries(alloc, bytes, boundary.as_bytes())
}
