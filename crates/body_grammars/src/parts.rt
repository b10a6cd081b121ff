// A part of a multipart body, behind the boundary that opens it.
ghost use Rattle.std.specs.Prelude.{◌≡◌, option_map};
ghost use Rattle.body_grammars.specs.Cuts.{only_utf8, seen_cut};
ghost use Rattle.body_grammars.specs.Gives.{Gives, GivesSeen, paired};
ghost use Rattle.body_grammars.specs.ReadParts.{before_dashes, name_cut, name_text, read_part, see_part, value_cut};

use crate::BodyRefused;
use crate::cuts::{behind, cut_at, cut_text, lacks};
use crate::texts::text_of;
use ce_base::{Entry, Text};
use std::alloc::Global;

// The name of a part, and what follows its quote.
fn name_cut(bytes: &[u8]) -> Option<(&[u8], &[u8])>
    ensures { seen_cut result ≡ name_cut bytes.now }
{
    match behind(bytes, b"\r\nContent-Disposition: form-data; name=\"") {
        None => None,
        Some(rest) => cut_at(rest, b'"'),
    }
}

// What stands before the line end and the two hyphens with which the text ends.
fn before_dashes(text: &[u8]) -> Option<&[u8]>
    ensures { option_map (λ x. x.now) result ≡ before_dashes text.now }
{
    let end = text.len().saturating_sub(4);
    match behind(&text[end..], b"\r\n--") {
        None => None,
        Some(_) => Some(&text[..end]),
    }
}

// The value of a part, and what follows the boundary behind it.
fn value_cut<'a>(bytes: &'a [u8], boundary: &[u8]) -> Option<(&'a [u8], &'a [u8])>
    ensures { seen_cut result ≡ value_cut boundary.now bytes.now }
{
    match behind(bytes, b"\r\n\r\n") {
        None => None,
        Some(rest) => match cut_text(rest, boundary) {
            None => None,
            Some((text, rest)) => match before_dashes(text) {
                None => None,
                Some(value) => Some((value, rest)),
            },
        },
    }
}

// The name of an entry, as the part has it.
fn name_text(alloc: Global, name: &[u8]) -> Result<Text, BodyRefused>
    ensures { Gives result (name_text name.now) }
{
    if lacks(name, b'\r') && lacks(name, b'\n') {
        text_of(alloc, name)
    } else {
        Err(BodyRefused::NotABody)
    }
}

// The entry of a part.
fn read_entry(alloc: Global, name: &[u8], value: &[u8]) -> Result<Entry, BodyRefused>
    ensures { Gives result (paired (name_text name.now) (only_utf8 value.now)) }
{
    let name = name_text(alloc, name)?;
    let value = text_of(alloc, value)?;
    Ok(Entry { name, value })
}

/// The entry of the part, and what follows the boundary behind it. NotABody: no part stands here.
#[tactic(auto, unfolding(crate::specs::ReadParts::read_part))]
pub(crate) fn read_part<'a>(
    alloc: Global,
    bytes: &'a [u8],
    boundary: &[u8],
) -> Result<(Entry, &'a [u8]), BodyRefused>
    ensures { GivesSeen see_part result (read_part boundary.now bytes.now) }
{
    match name_cut(bytes) {
        None => Err(BodyRefused::NotABody),
        Some((name, rest)) => match value_cut(rest, boundary) {
            None => Err(BodyRefused::NotABody),
            Some((value, rest)) => {
                let e = read_entry(alloc, name, value)?;
                Ok((e, rest))
            }
        },
    }
}
