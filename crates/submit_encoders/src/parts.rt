// Entry lists as parts of a multipart body.
ghost use Rattle.std.specs.Prelude.{◌≡◌, ◌||◌, ◌++◌, IfOk, OnOk, codes, string_bytes};
ghost use Rattle.form_submission.specs.Encodings.{is_broken_by, multipart as multipart_body, occurs, part};
ghost use Rattle.submit_encoders.specs.Encoded.{Encodes, part_head};

use crate::refused::PartRefused;
use crate::written::{put, put_name, put_text};
use ce_base::{Entries, Entry, NoMemory, Text};
use std::alloc::Global;

// Puts what each line of the frame begins with.
fn put_delimiter(body: &mut String, boundary: &str) -> Result<(), NoMemory>
    ensures { OnOk result (string_bytes body.new ≡ string_bytes body.old ++ codes "--" ++ boundary.now) }
{
    put(body, "--", boundary)
}

// Puts what stands before the value in the part of an entry of this name.
fn put_head(body: &mut String, boundary: &str, name: &str) -> Result<(), NoMemory>
    ensures { OnOk result (string_bytes body.new ≡ string_bytes body.old ++ part_head boundary.now name.now) }
{
    put_delimiter(body, boundary)?;
    body.push_str("\r\nContent-Disposition: form-data; name=\"")?;
    put_name(body, name, "\"\r\n\r\n")
}

// Puts the part of an entry.
fn put_part(body: &mut String, boundary: &str, e: &Entry) -> Result<(), NoMemory>
    ensures { OnOk result (string_bytes body.new ≡ string_bytes body.old ++ part boundary.now e.now) }
{
    put_head(body, boundary, e.name.as_str())?;
    put_text(body, e.value.as_str(), "\r\n")
}

// The parts, and the line that closes.
fn joined(alloc: Global, list: &Entries, boundary: &str) -> Result<Text, NoMemory>
    ensures { IfOk result (λ body. body ≡ multipart_body list.now boundary.now) }
{
    let mut body = String::new(alloc);
    for e in list.as_slice() {
        put_part(&mut body, boundary, e)?;
    }
    put_delimiter(&mut body, boundary)?;
    body.push_str("--\r\n")?;
    Ok(Text::from(body))
}

// Whether the boundary stands somewhere in a text.
fn occurs(boundary: &str, text: &str) -> bool
    ensures { result ≡ occurs boundary.now text.now }
{
    text.contains(boundary)
}

// Whether it stands in a name or a value.
fn is_broken(e: &Entry, boundary: &str) -> bool
    ensures { result ≡ (occurs boundary.now e.now.name || occurs boundary.now e.now.value) }
{
    occurs(boundary, e.name.as_str()) || occurs(boundary, e.value.as_str())
}

// Whether it stands in a name or a value of the list.
fn is_broken_by(list: &[Entry], boundary: &str) -> bool
    ensures { result ≡ is_broken_by list.now boundary.now }
{
    for e in list {
        if is_broken(e, boundary) {
            return true;
        }
    }
    false
}

/// The body of type multipart/form-data with this boundary (RFC 7578). Occurs: the boundary stands in a name or a value, as
/// the list has them; and then no memory is asked for.
pub fn multipart(alloc: Global, list: &Entries, boundary: &str) -> Result<Text, PartRefused>
    ensures { Encodes result list.now boundary.now }
{
    if is_broken_by(list.as_slice(), boundary) {
        return Err(PartRefused::Occurs);
    }
    Ok(joined(alloc, list, boundary)?)
}
