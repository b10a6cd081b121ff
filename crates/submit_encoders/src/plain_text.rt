// Entry lists as lines of plain text.
ghost use Rattle.std.specs.Prelude.{◌≡◌, ◌++◌, IfOk, OnOk, string_bytes};
ghost use Rattle.form_submission.specs.Encodings.{plain as plain_body, plain_line};

use crate::written::put_text;
use ce_base::{Entries, Entry, NoMemory, Text};
use std::alloc::Global;

// Puts the line of an entry.
fn put_line(body: &mut String, e: &Entry) -> Result<(), NoMemory>
    ensures { OnOk result (string_bytes body.new ≡ string_bytes body.old ++ plain_line e.now) }
{
    put_text(body, e.name.as_str(), "=")?;
    put_text(body, e.value.as_str(), "\r\n")
}

/// The body of type text/plain (HTML Standard, section "Plain text form data"). NoMemory: memory was refused.
pub fn plain(alloc: Global, list: &Entries) -> Result<Text, NoMemory>
    ensures { IfOk result (λ body. body ≡ plain_body list.now) }
{
    let mut body = String::new(alloc);
    for e in list.as_slice() {
        put_line(&mut body, e)?;
    }
    Ok(Text::from(body))
}
