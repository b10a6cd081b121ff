// Entry lists as pairs, urlencoded.
ghost use Rattle.std.specs.Prelude.{◌≡◌, IfOk, OnOk, map};
ghost use Rattle.form_urlencoded.specs.Form.{append_pair, parse};
ghost use Rattle.form_submission.specs.Encodings.{pair_of, urlencoded as urlencoded_body};

use crate::written::full_text;
use ce_base::{Entries, Entry, NoMemory, Text};
use form_urlencoded::Serializer;
use std::alloc::Global;

// Puts a pair behind those of a form: this name, and the value of an entry.
fn append_value(alloc: Global, form: &mut Serializer, name: &str, e: &Entry) -> Result<(), NoMemory>
    ensures { OnOk result (form.new ≡ record form.old { form = append_pair form.old.form name.now (pair_of e.now).1 }) }
{
    let value = full_text(alloc, e.value.as_str())?;
    form.append_pair(name, value.as_str())?;
    Ok(())
}

// Puts the pair of an entry behind those of a form.
fn append_entry(alloc: Global, form: &mut Serializer, e: &Entry) -> Result<(), NoMemory>
    ensures { OnOk result
        (form.new ≡ record form.old { form = append_pair form.old.form (pair_of e.now).0 (pair_of e.now).1 }) }
{
    let name = full_text(alloc, e.name.as_str())?;
    append_value(alloc, form, name.as_str(), e)
}

// The pairs of these entries, as text.
fn serialized(alloc: Global, list: &[Entry]) -> Result<Text, NoMemory>
    ensures { IfOk result (λ body. body ≡ urlencoded_body list.now) }
{
    let mut form = Serializer::new(String::new(alloc));
    for e in list {
        append_entry(alloc, &mut form, e)?;
    }
    Ok(Text::from(form.finish()))
}

/// The body of type application/x-www-form-urlencoded, which is also the query of a request by GET (URL Standard, section
/// "application/x-www-form-urlencoded serializing"). It parses as the list, with the line ends of its names and values as
/// they are sent (section "application/x-www-form-urlencoded parsing"). NoMemory: memory was refused.
pub fn urlencoded(alloc: Global, list: &Entries) -> Result<Text, NoMemory>
    ensures body { IfOk result (λ body. body ≡ urlencoded_body list.now) }
    ensures parses { IfOk result (λ body. parse body ≡ map pair_of list.now) }
{
    serialized(alloc, list.as_slice())
}
