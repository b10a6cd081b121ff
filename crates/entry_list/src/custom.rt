// What a form-associated custom element gives.
ghost use Rattle.std.specs.Prelude.{◌≡◌, ◌++◌, ◌∷◌, [], if◌then◌else◌, OnOk};
ghost use Rattle.ce_base.specs.Texts.{entry};
ghost use Rattle.form_controls.specs.Internals.{kept_by};
ghost use Rattle.form_controls.specs.Texts.{is_empty};
ghost use Rattle.form_submission.specs.EntryList.{custom_entries};

use crate::putting::put;
use ce_base::{Entries, NoMemory, NodeNo, Text};
use element_internals::InternalsTable;
use form_controls::Value;
use std::alloc::Global;

/// Puts an entry of a text, which wants a name.
fn put_text(alloc: Global, list: &mut Entries, name: &str, text: &Text) -> Result<(), NoMemory>
    ensures { OnOk result (list.new ≡ list.old ++ (if is_empty name.now then [] else entry name.now text.now ∷ [])) }
{
    if name.is_empty() {
        return Ok(());
    }
    let value = text.copy(alloc)?;
    put(alloc, list, name, value)
}

/// Puts all entries of a list.
fn put_all(alloc: Global, list: &mut Entries, entries: &Entries) -> Result<(), NoMemory>
    ensures { OnOk result (list.new ≡ list.old ++ entries.now) }
{
    for e in entries.as_slice() {
        let copy = e.copy(alloc)?;
        list.push(alloc, copy)?;
    }
    Ok(())
}

/// Puts what a form-associated custom element gives, by its submission value; without internals it gives nothing.
pub(crate) fn put_custom(
    alloc: Global,
    inner: &InternalsTable,
    list: &mut Entries,
    name: &str,
    n: NodeNo,
) -> Result<(), NoMemory>
    ensures { OnOk result (list.new ≡ list.old ++ custom_entries name.now (kept_by inner.now n).value) }
{
    if !inner.attached(n) {
        return Ok(());
    }
    match inner.form_value(n) {
        Value::Nothing => Ok(()),
        Value::One(text) => put_text(alloc, list, name, text),
        Value::Many(entries) => put_all(alloc, list, entries),
    }
}
