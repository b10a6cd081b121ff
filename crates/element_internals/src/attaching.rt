// How internals are attached.
ghost use Rattle.std.specs.Prelude.{◌≡◌, ◌<◌, None, Some, length, slice_set, OnOk};
ghost use Rattle.form_controls.specs.Internals.{attach, may_attach, new_internals};
ghost use Rattle.element_internals.specs.Calls.{Writes};
ghost use Rattle.form_controls.specs.Filling.{IsFilled};

use crate::InternalsTable;
use ce_base::{Fault, Flags, NoMemory, NodeNo, Refused, Text};
use form_controls::{Attach, Internals, Value};
use ordered_tables::TextSet;
use std::alloc::Global;

/// Internals as they are attached.
fn new_internals(alloc: Global) -> Internals
    ensures { result ≡ new_internals }
{
    Internals {
        value: Value::Nothing,
        saved: Value::Nothing,
        flags: Flags([false; 10]),
        message: Text::from(String::new(alloc)),
        states: TextSet::make(alloc),
    }
}

/// Puts empty rows behind, until there is one at this place.
fn fill(rows: &mut Vec<Option<Internals>>, place: usize) -> Result<(), NoMemory>
    ensures long { OnOk result (place < length rows.new.items) }
    ensures same { OnOk result (IsFilled None place rows.old.items rows.new.items) }
{
    while rows.len() <= place {
        rows.push(None)?;
    }
    Ok(())
}

/// Writes new internals into a row.
fn write_new(alloc: Global, rows: &mut [Option<Internals>], place: usize)
    requires { place < length rows.old }
    ensures { rows.new ≡ slice_set rows.old place (Some new_internals) }
{
    rows[place] = Some(new_internals(alloc));
}

impl InternalsTable {
    /// Why an element may not have internals attached. None exactly where it may.
    fn attach_fault(&self, n: NodeNo, c: Attach) -> Option<Fault>
        ensures { result ≡ may_attach self.now n c }
    {
        if c.has_is || !c.found || c.off || self.attached(n) || !c.ready {
            return Some(Fault::NotSupportedError);
        }
        None
    }

    /// Attaches internals to an element (HTML Standard, section "Element internals", `attachInternals`). It throws
    /// NotSupportedError where the element has an `is` value, has no definition or one that disables internals, has
    /// internals already, or is neither precustomized nor custom, and then nothing has changed. NoMemory comes only where
    /// it throws nothing; then the table is only dropped.
    pub fn attach(&mut self, alloc: Global, n: NodeNo, c: Attach) -> Result<(), Refused>
        ensures { Writes result (may_attach self.old n c) self.old self.new (attach self.old n) }
    {
        if let Some(fault) = self.attach_fault(n, c) {
            return Err(Refused::Fault(fault));
        }
        let place = n.place();
        fill(&mut self.rows, place)?;
        write_new(alloc, &mut self.rows, place);
        Ok(())
    }
}
