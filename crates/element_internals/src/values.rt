// Submission values and states.
ghost use Rattle.std.specs.Prelude.{◌≡◌, true};
ghost use Rattle.form_controls.specs.Internals.{is_attached, may_write, set_form_value};
ghost use Rattle.element_internals.specs.Calls.{Writes};

use crate::InternalsTable;
use ce_base::{Fault, NodeNo, Refused};
use form_controls::{Internals, Value};
use std::alloc::Global;

/// Puts a value in the place of another one.
fn put(place: &mut Value, v: Value)
    ensures { place.new ≡ v }
{
    *place = v;
}

/// Writes the value and the state of an element that has internals.
fn write_value(rows: &mut [Option<Internals>], n: NodeNo, v: Value, saved: Value)
    requires { is_attached rows.old n ≡ true }
    ensures { rows.new ≡ set_form_value rows.old n v saved }
{
    match &mut rows[n.place()] {
        None => unreachable!(),
        Some(kept) => {
            put(&mut kept.value, v);
            put(&mut kept.saved, saved);
        }
    }
}

impl InternalsTable {
    /// Why what only a form-associated custom element has may not be written. None exactly where it may.
    pub(crate) fn write_fault(&self, n: NodeNo, associated: bool) -> Option<Fault>
        ensures { result ≡ may_write self.now n associated }
    {
        if !self.attached(n) {
            return Some(Fault::TypeError);
        }
        if !associated {
            return Some(Fault::NotSupportedError);
        }
        None
    }

    /// Sets the submission value and the state of an element (HTML Standard, section "Form-associated custom elements",
    /// `setFormValue`). It throws TypeError where the element has no internals, and else NotSupportedError where it is
    /// not form-associated; then nothing has changed. NoMemory comes only where it throws nothing; then the table is only
    /// dropped.
    pub fn set_form_value(
        &mut self,
        _alloc: Global,
        n: NodeNo,
        associated: bool,
        v: Value,
        saved: Value,
    ) -> Result<(), Refused>
        ensures { Writes result (may_write self.old n associated) self.old self.new (set_form_value self.old n v saved) }
    {
        if let Some(fault) = self.write_fault(n, associated) {
            drop(v);
            drop(saved);
            return Err(Refused::Fault(fault));
        }
        write_value(&mut self.rows, n, v, saved);
        Ok(())
    }
}
