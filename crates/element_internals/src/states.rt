// Custom states.
ghost use Rattle.std.specs.Prelude.{◌≡◌, true, OnOk};
ghost use Rattle.form_controls.specs.Internals.{add_state, clear_states, delete_state, is_attached, may_change_states};
ghost use Rattle.element_internals.specs.Calls.{Changes, Writes};

use crate::InternalsTable;
use ce_base::{Fault, NoMemory, NodeNo, Refused, Text};
use form_controls::Internals;
use std::alloc::Global;

/// Puts a state behind those of an element that has internals, where it is not among them.
fn write_state(
    alloc: Global,
    rows: &mut [Option<Internals>],
    n: NodeNo,
    s: Text,
) -> Result<(), NoMemory>
    requires { is_attached rows.old n ≡ true }
    ensures { OnOk result (rows.new ≡ add_state rows.old n s) }
{
    match &mut rows[n.place()] {
        None => unreachable!(),
        Some(kept) => kept.states.add(alloc, s)?,
    }
    Ok(())
}

/// Leaves a state out of those of an element that has internals.
fn leave_out(rows: &mut [Option<Internals>], n: NodeNo, s: &str)
    requires { is_attached rows.old n ≡ true }
    ensures { rows.new ≡ delete_state rows.old n s.now }
{
    match &mut rows[n.place()] {
        None => unreachable!(),
        Some(kept) => kept.states.remove(s),
    }
}

/// Leaves out all states of an element that has internals.
fn leave_out_all(rows: &mut [Option<Internals>], n: NodeNo)
    requires { is_attached rows.old n ≡ true }
    ensures { rows.new ≡ clear_states rows.old n }
{
    match &mut rows[n.place()] {
        None => unreachable!(),
        Some(kept) => kept.states.clear(),
    }
}

impl InternalsTable {
    /// Adds a custom state to those of an element, behind the others; one that is there stays where it is (HTML
    /// Standard, section "Custom state pseudo-class", `CustomStateSet`, "add"). It throws TypeError where the element
    /// has no internals, and then nothing has changed. NoMemory comes only where it throws nothing; then the table is
    /// only dropped.
    pub fn add_state(&mut self, alloc: Global, n: NodeNo, s: Text) -> Result<(), Refused>
        ensures { Writes result (may_change_states self.old n) self.old self.new (add_state self.old n s) }
    {
        if !self.attached(n) {
            return Err(Refused::Fault(Fault::TypeError));
        }
        write_state(alloc, &mut self.rows, n, s)?;
        Ok(())
    }

    /// Deletes a custom state of an element, where it is there (HTML Standard, section "Custom state pseudo-class",
    /// `CustomStateSet`, "delete"). It throws TypeError where the element has no internals, and then nothing has
    /// changed. It takes no memory.
    pub fn delete_state(&mut self, n: NodeNo, s: &str) -> Result<(), Fault>
        ensures { Changes result (may_change_states self.old n) self.old self.new (delete_state self.old n s.now) }
    {
        if !self.attached(n) {
            return Err(Fault::TypeError);
        }
        leave_out(&mut self.rows, n, s);
        Ok(())
    }

    /// Deletes all custom states of an element (HTML Standard, section "Custom state pseudo-class", `CustomStateSet`,
    /// "clear"). It throws TypeError where the element has no internals, and then nothing has changed. It takes no
    /// memory.
    pub fn clear_states(&mut self, n: NodeNo) -> Result<(), Fault>
        ensures { Changes result (may_change_states self.old n) self.old self.new (clear_states self.old n) }
    {
        if !self.attached(n) {
            return Err(Fault::TypeError);
        }
        leave_out_all(&mut self.rows, n);
        Ok(())
    }
}
