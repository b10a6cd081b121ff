// What ElementInternals keeps.
ghost use Rattle.std.specs.Prelude.{◌≡◌};
ghost use Rattle.form_controls.specs.Internals.{add_state, attach, clear_states, delete_state, may_attach};
ghost use Rattle.form_controls.specs.Internals.{may_change_states, may_set_validity, may_write, set_form_value, set_validity};
ghost use Rattle.element_internals.specs.Calls.{Changes, Writes};
ghost use Rattle.ce_algorithms.specs.Page.{with_internals};

use crate::Page;
use ce_base::{Fault, Flags, NodeNo, Refused, Text};
use element_internals::InternalsTable;
use form_controls::{Attach, Value};
use std::alloc::Global;

impl Page {
    /// What ElementInternals keeps of the page's elements (HTML Standard, section "Element internals").
    pub fn inner(&self) -> &InternalsTable
        ensures { result.now ≡ self.now.internals }
    {
        &self.internals
    }

    /// Attaches internals to an element, as `InternalsTable::attach` does. Nothing else of the page changes.
    pub fn attach(&mut self, alloc: Global, n: NodeNo, c: Attach) -> Result<(), Refused>
        ensures table { Writes result (may_attach self.old.internals n c) self.old.internals self.new.internals (attach self.old.internals n) }
        ensures rest { self.new ≡ with_internals (λ is. self.new.internals) self.old }
    {
        self.internals.attach(alloc, n, c)
    }

    /// Sets the submission value and the state of an element, as `InternalsTable::set_form_value` does. Nothing else of the
    /// page changes.
    pub fn set_form_value(
        &mut self,
        alloc: Global,
        n: NodeNo,
        associated: bool,
        v: Value,
        saved: Value,
    ) -> Result<(), Refused>
        ensures table { Writes result (may_write self.old.internals n associated) self.old.internals self.new.internals
            (set_form_value self.old.internals n v saved) }
        ensures rest { self.new ≡ with_internals (λ is. self.new.internals) self.old }
    {
        self.internals
            .set_form_value(alloc, n, associated, v, saved)
    }

    /// Sets all validity flags of an element and their message, as `InternalsTable::set_validity` does. Nothing else of the
    /// page changes.
    pub fn set_validity(
        &mut self,
        alloc: Global,
        n: NodeNo,
        associated: bool,
        f: Flags,
        message: Text,
    ) -> Result<(), Refused>
        ensures table { Writes result (may_set_validity self.old.internals n associated f message) self.old.internals self.new.internals
            (set_validity self.old.internals n f message) }
        ensures rest { self.new ≡ with_internals (λ is. self.new.internals) self.old }
    {
        self.internals
            .set_validity(alloc, n, associated, f, message)
    }

    /// Adds a custom state, as `InternalsTable::add_state` does. Nothing else of the page changes.
    pub fn add_state(&mut self, alloc: Global, n: NodeNo, s: Text) -> Result<(), Refused>
        ensures table { Writes result (may_change_states self.old.internals n) self.old.internals self.new.internals (add_state self.old.internals n s) }
        ensures rest { self.new ≡ with_internals (λ is. self.new.internals) self.old }
    {
        self.internals.add_state(alloc, n, s)
    }

    /// Deletes a custom state, as `InternalsTable::delete_state` does. Nothing else of the page changes.
    pub fn delete_state(&mut self, n: NodeNo, s: &str) -> Result<(), Fault>
        ensures table { Changes result (may_change_states self.old.internals n) self.old.internals self.new.internals
            (delete_state self.old.internals n s.now) }
        ensures rest { self.new ≡ with_internals (λ is. self.new.internals) self.old }
    {
        self.internals.delete_state(n, s)
    }

    /// Deletes all custom states, as `InternalsTable::clear_states` does. Nothing else of the page changes.
    pub fn clear_states(&mut self, n: NodeNo) -> Result<(), Fault>
        ensures table { Changes result (may_change_states self.old.internals n) self.old.internals self.new.internals (clear_states self.old.internals n) }
        ensures rest { self.new ≡ with_internals (λ is. self.new.internals) self.old }
    {
        self.internals.clear_states(n)
    }
}
