// Validity flags and their message.
ghost use Rattle.std.specs.Prelude.{◌≡◌, true, if◌then◌else◌, []};
ghost use Rattle.form_controls.specs.Internals.{change_internals, is_attached, is_raised, may_set_validity, set_validity};
ghost use Rattle.element_internals.specs.Calls.{Writes};

use crate::InternalsTable;
use ce_base::{Fault, Flags, NodeNo, Refused, Text};
use form_controls::Internals;
use std::alloc::Global;

/// Whether some flag is set.
pub fn is_raised(flags: Flags) -> bool
    ensures { result ≡ is_raised flags }
{
    for flag in &flags.0 {
        if *flag {
            return true;
        }
    }
    false
}

/// The message that is kept: that of some flag, or the empty one.
fn message_for(alloc: Global, flags: Flags, message: Text) -> Text
    ensures { result ≡ (if is_raised flags then message else []) }
{
    if is_raised(flags) {
        message
    } else {
        Text::from(String::new(alloc))
    }
}

/// Writes the flags and the message of an element that has internals.
fn write_validity(rows: &mut [Option<Internals>], n: NodeNo, flags: Flags, message: Text)
    requires { is_attached rows.old n ≡ true }
    ensures { rows.new ≡ change_internals rows.old n (λ i. record i { flags = flags; message = message }) }
{
    match &mut rows[n.place()] {
        None => unreachable!(),
        Some(kept) => {
            kept.flags = flags;
            kept.message = message;
        }
    }
}

impl InternalsTable {
    /// Why flags may not be set. None exactly where they may.
    fn validity_fault(
        &self,
        n: NodeNo,
        associated: bool,
        flags: Flags,
        message: &str,
    ) -> Option<Fault>
        ensures { result ≡ may_set_validity self.now n associated flags message.now }
    {
        if let Some(fault) = self.write_fault(n, associated) {
            return Some(fault);
        }
        if is_raised(flags) && message.is_empty() {
            return Some(Fault::TypeError);
        }
        None
    }

    /// Sets all validity flags of an element, and their message (HTML Standard, section "Form-associated custom
    /// elements", `setValidity`). Without a flag no message is kept. It throws TypeError where the element has no
    /// internals, else NotSupportedError where it is not form-associated, else TypeError where a flag is set and the
    /// message is empty; then nothing has changed. NoMemory comes only where it throws nothing; then the table is only
    /// dropped.
    pub fn set_validity(
        &mut self,
        alloc: Global,
        n: NodeNo,
        associated: bool,
        f: Flags,
        message: Text,
    ) -> Result<(), Refused>
        ensures { Writes result (may_set_validity self.old n associated f message) self.old self.new (set_validity self.old n f message) }
    {
        if let Some(fault) = self.validity_fault(n, associated, f, message.as_str()) {
            return Err(Refused::Fault(fault));
        }
        let kept = message_for(alloc, f, message);
        write_validity(&mut self.rows, n, f, kept);
        Ok(())
    }
}
