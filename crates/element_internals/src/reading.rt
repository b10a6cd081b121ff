// What is read.
ghost use Rattle.std.specs.Prelude.{◌≡◌, true};
ghost use Rattle.form_controls.specs.Internals.{is_attached, kept_by};

use crate::InternalsTable;
use ce_base::{Flags, NodeNo};
use form_controls::{Internals, Value};
use ordered_tables::TextSet;

impl InternalsTable {
    fn kept(&self, n: NodeNo) -> &Internals
        requires { is_attached self.now n ≡ true }
        ensures { result.now ≡ kept_by self.now n }
    {
        self.row(n).unwrap()
    }

    /// The submission value of an element (HTML Standard, section "Form-associated custom elements", "submission
    /// value").
    pub fn form_value(&self, n: NodeNo) -> &Value
        requires { is_attached self.now n ≡ true }
        ensures { result.now ≡ (kept_by self.now n).value }
    {
        &self.kept(n).value
    }

    /// The state of an element (HTML Standard, section "Form-associated custom elements", "state").
    pub fn saved(&self, n: NodeNo) -> &Value
        requires { is_attached self.now n ≡ true }
        ensures { result.now ≡ (kept_by self.now n).saved }
    {
        &self.kept(n).saved
    }

    /// The validity flags of an element (HTML Standard, section "Form-associated custom elements", "validity flags").
    pub fn flags_of(&self, n: NodeNo) -> Flags
        requires { is_attached self.now n ≡ true }
        ensures { result ≡ (kept_by self.now n).flags }
    {
        self.kept(n).flags
    }

    /// The message of an element's validity flags; empty where no flag is set (HTML Standard, section "Form-associated
    /// custom elements", "validation message").
    pub fn message_of(&self, n: NodeNo) -> &str
        requires { is_attached self.now n ≡ true }
        ensures { result.now ≡ (kept_by self.now n).message }
    {
        self.kept(n).message.as_str()
    }

    /// The custom states of an element, in the order of adding (HTML Standard, section "Custom state pseudo-class",
    /// "states set").
    pub fn states(&self, n: NodeNo) -> &TextSet
        requires { is_attached self.now n ≡ true }
        ensures { result.now ≡ (kept_by self.now n).states }
    {
        &self.kept(n).states
    }
}
