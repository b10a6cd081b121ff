// A custom element definition.
ghost use Rattle.std.specs.Prelude.{◌≡◌, option_copied};
ghost use Rattle.ce_registry.specs.Registry.{is_value_of};

use crate::ClassFacts;
use ce_base::{ClassNo, Text};

/// A custom element definition (HTML Standard, section "Core concepts"). It is autonomous where its local
/// name is its name.
#[derive(Drop)]
pub struct Definition {
    /// The name that it is defined under.
    pub name: Text,
    /// The local name of its elements.
    pub local: Text,
    /// Its constructor's class.
    pub class: ClassNo,
    /// What it took over from the class.
    pub facts: ClassFacts,
}

impl Definition {
    /// The `is` value of the elements that it is for (HTML Standard, section "Core concepts"). None exactly where
    /// it is autonomous.
    pub fn is_value(&self) -> Option<&str>
        ensures { option_copied result ≡ is_value_of self.now }
    {
        if self.local.as_str() == self.name.as_str() {
            return None;
        }
        Some(self.name.as_str())
    }
}
