// A definition with the set of its observed names.
ghost use Rattle.std.specs.Prelude.{◌≡◌, IfOk, bytes_eq, string_bytes};
ghost use Rattle.std.specs.List.{list_any};
ghost use Rattle.ce_registry.specs.Found.{HasNames};

use crate::Definition;
use ce_base::{NoMemory, Texts};
use std::alloc::Global;
use std::collections::BTreeSet;
use std::marker::Model;

/// A definition of the registry, which is what a contract sees; a set finds its observed names.
#[derive(Drop)]
pub(crate) struct Entry {
    definition: Definition,
    observed: BTreeSet<String>,
}

impl Model for Entry {
    ghost use Rattle.ce_registry.specs.declared.definition.Definition.{Definition};
    ghost use Rattle.ce_registry.specs.Found.{HasNames};

    ghost Value = { Definition };

    ghost view = { λ e. e.definition };

    ghost invariant = { λ e. HasNames e.observed e.definition.facts.observed };
}

impl Entry {
    /// A definition, with its set.
    pub(crate) fn make(alloc: Global, definition: Definition) -> Result<Entry, NoMemory>
        ensures { IfOk result (λ e. e ≡ definition) }
    {
        let observed = set_of(alloc, &definition.facts.observed)?;
        Ok(Entry {
            definition,
            observed,
        })
    }

    /// The name, as the key of a map.
    pub(crate) fn key(&self, alloc: Global) -> Result<String, NoMemory>
        ensures { IfOk result (λ key. string_bytes key ≡ self.now.name) }
    {
        Ok(String::from_str(alloc, self.definition.name.as_str())?)
    }

    /// The class, as the key of a map.
    pub(crate) fn class_key(&self) -> u64
        ensures { result ≡ self.now.class }
    {
        self.definition.class.0
    }

    /// The definition.
    pub(crate) fn definition(&self) -> &Definition
        ensures { result.now ≡ self.now }
    {
        &self.definition
    }

    /// Whether it observes the name.
    pub(crate) fn observes(&self, name: &str) -> bool
        ensures { result ≡ list_any (λ n. bytes_eq n name.now) self.now.facts.observed }
    {
        self.observed.contains(name)
    }
}

// The set of some names.
fn set_of(alloc: Global, names: &Texts) -> Result<BTreeSet<String>, NoMemory>
    ensures { IfOk result (λ set. HasNames set names.now) }
{
    let mut set = BTreeSet::new(alloc);
    for name in names.as_slice() {
        set.insert(String::from_str(alloc, name.as_str())?)?;
    }
    Ok(set)
}
