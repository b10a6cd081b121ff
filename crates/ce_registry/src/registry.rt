// The custom element registry.
ghost use Rattle.std.specs.Prelude.{◌≡◌, ◌<◌, [], length, option_copied, slice_get, None, Some, OnErr, OnOk};
ghost use Rattle.ce_registry.specs.Registry.{by_name, by_class, by_names, by_is_value, lookup, may_define, may_extend, observes};
ghost use Rattle.ce_registry.specs.Defines.{Adds, Allows, Defines};
ghost use Rattle.ce_registry.specs.Found.{has_local, Follows, Stays};

use crate::entry::Entry;
use crate::{ClassFacts, Definition};
use ce_base::{ClassNo, DefNo, Fault, NoMemory, Refused, Text};
use element_names::{is_custom_name, is_known_html};
use std::alloc::Global;
use std::collections::BTreeMap;
use std::marker::Model;

/// The custom element registry of the page (HTML Standard, section "The CustomElementRegistry interface"). A
/// contract sees its definitions, in the order of defining; maps find them by their names and classes.
#[derive(Drop)]
pub struct Registry {
    entries: Vec<Entry>,
    names: BTreeMap<String, DefNo>,
    classes: BTreeMap<u64, DefNo>,
}

impl Model for Registry {
    ghost use Rattle.std.specs.Prelude.{List};
    ghost use Rattle.ce_registry.specs.declared.definition.Definition.{Definition};
    ghost use Rattle.ce_registry.specs.Found.{Finds};

    ghost Value = { List Definition };

    ghost view = { λ r. r.entries.items };

    ghost invariant = { λ r. Finds r.names r.classes r.entries.items };
}

impl Registry {
    /// A registry without definitions.
    pub fn make(alloc: Global) -> Registry
        ensures { result ≡ [] }
    {
        Registry {
            entries: Vec::new(alloc),
            names: BTreeMap::new(alloc),
            classes: BTreeMap::new(alloc),
        }
    }

    /// Adds a definition, and gives its number (HTML Standard, section "The CustomElementRegistry interface",
    /// `define`). It refuses, with the fault of the first that
    /// holds: SyntaxError where the name is no custom element's; NotSupportedError where a definition has the
    /// name, where a definition has the class, where `base` is given and is a custom element's name or no
    /// element of HTML. `NoMemory` comes only where memory was refused.
    pub fn define(
        &mut self,
        alloc: Global,
        name: Text,
        class: ClassNo,
        facts: ClassFacts,
        base: Option<Text>,
    ) -> Result<DefNo, Refused>
        ensures { Defines result name class facts base self.old self.new }
    {
        match self.allowed(alloc, &name, class, &base) {
            Err(refused) => Err(refused),
            Ok(local) => self.add(
                alloc,
                Definition {
                    name,
                    local,
                    class,
                    facts,
                },
            ),
        }
    }

    // The local name of a definition, or why it is refused.
    fn allowed(
        &self,
        alloc: Global,
        name: &Text,
        class: ClassNo,
        base: &Option<Text>,
    ) -> Result<Text, Refused>
        ensures { Allows result self.now name.now class base.now }
    {
        let extends = base.as_ref().map(|t| t.as_str());
        if let Some(fault) = self.refusal(name.as_str(), class, extends) {
            return Err(Refused::Fault(fault));
        }
        let local = match base {
            None => name.copy(alloc)?,
            Some(t) => t.copy(alloc)?,
        };
        Ok(local)
    }

    // Puts a definition last, which no other has the name or the class of.
    fn add(&mut self, alloc: Global, d: Definition) -> Result<DefNo, Refused>
        requires name { by_name self.old d.name ≡ None }
        requires class { by_class self.old d.class ≡ None }
        ensures { Adds result d self.old self.new }
    {
        let count = self.entries.len();
        let number = DefNo(count as u64);
        self.entries.push(Entry::make(alloc, d)?)?;
        let entry = &self.entries[count];
        match note(alloc, &mut self.names, &mut self.classes, entry, number) {
            Ok(()) => Ok(number),
            Err(_) => {
                self.entries.truncate(count);
                Err(Refused::NoMemory)
            }
        }
    }

    /// Why `define` would refuse a definition: the fault of the first reason that holds. None exactly where it
    /// would add it.
    pub fn refusal(&self, name: &str, class: ClassNo, base: Option<&str>) -> Option<Fault>
        ensures { result ≡ may_define self.now name.now class (option_copied base.entry) }
    {
        if !is_custom_name(name) {
            return Some(Fault::SyntaxError);
        }
        if self.get(name).is_some() || self.by_class(class).is_some() || !may_extend(base) {
            return Some(Fault::NotSupportedError);
        }
        None
    }

    /// The definition with this name (HTML Standard, section "The CustomElementRegistry interface", `get`).
    /// None exactly where there is none.
    pub fn get(&self, name: &str) -> Option<DefNo>
        ensures { result ≡ by_name self.now name.now }
    {
        self.names.get(name).copied()
    }

    /// The definition with this class, as the base call of its constructor finds it (HTML Standard, section
    /// "HTML element constructors"). None exactly where there is none.
    pub fn by_class(&self, class: ClassNo) -> Option<DefNo>
        ensures { result ≡ by_class self.now class }
    {
        self.classes.get(&class.0).copied()
    }

    /// The definition with a number that the registry gave.
    pub fn definition(&self, d: DefNo) -> &Definition
        requires { d < length self.now }
        ensures { slice_get self.now d ≡ Some result.now }
    {
        self.entries[d.0 as usize].definition()
    }

    /// The definition with a number. None exactly where the registry did not give this number.
    pub fn at(&self, d: DefNo) -> Option<&Definition>
        ensures { option_copied result ≡ slice_get self.now d }
    {
        match self.entries.get(d.0 as usize) {
            None => None,
            Some(e) => Some(e.definition()),
        }
    }

    /// Whether a definition observes the attribute name (HTML Standard, section "Custom element reactions",
    /// "enqueue a custom element callback reaction"). One that the registry does not have observes none.
    pub fn observes(&self, d: DefNo, name: &str) -> bool
        ensures { result ≡ observes (slice_get self.now d) name.now }
    {
        match self.entries.get(d.0 as usize) {
            None => false,
            Some(e) => e.observes(name),
        }
    }

    /// Looks up a definition for the page's document: the one whose name and local name both are `local`,
    /// else the one whose name is the `is` value and whose local name is `local`. For another document there
    /// is none (HTML Standard, section "Core concepts", "look up a custom element definition"). None exactly
    /// where none is found.
    pub fn lookup(&self, in_page: bool, local: &str, is_value: Option<&str>) -> Option<DefNo>
        ensures { result ≡ lookup self.now in_page local.now (option_copied is_value.entry) }
    {
        if !in_page {
            return None;
        }
        match self.with_names(local, local) {
            Some(d) => Some(d),
            None => self.extending(local, is_value),
        }
    }

    fn extending(&self, local: &str, is_value: Option<&str>) -> Option<DefNo>
        ensures { result ≡ by_is_value self.now (option_copied is_value.entry) local.now }
    {
        match is_value {
            None => None,
            Some(value) => self.with_names(value, local),
        }
    }

    // The definition with this name, where it has this local name: no other one has the name.
    fn with_names(&self, name: &str, local: &str) -> Option<DefNo>
        ensures { result ≡ by_names self.now name.now local.now }
    {
        match self.names.get(name).copied() {
            None => None,
            Some(d) => {
                if has_local(&self.entries, d, local) {
                    Some(d)
                } else {
                    None
                }
            }
        }
    }
}

// Puts the number of a definition that comes last into both maps, or leaves them as they were.
fn note(
    alloc: Global,
    names: &mut BTreeMap<String, DefNo>,
    classes: &mut BTreeMap<u64, DefNo>,
    entry: &Entry,
    number: DefNo,
) -> Result<(), NoMemory>
    ensures ok { OnOk result (Follows names.old classes.old names.new classes.new entry.now number) }
    ensures err { OnErr result (Stays names.old classes.old names.new classes.new entry.now) }
{
    let class = entry.class_key();
    let name = entry.key(alloc)?;
    classes.insert(class, number)?;
    match names.insert(name, number) {
        Ok(_) => Ok(()),
        Err(_) => {
            classes.remove(&class);
            Err(NoMemory)
        }
    }
}

// Whether a definition can extend what it is to extend.
fn may_extend(base: Option<&str>) -> bool
    ensures { result ≡ may_extend (option_copied base.entry) }
{
    match base {
        None => true,
        Some(t) => !is_custom_name(t) && is_known_html(t),
    }
}

// Whether the definition has the local name.
fn has_local(entries: &[Entry], d: DefNo, local: &str) -> bool
    ensures { result ≡ has_local (slice_get entries.now d) local.now }
{
    match entries.get(d.0 as usize) {
        None => false,
        Some(e) => e.definition().local.as_str() == local,
    }
}
