// A list of entries.
ghost use Rattle.std.specs.Prelude.{◌≡◌, ◌++◌, ◌∷◌, [], length, All, IfOk, OnOk, option_copied, slice_get};
ghost use Rattle.ce_base.specs.Texts.{HasTexts};

use crate::{NoMemory, Text};
use std::alloc::Global;
use std::marker::Model;

/// A name and its value, as an entry list has them (HTML Standard, section "Constructing the entry
/// list").
#[derive(Drop)]
pub struct Entry {
    /// The name that the value is sent under.
    pub name: Text,
    /// What is sent.
    pub value: Text,
}

impl Entry {
    /// A second entry with the same name and value. NoMemory: memory was refused.
    pub fn copy(&self, alloc: Global) -> Result<Entry, NoMemory>
        ensures { IfOk result (λ e. e ≡ self.now) }
    {
        Ok(Entry {
            name: self.name.copy(alloc)?,
            value: self.value.copy(alloc)?,
        })
    }

    // Tells that the name and the value are texts. It does nothing.
    fn has_texts(&self)
        ensures { HasTexts self.now }
    {
        let _name = self.name.as_str();
        let _value = self.value.as_str();
    }
}

/// A list of entries, whose names and values are UTF-8.
#[derive(Drop)]
pub struct Entries {
    items: Vec<Entry>,
}

impl Model for Entries {
    ghost use Rattle.std.specs.Prelude.{All, List};
    ghost use Rattle.ce_base.specs.Texts.{HasTexts};
    ghost use Rattle.ce_base.specs.declared.entries.Entry.{Entry};

    ghost Value = { List Entry };

    ghost view = { λ e. e.items.items };

    ghost invariant = { λ e. All HasTexts e.items.items };
}

impl Entries {
    /// No entries.
    pub fn make(alloc: Global) -> Entries
        ensures { result ≡ [] }
    {
        Entries {
            items: Vec::new(alloc),
        }
    }

    /// Puts an entry at the end. NoMemory: memory was refused, and the list is only dropped.
    pub fn push(&mut self, alloc: Global, e: Entry) -> Result<(), NoMemory>
        ensures { OnOk result (self.new ≡ self.old ++ e ∷ []) }
    {
        e.has_texts();
        self.items.push(e)?;
        Ok(())
    }

    /// How many entries there are.
    pub fn len(&self) -> usize
        ensures { result ≡ length self.now }
    {
        self.items.len()
    }

    /// The entry at a place, from 0. None exactly where the list ends before it.
    pub fn get(&self, i: usize) -> Option<&Entry>
        ensures { option_copied result ≡ slice_get self.now i }
    {
        self.items.get(i)
    }

    /// The entries, borrowed.
    pub fn as_slice(&self) -> &[Entry]
        ensures same { result.now ≡ self.now }
        ensures texts { All HasTexts self.now }
    {
        self.items.as_slice()
    }

    /// A second list with the same entries. NoMemory: memory was refused.
    pub fn copy(&self, alloc: Global) -> Result<Entries, NoMemory>
        ensures { IfOk result (λ e. e ≡ self.now) }
    {
        let mut items = Vec::new(alloc);
        for e in &self.items {
            items.push(e.copy(alloc)?)?;
        }
        Ok(Entries { items })
    }
}
