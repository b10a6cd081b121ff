// An ordered map of texts.
ghost use Rattle.std.specs.Prelude.{◌≡◌, ◌++◌, ◌∷◌, [], None, length, option_copied, IfOk, OnOk, OnErr};
ghost use Rattle.std.specs.Option.{option_map};
ghost use Rattle.node_trees.specs.Facts.{value_in, with_value, without_value};

use ce_base::{NoMemory, Text};
use std::alloc::Global;
use std::collections::BTreeMap;
use std::marker::Model;

/// An ordered map of texts (Infra Standard, section "Ordered maps"). A contract sees the list of its names with their
/// values, in the order in which they came in. Each has a place, and the places rise; a second map finds the place of a name.
#[derive(Drop)]
pub struct TextMap {
    pairs: BTreeMap<u64, (Text, Text)>,
    places: BTreeMap<String, u64>,
    next: u64,
}

impl Model for TextMap {
    ghost use Rattle.std.specs.Prelude.{ℕ, List};
    ghost use Rattle.std.specs.Map.{values_of};
    ghost use Rattle.ordered_tables.specs.Found.{Finds};

    ghost Value = { List (List ℕ × List ℕ) };

    ghost view = { λ m. values_of m.pairs.entries };

    ghost invariant = { λ m. Finds (λ a. a.0) m.pairs m.places m.next };
}

// The value of a pair, where there is one.
fn value_of(pair: Option<(Text, Text)>) -> Option<Text>
    ensures { result ≡ option_map (λ a. a.1) pair }
{
    match pair {
        None => None,
        Some((_, value)) => Some(value),
    }
}

impl TextMap {
    /// The map of no name.
    pub fn make(alloc: Global) -> TextMap
        ensures { result ≡ [] }
    {
        TextMap {
            pairs: BTreeMap::new(alloc),
            places: BTreeMap::new(alloc),
            next: 0,
        }
    }

    /// How many names there are (Infra Standard, section "Ordered maps", "size").
    pub fn len(&self) -> usize
        ensures { result ≡ length self.now }
    {
        self.pairs.len()
    }

    /// The value of a name (Infra Standard, section "Ordered maps", "get the value"). None exactly where it is not
    /// there.
    pub fn get(&self, name: &str) -> Option<&str>
        ensures { option_copied result ≡ value_in self.now name.now }
    {
        let place = self.places.get(name)?;
        let pair = self.pairs.get(place)?;
        Some(pair.1.as_str())
    }

    /// Sets a value and answers the old one (Infra Standard, section "Ordered maps", "set the value"). A name that is
    /// there keeps its place, another comes last. NoMemory: memory was refused, or no place is left.
    pub fn set(&mut self, alloc: Global, name: Text, value: Text) -> Result<Option<Text>, NoMemory>
        ensures ok { OnOk result (self.new ≡ with_value name value self.old) }
        ensures was { IfOk result (λ old. old ≡ value_in self.old name) }
        ensures err { OnErr result (self.new ≡ self.old) }
    {
        let Some(&place) = self.places.get(name.as_str()) else {
            self.push(alloc, name, value)?;
            return Ok(None);
        };
        let old = self.pairs.insert(place, (name, value))?;
        Ok(value_of(old))
    }

    // Puts a name with its value behind the others, which is not among them.
    fn push(&mut self, alloc: Global, name: Text, value: Text) -> Result<(), NoMemory>
        requires { value_in self.old name ≡ None }
        ensures ok { OnOk result (self.new ≡ self.old ++ (name, value) ∷ []) }
        ensures err { OnErr result (self.new ≡ self.old) }
    {
        let place = self.next;
        let Some(next) = place.checked_add(1) else {
            return Err(NoMemory);
        };
        let key = String::from_str(alloc, name.as_str())?;
        self.pairs.insert(place, (name, value))?;
        if let Err(_) = self.places.insert(key, place) {
            self.pairs.remove(&place);
            return Err(NoMemory);
        }
        self.next = next;
        Ok(())
    }

    /// Removes a name and answers its value (Infra Standard, section "Ordered maps", "remove an entry"). None exactly
    /// where it is not there. It takes no memory.
    pub fn remove(&mut self, name: &str) -> Option<Text>
        ensures left { self.new ≡ without_value name.now self.old }
        ensures was { result ≡ value_in self.old name.now }
        ensures gone { value_in self.new name.now ≡ None }
    {
        let place = self.places.remove(name)?;
        value_of(self.pairs.remove(&place))
    }

    /// A copy of the names and values, in the order in which they came in. NoMemory: memory was refused.
    pub fn listed(&self, alloc: Global) -> Result<Vec<(Text, Text)>, NoMemory>
        ensures { IfOk result (λ list. list.items ≡ self.now) }
    {
        let mut list = Vec::new(alloc);
        for pair in self.pairs.values() {
            list.push((pair.0.copy(alloc)?, pair.1.copy(alloc)?))?;
        }
        Ok(list)
    }
}
