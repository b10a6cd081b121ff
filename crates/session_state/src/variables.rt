// The variables of a session.
ghost use Rattle.std.specs.Prelude.{◌≡◌, ◌<◌, ◌≤◌, ◌++◌, ◌∷◌, [], length, max, None, IfSome, OnOk};
ghost use Rattle.ce_algorithms.specs.State.{value_of, with_variable};
ghost use Rattle.session_state.specs.Variables.{highest, place};

use ce_base::{NoMemory, NodeNo, Text};
use std::alloc::Global;
use std::collections::BTreeMap;
use std::marker::Model;

/// The variables of a session, each with the node that it holds. A contract sees them in the order of first
/// setting; a map finds their places by their names.
#[derive(Drop)]
pub(crate) struct Variables {
    items: Vec<(Text, NodeNo)>,
    places: BTreeMap<String, usize>,
}

impl Model for Variables {
    ghost use Rattle.std.specs.Prelude.{ℕ, List};
    ghost use Rattle.session_state.specs.Variables.{ArePositive, Finds};

    ghost Value = { List (List ℕ × ℕ) };

    ghost view = { λ v. v.items.items };

    ghost invariant = { λ v. ArePositive v.items.items × Finds v.places v.items.items };
}

impl Variables {
    /// No variables.
    pub(crate) fn make(alloc: Global) -> Variables
        ensures { result ≡ [] }
    {
        Variables {
            items: Vec::new(alloc),
            places: BTreeMap::new(alloc),
        }
    }

    // The place of a variable. None exactly where it was not set.
    fn place_of(&self, name: &str) -> Option<usize>
        ensures place { result ≡ place name.now self.now }
        ensures within { IfSome result (λ i. i < length self.now) }
    {
        self.places.get(name).copied()
    }

    /// The node that a variable holds. None exactly where it was not set.
    pub(crate) fn get(&self, name: &str) -> Option<NodeNo>
        ensures value { result ≡ value_of self.now name.now }
        ensures made { IfSome result (λ n. (0 < n) × (n ≤ highest self.now)) }
    {
        match self.place_of(name) {
            None => None,
            Some(i) => Some(self.items[i].1),
        }
    }

    /// Sets a variable.
    pub(crate) fn set(&mut self, name: Text, n: NodeNo) -> Result<(), NoMemory>
        requires { 0 < n }
        ensures set { OnOk result (self.new ≡ with_variable name n self.old) }
        ensures highest { highest self.new ≤ max n (highest self.old) }
    {
        match self.place_of(name.as_str()) {
            None => self.add(name, n),
            Some(i) => {
                self.items[i] = (name, n);
                Ok(())
            }
        }
    }

    // Puts a variable behind the others, which was not set.
    fn add(&mut self, name: Text, n: NodeNo) -> Result<(), NoMemory>
        requires positive { 0 < n }
        requires new { place name self.old ≡ None }
        ensures added { OnOk result (self.new ≡ self.old ++ (name, n) ∷ []) }
        ensures highest { highest self.new ≤ max n (highest self.old) }
    {
        let key = String::from_str(*self.items.allocator(), name.as_str())?;
        let count = self.items.len();
        self.items.push((name, n))?;
        if let Err(_) = self.places.insert(key, count) {
            self.items.truncate(count);
            return Err(NoMemory);
        }
        Ok(())
    }
}
