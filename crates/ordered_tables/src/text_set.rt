// An ordered set of texts.
ghost use Rattle.std.specs.Prelude.{◌≡◌, ◌++◌, ◌∷◌, [], false, if◌then◌else◌, bytes_eq, filter, not, IfOk, OnOk};
ghost use Rattle.std.specs.List.{list_any};

use ce_base::{NoMemory, Text, Texts};
use std::alloc::Global;
use std::collections::BTreeMap;
use std::marker::Model;

/// An ordered set of texts (Infra Standard, section "Ordered sets"). A contract sees them in the order of adding. Each
/// has a place, and the places rise; a second map finds the place of a text.
#[derive(Drop)]
pub struct TextSet {
    texts: BTreeMap<u64, Text>,
    places: BTreeMap<String, u64>,
    next: u64,
}

impl Model for TextSet {
    ghost use Rattle.std.specs.Prelude.{ℕ, List};
    ghost use Rattle.std.specs.Map.{values_of};
    ghost use Rattle.ordered_tables.specs.Found.{Finds};

    ghost Value = { List (List ℕ) };

    ghost view = { λ s. values_of s.texts.entries };

    ghost invariant = { λ s. Finds (λ t. t) s.texts s.places s.next };
}

impl TextSet {
    /// The set of no text.
    pub fn make(alloc: Global) -> TextSet
        ensures { result ≡ [] }
    {
        TextSet {
            texts: BTreeMap::new(alloc),
            places: BTreeMap::new(alloc),
            next: 0,
        }
    }

    /// Whether a text is in the set (Infra Standard, section "Lists", "contain").
    pub fn has(&self, s: &str) -> bool
        ensures { result ≡ list_any (bytes_eq s.now) self.now }
    {
        self.places.contains_key(s)
    }

    /// Adds a text behind the others; one that is there stays where it is (Infra Standard, section "Ordered sets",
    /// "append"). NoMemory: memory was refused, or no place is left.
    pub fn add(&mut self, alloc: Global, t: Text) -> Result<(), NoMemory>
        ensures { OnOk result (self.new ≡ (if list_any (bytes_eq t) self.old then self.old else self.old ++ t ∷ [])) }
    {
        if self.has(t.as_str()) {
            return Ok(());
        }
        self.push(alloc, t)
    }

    // Puts a text behind the others, which is not among them.
    fn push(&mut self, alloc: Global, t: Text) -> Result<(), NoMemory>
        requires { list_any (bytes_eq t) self.old ≡ false }
        ensures { OnOk result (self.new ≡ self.old ++ t ∷ []) }
    {
        let place = self.next;
        let Some(next) = place.checked_add(1) else {
            return Err(NoMemory);
        };
        let key = String::from_str(alloc, t.as_str())?;
        self.texts.insert(place, t)?;
        if let Err(_) = self.places.insert(key, place) {
            self.texts.remove(&place);
            return Err(NoMemory);
        }
        self.next = next;
        Ok(())
    }

    /// Removes a text, where it is there (Infra Standard, section "Lists", "remove"). It takes no memory.
    pub fn remove(&mut self, s: &str)
        ensures { self.new ≡ filter (λ t. not (bytes_eq t s.now)) self.old }
    {
        let Some(place) = self.places.remove(s) else {
            return;
        };
        self.texts.remove(&place);
    }

    /// Removes all texts (Infra Standard, section "Lists", "empty"). It takes no memory.
    pub fn clear(&mut self)
        ensures { self.new ≡ [] }
    {
        self.texts.clear();
        self.places.clear();
        self.next = 0;
    }

    /// The texts as a list, in the order of adding. NoMemory: memory was refused.
    pub fn listed(&self, alloc: Global) -> Result<Texts, NoMemory>
        ensures { IfOk result (λ ts. ts ≡ self.now) }
    {
        let mut list = Texts::make(alloc);
        for text in self.texts.values() {
            list.push(alloc, text.copy(alloc)?)?;
        }
        Ok(list)
    }
}
