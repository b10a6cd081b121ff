// An element's attributes.
ghost use Rattle.std.specs.Prelude.{◌≡◌, ◌≤◌, [], None, true, length, option_copied, IfOk, OnOk, OnErr};
ghost use Rattle.node_trees.specs.Facts.{value_in, with_value, without_value};
ghost use Rattle.node_arena.specs.Attributes.{is_once, name_place};

use ce_base::{NoMemory, Text};
use ordered_tables::TextMap;
use std::alloc::Global;
use std::marker::Model;
use std::mem;

// How many attributes are found by going through them. More are kept in a map.
const FEW: usize = 8;

/// Names with their values, in the order in which they came in. A contract sees the list of the pairs. A few stand in a
/// list. Once there were more they stand in a map, and stay there.
#[derive(Drop)]
pub(crate) struct Attributes {
    kept: Kept,
}

// How they are kept.
#[derive(Drop)]
enum Kept {
    Few(Vec<(Text, Text)>),
    Many(Box<TextMap>),
}

impl Model for Attributes {
    ghost use Rattle.std.specs.Prelude.{ℕ, List};

    ghost Value = { List (List ℕ × List ℕ) };

    ghost use Rattle.node_arena.specs.Attributes.{pairs_of, IsOnce};

    ghost view = { λ a. pairs_of a.kept };

    ghost invariant = { λ a. IsOnce a.kept };
}

/// The first place of a name, or the length where it is not there.
fn place_of(items: &[(Text, Text)], name: &str) -> usize
    ensures within { result ≤ length items.now }
    ensures place { result ≡ name_place name.now items.now }
{
    for (i, item) in items.iter().enumerate() {
        if item.0.as_str() == name {
            return i;
        }
    }
    items.len()
}

// The value of a name among a few. None exactly where it is not there.
fn get_few<'a>(items: &'a [(Text, Text)], name: &str) -> Option<&'a str>
    ensures { option_copied result ≡ value_in items.now name.now }
{
    let at = place_of(items, name);
    if at < items.len() {
        return Some(items[at].1.as_str());
    }
    None
}

// Sets a value among a few. A name that is there keeps its place, another comes last.
fn set_few(items: &mut Vec<(Text, Text)>, name: Text, value: Text) -> Result<Option<Text>, NoMemory>
    ensures ok { OnOk result (items.new.items ≡ with_value name value items.old.items) }
    ensures was { IfOk result (λ old. old ≡ value_in items.old.items name) }
    ensures err { OnErr result (items.new.items ≡ items.old.items) }
{
    let at = place_of(items.as_slice(), name.as_str());
    if at < items.len() {
        return Ok(Some(mem::replace(&mut items[at].1, value)));
    }
    items.push((name, value))?;
    Ok(None)
}

// Takes a name away from a few. None exactly where it is not there.
fn remove_few(items: &mut Vec<(Text, Text)>, name: &str) -> Option<Text>
    requires { is_once items.old.items ≡ true }
    ensures once { is_once items.new.items ≡ true }
    ensures left { items.new.items ≡ without_value name.now items.old.items }
    ensures was { result ≡ value_in items.old.items name.now }
    ensures gone { value_in items.new.items name.now ≡ None }
{
    let at = place_of(items.as_slice(), name);
    if at < items.len() {
        let (_, value) = items.remove(at);
        return Some(value);
    }
    None
}

// A second list of the same names and values.
fn list_few(alloc: Global, items: &[(Text, Text)]) -> Result<Vec<(Text, Text)>, NoMemory>
    ensures { IfOk result (λ list. list.items ≡ items.now) }
{
    let mut list = Vec::new(alloc);
    for item in items {
        let name = item.0.copy(alloc)?;
        let value = item.1.copy(alloc)?;
        list.push((name, value))?;
    }
    Ok(list)
}

// The same names and values in a map.
fn map_few(alloc: Global, items: &[(Text, Text)]) -> Result<TextMap, NoMemory>
    requires { is_once items.now ≡ true }
    ensures { IfOk result (λ map. map ≡ items.now) }
{
    let mut map = TextMap::make(alloc);
    for item in items {
        let name = item.0.copy(alloc)?;
        let value = item.1.copy(alloc)?;
        map.set(alloc, name, value)?;
    }
    Ok(map)
}

// Whether a list has no room for a name, which is not in it.
fn is_full(items: &[(Text, Text)], name: &str) -> bool {
    items.len() >= FEW && place_of(items, name) == items.len()
}

impl Attributes {
    pub(crate) fn make(alloc: Global) -> Attributes
        ensures { result ≡ [] }
    {
        Attributes {
            kept: Kept::Few(Vec::new(alloc)),
        }
    }

    pub(crate) fn len(&self) -> usize
        ensures { result ≡ length self.now }
    {
        match &self.kept {
            Kept::Few(items) => items.len(),
            Kept::Many(map) => map.len(),
        }
    }

    /// The value of a name. None exactly where it is not there.
    pub(crate) fn get(&self, name: &str) -> Option<&str>
        ensures { option_copied result ≡ value_in self.now name.now }
    {
        match &self.kept {
            Kept::Few(items) => get_few(items, name),
            Kept::Many(map) => map.get(name),
        }
    }

    /// Sets a value. A name that is there keeps its place, another comes last.
    pub(crate) fn set(
        &mut self,
        alloc: Global,
        name: Text,
        value: Text,
    ) -> Result<Option<Text>, NoMemory>
        ensures ok { OnOk result (self.new ≡ with_value name value self.old) }
        ensures was { IfOk result (λ old. old ≡ value_in self.old name) }
        ensures err { OnErr result (self.new ≡ self.old) }
    {
        self.make_room(alloc, name.as_str())?;
        match &mut self.kept {
            Kept::Few(items) => set_few(items, name, value),
            Kept::Many(map) => map.set(alloc, name, value),
        }
    }

    // Where a list has no room for a name, its names and values go into a map.
    fn make_room(&mut self, alloc: Global, name: &str) -> Result<(), NoMemory>
        ensures { self.new ≡ self.old }
    {
        let Kept::Few(items) = &self.kept else {
            return Ok(());
        };
        let items = items.as_slice();
        if !is_full(items, name) {
            return Ok(());
        }
        let map = map_few(alloc, items)?;
        self.kept = Kept::Many(Box::new(alloc, map)?);
        Ok(())
    }

    /// Takes a name away. None exactly where it is not there.
    pub(crate) fn remove(&mut self, name: &str) -> Option<Text>
        ensures left { self.new ≡ without_value name.now self.old }
        ensures was { result ≡ value_in self.old name.now }
        ensures gone { value_in self.new name.now ≡ None }
    {
        match &mut self.kept {
            Kept::Few(items) => remove_few(items, name),
            Kept::Many(map) => map.remove(name),
        }
    }

    /// A copy of the names and values, in their order.
    pub(crate) fn listed(&self, alloc: Global) -> Result<Vec<(Text, Text)>, NoMemory>
        ensures { IfOk result (λ list. list.items ≡ self.now) }
    {
        match &self.kept {
            Kept::Few(items) => list_few(alloc, items),
            Kept::Many(map) => map.listed(alloc),
        }
    }
}
