// A list of changes.
ghost use Rattle.std.specs.Prelude.{◌≡◌, ◌+◌, ◌<◌, ◌++◌, ◌∷◌, [], Some, drop, filter, length, slice_get, OnOk};
ghost use Rattle.std.specs.Option.{option_to_list};
ghost use Rattle.form_owner.specs.Told.{AreRising, if_of, is_of};

use ce_base::{NoMemory, NodeNo};
use form_controls::Change;
use std::alloc::Global;
use std::marker::Model;

/// What became of form owners and disabled states, an element at a time, in the order of the elements' numbers.
#[derive(Drop)]
pub struct Changes {
    items: Vec<Change>,
}

impl Model for Changes {
    ghost use Rattle.std.specs.Prelude.{List};
    ghost use Rattle.form_controls.specs.declared.change.Change.{Change};

    ghost Value = { List Change };

    ghost view = { λ c. c.items.items };
}

impl Changes {
    pub(crate) fn make(alloc: Global) -> Changes
        ensures { result ≡ [] }
    {
        Changes {
            items: Vec::new(alloc),
        }
    }

    pub(crate) fn push(
        &mut self,
        node: NodeNo,
        owner: Option<Option<NodeNo>>,
        disabled: Option<bool>,
    ) -> Result<(), NoMemory>
        ensures { OnOk result (self.new ≡ self.old ++ (record { node = node; owner = owner; disabled = disabled }) ∷ []) }
    {
        self.items.push(Change {
            node,
            owner,
            disabled,
        })?;
        Ok(())
    }

    /// How many there are.
    pub fn len(&self) -> usize
        ensures { result ≡ length self.now }
    {
        self.items.len()
    }

    /// The change at a place, from 0. None exactly where the list ends before it.
    pub fn get(&self, i: usize) -> Option<Change>
        ensures { result ≡ slice_get self.now i }
    {
        self.items.get(i).copied()
    }

    /// The change at a place, from 0.
    pub fn at(&self, i: usize) -> &Change
        requires { i < length self.now }
        ensures here { slice_get self.now i ≡ Some result.now }
        ensures rest { drop i self.now ≡ result.now ∷ drop (i + 1) self.now }
    {
        &self.items[i]
    }

    /// The change of a node. None exactly where nothing is said of it.
    pub fn of(&self, n: NodeNo) -> Option<Change>
        requires { AreRising self.now }
        ensures { filter (is_of n) self.now ≡ option_to_list result }
    {
        let place = place_for(&self.items, n);
        match self.items.get(place) {
            None => None,
            Some(c) => { if c.node == n { Some(*c) } else { None } }
        }
    }
}

/// Where a node's change stands among changes, if there is one.
fn place_for(changes: &[Change], n: NodeNo) -> usize
    requires { AreRising changes.now }
    ensures { filter (is_of n) changes.now ≡ if_of n (slice_get changes.now result) }
{
    changes.partition_point(|c| c.node.0 < n.0)
}
