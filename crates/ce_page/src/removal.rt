// Removal.
ghost use Rattle.std.specs.Prelude.{◌≡◌, ◌+◌, ◌<◌, ◌^◌, IsSome, OnOk};
ghost use Rattle.node_trees.specs.Spots.{parent_at};
ghost use Rattle.node_trees.specs.Nodes.{IsNode};
ghost use Rattle.node_trees.specs.Orders.{order_of};
ghost use Rattle.form_owner.specs.Told.{AreOfNodes, AreRising};
ghost use Rattle.ce_algorithms.specs.Steps.{for_each};
ghost use Rattle.ce_algorithms.specs.Mutation.{is_connected_parent, removed, remove};
ghost use Rattle.ce_page.specs.Ends.{Does, NeverRefuses, work};
ghost use Rattle.ce_page.specs.Numbers.{StaysWithin, OnlyEnqueues};
ghost use Rattle.ce_page.specs.Loose.{IsLoosed};
ghost use Rattle.ce_page.specs.Settled.{KeepsSettled};
ghost use Rattle.ce_page.specs.Telling.{Tells, told};

use crate::telling::is_unheard;
use crate::walk::node_at;
use crate::{Page, PageStop};
use ce_base::{Fuel, NodeNo, Nodes};
use form_owner::Changes;
use reaction_queue::Reaction;
use std::alloc::Global;

impl Page {
    /// Takes a node that has a parent, with all below it, out of its parent's children (DOM Standard, section
    /// "Mutation algorithms", "remove"). Then for each node of its shadow-including order: a custom
    /// form-associated element is told of what has changed of its form owner and its disabled state, and a
    /// custom element that it was disconnected, where the parent was connected. Last come the other custom
    /// form-associated elements for which something has changed, in the order of their numbers.
    pub fn remove_node(
        &mut self,
        alloc: Global,
        node: NodeNo,
        fuel: &mut Fuel,
    ) -> Result<(), PageStop>
        requires node { IsNode self.old.forest node }
        requires placed { IsSome (parent_at self.old.forest node) }
        requires room { self.old.queues.reactions + fuel.old < 2 ^ 64 }
        ensures step { Does result (work self.new fuel.new) (remove node (work self.old fuel.old)) }
        ensures told { Tells result self.old self.new }
        ensures within { StaysWithin self.old self.new fuel.old fuel.new }
        ensures loose { OnOk result (IsLoosed self.old.forest self.new.forest node) }
        ensures settled { OnOk result (KeepsSettled self.old self.new) }
        ensures refused { NeverRefuses result }
    {
        let was = self.is_parent_connected(node);
        let changes = self.cut(alloc, node)?;
        if is_unheard(&changes, was) {
            return Ok(());
        }
        self.tell_removal(alloc, node, &changes, was, fuel)
    }

    /// Whether the parent of a node is connected. Where there is none, it is not.
    fn is_parent_connected(&self, node: NodeNo) -> bool
        requires { IsNode self.now.forest node }
        ensures { result ≡ is_connected_parent self.now (parent_at self.now.forest node) }
    {
        match self.tree.parent(node) {
            Some(parent) => self.tree.is_connected(parent),
            None => false,
        }
    }

    /// Each node of a removed tree has its turn, and then the others of whom something is said.
    fn tell_removal(
        &mut self,
        alloc: Global,
        node: NodeNo,
        changes: &Changes,
        was: bool,
        fuel: &mut Fuel,
    ) -> Result<(), PageStop>
        requires node { IsNode self.old.forest node }
        requires changes { AreOfNodes self.old.forest changes.now }
        requires room { self.old.queues.reactions + fuel.old < 2 ^ 64 }
        ensures step { Does result (work self.new fuel.new)
            (told (removed changes.now was) changes.now (order_of self.old.forest node) (order_of self.old.forest node) (work self.old fuel.old)) }
        ensures within { StaysWithin self.old self.new fuel.old fuel.new }
        ensures rest { OnlyEnqueues self.old self.new }
        ensures refused { NeverRefuses result }
    {
        let walk = self.tree.shadow_order(alloc, node)?;
        self.tell_removed(alloc, &walk, changes, was, fuel)?;
        self.tell_outside(alloc, changes, node, fuel)
    }

    /// Each node of a removed tree has its turn.
    fn tell_removed(
        &mut self,
        alloc: Global,
        walk: &Nodes,
        changes: &Changes,
        was: bool,
        fuel: &mut Fuel,
    ) -> Result<(), PageStop>
        requires rising { AreRising changes.now }
        requires room { self.old.queues.reactions + fuel.old < 2 ^ 64 }
        ensures step { Does result (work self.new fuel.new)
            (for_each walk.now (removed changes.now was) (work self.old fuel.old)) }
        ensures within { StaysWithin self.old self.new fuel.old fuel.new }
        ensures rest { OnlyEnqueues self.old self.new }
        ensures refused { NeverRefuses result }
    {
        for i in 0..walk.len() {
            let n = node_at(walk, i);
            self.removed(alloc, n, changes, was, fuel)?;
        }
        Ok(())
    }

    /// One node of a removed tree.
    fn removed(
        &mut self,
        alloc: Global,
        n: NodeNo,
        changes: &Changes,
        was: bool,
        fuel: &mut Fuel,
    ) -> Result<(), PageStop>
        requires rising { AreRising changes.now }
        requires room { self.old.queues.reactions + fuel.old < 2 ^ 64 }
        ensures step { Does result (work self.new fuel.new)
            (removed changes.now was n (work self.old fuel.old)) }
        ensures within { StaysWithin self.old self.new fuel.old fuel.new }
        ensures rest { OnlyEnqueues self.old self.new }
        ensures refused { NeverRefuses result }
    {
        self.tell_at_turn(alloc, changes, n, fuel)?;
        if was {
            self.tell(alloc, n, Reaction::Disconnected, fuel)
        } else {
            Ok(())
        }
    }
}
