// Insertion.
ghost use Rattle.std.specs.Prelude.{◌≡◌, ◌+◌, ◌<◌, ◌^◌, None, false, All, OnOk};
ghost use Rattle.node_trees.specs.Spots.{document_at, parent_at};
ghost use Rattle.node_trees.specs.Paths.{connected};
ghost use Rattle.node_trees.specs.Insertion.{may_insert};
ghost use Rattle.node_trees.specs.Nodes.{IsNode, IsNodeOrNone};
ghost use Rattle.node_trees.specs.Orders.{order_of};
ghost use Rattle.node_trees.specs.Kinds.{KeepsKinds};
ghost use Rattle.node_trees.specs.Links.{KeepsApart, KeepsSpots};
ghost use Rattle.form_owner.specs.Told.{AreOfNodes, AreRising};
ghost use Rattle.ce_algorithms.specs.Page.{Work, is_custom};
ghost use Rattle.ce_algorithms.specs.Steps.{Goes, for_each};
ghost use Rattle.ce_algorithms.specs.Mutation.{adopt, connected_now, inserted, pre_insert, put_in, reference_child};
ghost use Rattle.ce_page.specs.Ends.{Does, Keeps, NeverRefuses, work};
ghost use Rattle.ce_page.specs.Numbers.{StaysWithin, OnlyEnqueues};
ghost use Rattle.ce_page.specs.Settled.{KeepsSettled};
ghost use Rattle.ce_page.specs.Telling.{Tells, told};

use crate::telling::is_unheard;
use crate::walk::node_at;
use crate::{NodeKind, Page, PageStop};
use ce_base::{Fuel, NodeNo, Nodes};
use form_owner::Changes;
use reaction_queue::Reaction;
use std::alloc::Global;

impl Page {
    /// Inserts a node among the children of a parent, before one of them or at the end (DOM Standard,
    /// section "Mutation algorithms", "pre-insert"). It is refused with the fault that `Tree::may_insert`
    /// gives, and then nothing has changed. Else the node is adopted into the parent's document and put
    /// in, and then each node of its shadow-including order has its turn: a custom form-associated element
    /// is told of what has changed of its form owner and its disabled state; where it is connected, a custom
    /// element is told so, and another element is tried to upgrade. Last come the other custom
    /// form-associated elements for which something has changed, in the order of their numbers.
    pub fn insert_node(
        &mut self,
        alloc: Global,
        parent: NodeNo,
        node: NodeNo,
        before: Option<NodeNo>,
        fuel: &mut Fuel,
    ) -> Result<(), PageStop>
        requires parent { IsNode self.old.forest parent }
        requires node { IsNode self.old.forest node }
        requires before { IsNodeOrNone self.old.forest before }
        requires room { self.old.queues.reactions + fuel.old < 2 ^ 64 }
        ensures step { Does result (work self.new fuel.new) (pre_insert parent node before (work self.old fuel.old)) }

        // What the insertion itself tells, from the page behind the adoption.
        ensures told { (mid : Work) → Goes tt mid ≡ adopt (document_at self.old.forest parent) node (work self.old fuel.old) → Tells result mid.page self.new }
        ensures within { StaysWithin self.old self.new fuel.old fuel.new }
        ensures settled { OnOk result (KeepsSettled self.old self.new) }
        ensures refused { Keeps result self.old self.new }
    {
        let child = self.reference_child(node, &before);
        self.tree.may_insert(parent, node, before)?;
        let document = self.tree.document(parent);
        self.adopt_node(alloc, document, node, fuel)?;
        self.put_in(alloc, parent, node, child, fuel)
    }

    /// The child to insert before: where it is the node itself, its next sibling.
    fn reference_child(&self, node: NodeNo, before: &Option<NodeNo>) -> Option<NodeNo>
        requires node { IsNode self.now.forest node }
        requires before { IsNodeOrNone self.now.forest before.now }
        ensures child { result ≡ reference_child self.now.forest node before.now }
        ensures made { IsNodeOrNone self.now.forest result }
    {
        match before {
            None => None,
            Some(child) => {
                if *child == node {
                    self.tree.next_sibling(node)
                } else {
                    Some(*child)
                }
            }
        }
    }

    /// Puts in a node that stands nowhere.
    fn put_in(
        &mut self,
        alloc: Global,
        parent: NodeNo,
        node: NodeNo,
        before: Option<NodeNo>,
        fuel: &mut Fuel,
    ) -> Result<(), PageStop>
        requires parent { IsNode self.old.forest parent }
        requires node { IsNode self.old.forest node }
        requires before { IsNodeOrNone self.old.forest before }
        requires may { may_insert self.old.forest parent node before ≡ None }
        requires free { parent_at self.old.forest node ≡ None }
        requires room { self.old.queues.reactions + fuel.old < 2 ^ 64 }
        ensures step { Does result (work self.new fuel.new) (put_in parent node before (work self.old fuel.old)) }
        ensures told { Tells result self.old self.new }
        ensures within { StaysWithin self.old self.new fuel.old fuel.new }
        ensures settled { OnOk result (KeepsSettled self.old self.new) }
        ensures refused { NeverRefuses result }
    {
        let changes = self.graft(alloc, parent, node, before)?;
        let now = self.tree.is_connected(node);
        if is_unheard(&changes, now) {
            return Ok(());
        }
        self.tell_insertion(alloc, node, &changes, now, fuel)
    }

    /// Puts a node that stands nowhere at the end of a parent that is not connected. So nobody is told that it was
    /// connected.
    pub(crate) fn put_apart(
        &mut self,
        alloc: Global,
        parent: NodeNo,
        node: NodeNo,
        fuel: &mut Fuel,
    ) -> Result<(), PageStop>
        requires parent { IsNode self.old.forest parent }
        requires node { IsNode self.old.forest node }
        requires may { may_insert self.old.forest parent node None ≡ None }
        requires free { parent_at self.old.forest node ≡ None }
        requires apart { connected self.old.forest parent ≡ false }
        requires loose { connected self.old.forest node ≡ false }
        requires room { self.old.queues.reactions + fuel.old < 2 ^ 64 }
        ensures step { Does result (work self.new fuel.new) (put_in parent node None (work self.old fuel.old)) }
        ensures within { StaysWithin self.old self.new fuel.old fuel.new }
        ensures others { OnOk result (KeepsSpots parent node self.old.forest self.new.forest) }
        ensures kinds { KeepsKinds self.old.forest self.new.forest }
        ensures apart { OnOk result (KeepsApart self.old.forest self.new.forest) }
        ensures refused { NeverRefuses result }
    {
        let changes = self.graft(alloc, parent, node, None)?;
        self.tell_insertion(alloc, node, &changes, false, fuel)
    }

    /// Each node of an inserted tree has its turn, and then the others of whom something is said.
    fn tell_insertion(
        &mut self,
        alloc: Global,
        node: NodeNo,
        changes: &Changes,
        now: bool,
        fuel: &mut Fuel,
    ) -> Result<(), PageStop>
        requires node { IsNode self.old.forest node }
        requires connected { connected self.old.forest node ≡ now }
        requires changes { AreOfNodes self.old.forest changes.now }
        requires room { self.old.queues.reactions + fuel.old < 2 ^ 64 }
        ensures step { Does result (work self.new fuel.new)
            (told (inserted changes.now) changes.now (order_of self.old.forest node) (order_of self.old.forest node) (work self.old fuel.old)) }
        ensures within { StaysWithin self.old self.new fuel.old fuel.new }
        ensures rest { OnlyEnqueues self.old self.new }
        ensures refused { NeverRefuses result }
    {
        let walk = self.tree.shadow_order(alloc, node)?;
        self.tell_inserted(alloc, &walk, changes, now, fuel)?;
        self.tell_outside(alloc, changes, node, fuel)
    }

    /// Each node of an inserted tree has its turn. All of them are connected, or none is.
    fn tell_inserted(
        &mut self,
        alloc: Global,
        walk: &Nodes,
        changes: &Changes,
        now: bool,
        fuel: &mut Fuel,
    ) -> Result<(), PageStop>
        requires nodes { All (IsNode self.old.forest) walk.now }
        requires connected { All (λ m. connected self.old.forest m ≡ now) walk.now }
        requires rising { AreRising changes.now }
        requires room { self.old.queues.reactions + fuel.old < 2 ^ 64 }
        ensures step { Does result (work self.new fuel.new) (for_each walk.now (inserted changes.now) (work self.old fuel.old)) }
        ensures within { StaysWithin self.old self.new fuel.old fuel.new }
        ensures rest { OnlyEnqueues self.old self.new }
        ensures refused { NeverRefuses result }
    {
        for i in 0..walk.len() {
            let n = node_at(walk, i);
            self.inserted(alloc, n, changes, now, fuel)?;
        }
        Ok(())
    }

    /// One node of an inserted tree.
    fn inserted(
        &mut self,
        alloc: Global,
        n: NodeNo,
        changes: &Changes,
        now: bool,
        fuel: &mut Fuel,
    ) -> Result<(), PageStop>
        requires node { IsNode self.old.forest n }
        requires connected { connected self.old.forest n ≡ now }
        requires rising { AreRising changes.now }
        requires room { self.old.queues.reactions + fuel.old < 2 ^ 64 }
        ensures step { Does result (work self.new fuel.new) (inserted changes.now n (work self.old fuel.old)) }
        ensures within { StaysWithin self.old self.new fuel.old fuel.new }
        ensures rest { OnlyEnqueues self.old self.new }
        ensures refused { NeverRefuses result }
    {
        self.tell_at_turn(alloc, changes, n, fuel)?;
        if now {
            self.connected_now(alloc, n, fuel)
        } else {
            Ok(())
        }
    }

    /// What a node that is connected now comes to: a custom element is told so, and another element is tried to upgrade.
    fn connected_now(&mut self, alloc: Global, n: NodeNo, fuel: &mut Fuel) -> Result<(), PageStop>
        requires node { IsNode self.old.forest n }
        requires room { self.old.queues.reactions + fuel.old < 2 ^ 64 }
        ensures step { Does result (work self.new fuel.new) (connected_now n (is_custom self.old n) (work self.old fuel.old)) }
        ensures within { StaysWithin self.old self.new fuel.old fuel.new }
        ensures rest { OnlyEnqueues self.old self.new }
        ensures refused { NeverRefuses result }
    {
        if self.is_custom(n) {
            return self.enqueue_call(alloc, n, Reaction::Connected, fuel);
        }
        if self.tree.kind(n) == NodeKind::Element {
            return self.try_upgrade(alloc, n, fuel);
        }
        Ok(())
    }
}
