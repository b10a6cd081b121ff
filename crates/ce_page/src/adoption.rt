// Adoption.
ghost use Rattle.std.specs.Prelude.{◌≡◌, ◌+◌, ◌<◌, ◌^◌, ◌∷◌, [], ℕ, All, None, OnOk, is_some};
ghost use Rattle.node_trees.specs.Trees.{with_document};
ghost use Rattle.node_trees.specs.Spots.{parent_at};
ghost use Rattle.node_trees.specs.Orders.{order_of};
ghost use Rattle.node_trees.specs.Nodes.{IsNode};
ghost use Rattle.ce_algorithms.specs.Steps.{Goes, for_each, where_is};
ghost use Rattle.ce_algorithms.specs.Page.{with_forest};
ghost use Rattle.ce_algorithms.specs.Mutation.{adopt, adopted, move_to, remove};
ghost use Rattle.ce_page.specs.Ends.{Does, NeverRefuses, work};
ghost use Rattle.ce_page.specs.Numbers.{StaysWithin, OnlyEnqueues};
ghost use Rattle.ce_page.specs.Copies.{OnlyMoves};
ghost use Rattle.ce_page.specs.Loose.{IsLoosed, SamePlaces, move_one};
ghost use Rattle.ce_page.specs.Settled.{KeepsSettled};

use crate::walk::node_at;
use crate::{Page, PageStop};
use ce_base::{Fuel, NodeNo, Nodes};
use reaction_queue::Reaction;
use std::alloc::Global;

impl Page {
    /// Adopts a node, with all below it, into a document (DOM Standard, section "Interface Document",
    /// "adopt"): a node with a parent is removed first. Where its node document is another, each node of
    /// its shadow-including order gets the document, and then each custom element of them is told. Each
    /// reaction spends one unit of fuel. FuelSpent: one was wanted and none was left.
    pub fn adopt_node(
        &mut self,
        alloc: Global,
        document: NodeNo,
        node: NodeNo,
        fuel: &mut Fuel,
    ) -> Result<(), PageStop>
        requires node { IsNode self.old.forest node }
        requires room { self.old.queues.reactions + fuel.old < 2 ^ 64 }
        ensures step { Does result (work self.new fuel.new) (adopt document node (work self.old fuel.old)) }
        ensures within { StaysWithin self.old self.new fuel.old fuel.new }
        ensures loose { OnOk result (IsLoosed self.old.forest self.new.forest node) }
        ensures moves { parent_at self.old.forest node ≡ None → OnlyMoves (order_of self.old.forest node) self.old.forest self.new.forest }
        ensures settled { OnOk result (KeepsSettled self.old self.new) }
        ensures refused { NeverRefuses result }
    {
        let old = self.tree.document(node);
        self.detach(alloc, node, fuel)?;
        if old == document {
            return Ok(());
        }
        self.move_to(alloc, old, document, node, fuel)
    }

    /// Removes a node that has a parent.
    fn detach(&mut self, alloc: Global, node: NodeNo, fuel: &mut Fuel) -> Result<(), PageStop>
        requires node { IsNode self.old.forest node }
        requires room { self.old.queues.reactions + fuel.old < 2 ^ 64 }
        ensures step { Does result (work self.new fuel.new) (where_is (λ w. is_some (parent_at w.page.forest node)) (remove node) (work self.old fuel.old)) }
        ensures within { StaysWithin self.old self.new fuel.old fuel.new }
        ensures loose { OnOk result (IsLoosed self.old.forest self.new.forest node) }
        ensures still { parent_at self.old.forest node ≡ None → self.new ≡ self.old }
        ensures settled { OnOk result (KeepsSettled self.old self.new) }
        ensures refused { NeverRefuses result }
    {
        if self.tree.parent(node).is_none() {
            return Ok(());
        }
        self.remove_node(alloc, node, fuel)
    }

    /// Moves a node, with all below it, into another document.
    fn move_to(
        &mut self,
        alloc: Global,
        old: NodeNo,
        document: NodeNo,
        node: NodeNo,
        fuel: &mut Fuel,
    ) -> Result<(), PageStop>
        requires node { IsNode self.old.forest node }
        requires room { self.old.queues.reactions + fuel.old < 2 ^ 64 }
        ensures step { Does result (work self.new fuel.new) (move_to old document node (work self.old fuel.old)) }
        ensures within { StaysWithin self.old self.new fuel.old fuel.new }
        ensures places { OnOk result (SamePlaces self.old.forest self.new.forest) }
        ensures moves { OnlyMoves (order_of self.old.forest node) self.old.forest self.new.forest }
        ensures settled { OnOk result (KeepsSettled self.old self.new) }
        ensures refused { NeverRefuses result }
    {
        let walk = self.tree.shadow_order(alloc, node)?;
        self.move_nodes(&walk, document);
        self.tell_adopted(alloc, &walk, old, document, fuel)
    }

    /// Each node of a walk gets the document.
    fn move_nodes(&mut self, walk: &Nodes, document: NodeNo)
        requires { All (IsNode self.old.forest) walk.now }
        ensures step { (fuel : ℕ) → Goes tt (work self.new fuel) ≡ for_each walk.now (move_one document) (work self.old fuel) }
        ensures within { StaysWithin self.old self.new 0 0 }
        ensures places { SamePlaces self.old.forest self.new.forest }
        ensures moves { OnlyMoves walk.now self.old.forest self.new.forest }
        ensures settled { KeepsSettled self.old self.new }
    {
        for i in 0..walk.len() {
            let n = node_at(walk, i);
            self.move_one(n, document);
        }
    }

    /// One node gets the document.
    fn move_one(&mut self, n: NodeNo, document: NodeNo)
        requires { IsNode self.old.forest n }
        ensures page { self.new ≡ with_forest (with_document n document) self.old }
        ensures within { StaysWithin self.old self.new 0 0 }
        ensures places { SamePlaces self.old.forest self.new.forest }
        ensures moves { OnlyMoves (n ∷ []) self.old.forest self.new.forest }
        ensures settled { KeepsSettled self.old self.new }
    {
        self.tree.set_document(n, document);
    }

    /// Each node of an adopted tree has its turn.
    fn tell_adopted(
        &mut self,
        alloc: Global,
        walk: &Nodes,
        old: NodeNo,
        document: NodeNo,
        fuel: &mut Fuel,
    ) -> Result<(), PageStop>
        requires { self.old.queues.reactions + fuel.old < 2 ^ 64 }
        ensures step { Does result (work self.new fuel.new) (for_each walk.now (adopted old document) (work self.old fuel.old)) }
        ensures within { StaysWithin self.old self.new fuel.old fuel.new }
        ensures rest { OnlyEnqueues self.old self.new }
        ensures refused { NeverRefuses result }
    {
        for i in 0..walk.len() {
            let n = node_at(walk, i);
            self.tell(alloc, n, Reaction::Adopted(old, document), fuel)?;
        }
        Ok(())
    }
}
