// Whom a change of form owners and disabled states tells.
ghost use Rattle.std.specs.Prelude.{◌≡◌, ◌+◌, ◌<◌, ◌^◌, [], true, false, if◌then◌else◌};
ghost use Rattle.node_trees.specs.Nodes.{IsNode};
ghost use Rattle.node_trees.specs.Orders.{order_of};
ghost use Rattle.form_owner.specs.Told.{AreOfNodes, AreRising};
ghost use Rattle.ce_algorithms.specs.Steps.{done};
ghost use Rattle.ce_algorithms.specs.FormChanges.{tell_at_turn, tell_disabled, tell_form_change, tell_others, tell_owner};
ghost use Rattle.ce_page.specs.Ends.{Does, NeverRefuses, work};
ghost use Rattle.ce_page.specs.Numbers.{StaysWithin, OnlyEnqueues};

use crate::{Page, PageStop};
use ce_base::{Fuel, NodeNo};
use form_owner::{Change, Changes};
use reaction_queue::Reaction;
use std::alloc::Global;

/// Whether an insertion or a removal has nobody to tell: nothing is said of form owners and disabled states, and what is
/// inserted is not connected, or what is removed was not.
pub(crate) fn is_unheard(changes: &Changes, connected: bool) -> bool
    ensures changes { result ≡ true → changes.now ≡ [] }
    ensures apart { result ≡ true → connected ≡ false }
{
    changes.len() == 0 && !connected
}

impl Page {
    fn tell_owner(
        &mut self,
        alloc: Global,
        n: NodeNo,
        owner: Option<Option<NodeNo>>,
        fuel: &mut Fuel,
    ) -> Result<(), PageStop>
        requires { self.old.queues.reactions + fuel.old < 2 ^ 64 }
        ensures step { Does result (work self.new fuel.new) (tell_owner n owner (work self.old fuel.old)) }
        ensures within { StaysWithin self.old self.new fuel.old fuel.new }
        ensures rest { OnlyEnqueues self.old self.new }
        ensures refused { NeverRefuses result }
    {
        match owner {
            None => Ok(()),
            Some(form) => self.enqueue_call(alloc, n, Reaction::FormAssociated(form), fuel),
        }
    }

    fn tell_disabled(
        &mut self,
        alloc: Global,
        n: NodeNo,
        disabled: Option<bool>,
        fuel: &mut Fuel,
    ) -> Result<(), PageStop>
        requires { self.old.queues.reactions + fuel.old < 2 ^ 64 }
        ensures step { Does result (work self.new fuel.new) (tell_disabled n disabled (work self.old fuel.old)) }
        ensures within { StaysWithin self.old self.new fuel.old fuel.new }
        ensures rest { OnlyEnqueues self.old self.new }
        ensures refused { NeverRefuses result }
    {
        match disabled {
            None => Ok(()),
            Some(on) => self.enqueue_call(alloc, n, Reaction::FormDisabled(on), fuel),
        }
    }

    /// A custom form-associated element is told of its change, of its form owner first.
    fn tell_form_change(
        &mut self,
        alloc: Global,
        c: &Change,
        fuel: &mut Fuel,
    ) -> Result<(), PageStop>
        requires { self.old.queues.reactions + fuel.old < 2 ^ 64 }
        ensures step { Does result (work self.new fuel.new) (tell_form_change c.now (work self.old fuel.old)) }
        ensures within { StaysWithin self.old self.new fuel.old fuel.new }
        ensures rest { OnlyEnqueues self.old self.new }
        ensures refused { NeverRefuses result }
    {
        if self.is_custom(c.node) && self.is_form_associated(c.node) {
            self.tell_owner(alloc, c.node, c.owner, fuel)?;
            self.tell_disabled(alloc, c.node, c.disabled, fuel)
        } else {
            Ok(())
        }
    }

    /// A node of a walk is told at its turn.
    pub(crate) fn tell_at_turn(
        &mut self,
        alloc: Global,
        changes: &Changes,
        n: NodeNo,
        fuel: &mut Fuel,
    ) -> Result<(), PageStop>
        requires rising { AreRising changes.now }
        requires room { self.old.queues.reactions + fuel.old < 2 ^ 64 }
        ensures step { Does result (work self.new fuel.new) (tell_at_turn changes.now n (work self.old fuel.old)) }
        ensures within { StaysWithin self.old self.new fuel.old fuel.new }
        ensures rest { OnlyEnqueues self.old self.new }
        ensures refused { NeverRefuses result }
    {
        match changes.of(n) {
            None => Ok(()),
            Some(c) => self.tell_form_change(alloc, &c, fuel),
        }
    }

    /// Those of whom something is said, but for the shadow-including inclusive descendants of a node.
    pub(crate) fn tell_outside(
        &mut self,
        alloc: Global,
        changes: &Changes,
        node: NodeNo,
        fuel: &mut Fuel,
    ) -> Result<(), PageStop>
        requires node { IsNode self.old.forest node }
        requires nodes { AreOfNodes self.old.forest changes.now }
        requires room { self.old.queues.reactions + fuel.old < 2 ^ 64 }
        ensures step { Does result (work self.new fuel.new) (tell_others changes.now (order_of self.old.forest node) (work self.old fuel.old)) }
        ensures within { StaysWithin self.old self.new fuel.old fuel.new }
        ensures rest { OnlyEnqueues self.old self.new }
        ensures refused { NeverRefuses result }
    {
        for i in 0..changes.len() {
            let c = changes.at(i);
            let is_told = !self.tree.is_inside(node, c.node);
            self.tell_where(alloc, is_told, c, fuel)?;
        }
        Ok(())
    }

    /// All of whom something is said.
    pub(crate) fn tell_all(
        &mut self,
        alloc: Global,
        changes: &Changes,
        fuel: &mut Fuel,
    ) -> Result<(), PageStop>
        requires { self.old.queues.reactions + fuel.old < 2 ^ 64 }
        ensures step { Does result (work self.new fuel.new) (tell_others changes.now [] (work self.old fuel.old)) }
        ensures within { StaysWithin self.old self.new fuel.old fuel.new }
        ensures rest { OnlyEnqueues self.old self.new }
        ensures refused { NeverRefuses result }
    {
        for i in 0..changes.len() {
            let change = changes.at(i);
            self.tell_form_change(alloc, change, fuel)?;
        }
        Ok(())
    }

    fn tell_where(
        &mut self,
        alloc: Global,
        is_told: bool,
        c: &Change,
        fuel: &mut Fuel,
    ) -> Result<(), PageStop>
        requires { self.old.queues.reactions + fuel.old < 2 ^ 64 }
        ensures step { Does result (work self.new fuel.new) ((if is_told then tell_form_change c.now else done) (work self.old fuel.old)) }
        ensures within { StaysWithin self.old self.new fuel.old fuel.new }
        ensures rest { OnlyEnqueues self.old self.new }
        ensures refused { NeverRefuses result }
    {
        if is_told {
            self.tell_form_change(alloc, c, fuel)
        } else {
            Ok(())
        }
    }
}
