// Copies of nodes, each alone.
ghost use Rattle.std.specs.Prelude.{◌≡◌, ◌+◌, ◌<◌, ◌^◌, true, false, IfOk, OnOk};
ghost use Rattle.node_trees.specs.declared.kind.NodeKind.TheVariants.{Element as ElementKind, TextNode};
ghost use Rattle.node_trees.specs.Facts.{is_element};
ghost use Rattle.node_trees.specs.Spots.{facts_at, kind_at};
ghost use Rattle.node_trees.specs.Nodes.{IsNode};
ghost use Rattle.node_trees.specs.Kinds.{IsElement};
ghost use Rattle.ce_algorithms.specs.Clone.{copy_attribute, copy_node};
ghost use Rattle.ce_algorithms.specs.CreateLater.{create_later};
ghost use Rattle.ce_algorithms.specs.Steps.{for_each};
ghost use Rattle.ce_page.specs.Ends.{Does, Ends, NeverRefuses, work};
ghost use Rattle.ce_page.specs.Numbers.{GrowsWithin, StaysWithin};
ghost use Rattle.ce_page.specs.Copies.{copied_kind, IsFresh, OnlyChanges};

use crate::attributes::copies_of;
use crate::{NodeKind, Page, PageStop};
use ce_base::{Fuel, NoMemory, NodeNo, Text};
use std::alloc::Global;

impl Page {
    /// A copy of an element or a text without what is below it, which stands nowhere yet (DOM Standard,
    /// section "Interface Node", "clone a single node"). It spends one unit of fuel for the node and one for
    /// each of its attributes, and one for an upgrade that is enqueued.
    pub(crate) fn copy_node(
        &mut self,
        alloc: Global,
        from: NodeNo,
        fuel: &mut Fuel,
    ) -> Result<NodeNo, PageStop>
        requires node { IsNode self.old.forest from }
        requires room { self.old.queues.reactions + fuel.old < 2 ^ 64 }
        ensures step { Ends (λ n. n) result (work self.new fuel.new)
            (copy_node from (facts_at self.old.forest from) (is_element (kind_at self.old.forest from)) (work self.old fuel.old)) }
        ensures within { GrowsWithin self.old self.new fuel.old fuel.new }
        ensures spends { OnOk result (fuel.new < fuel.old) }
        ensures fresh { IfOk result (IsFresh self.old.forest self.new.forest (copied_kind (is_element (kind_at self.old.forest from)))) }
        ensures refused { NeverRefuses result }
    {
        if self.tree.kind(from) == NodeKind::Element {
            self.copy_element(alloc, from, fuel)
        } else {
            self.copy_text(alloc, from, fuel)
        }
    }

    fn copy_text(
        &mut self,
        alloc: Global,
        from: NodeNo,
        fuel: &mut Fuel,
    ) -> Result<NodeNo, PageStop>
        requires { IsNode self.old.forest from }
        ensures step { Ends (λ n. n) result (work self.new fuel.new) (copy_node from (facts_at self.old.forest from) false (work self.old fuel.old)) }
        ensures within { GrowsWithin self.old self.new fuel.old fuel.new }
        ensures spends { OnOk result (fuel.new < fuel.old) }
        ensures fresh { IfOk result (IsFresh self.old.forest self.new.forest TextNode) }
        ensures refused { NeverRefuses result }
    {
        let chars = Text::of(alloc, self.tree.chars(from))?;
        let document = self.tree.document(from);
        self.create_text(alloc, chars, document, fuel)
    }

    fn copy_element(
        &mut self,
        alloc: Global,
        from: NodeNo,
        fuel: &mut Fuel,
    ) -> Result<NodeNo, PageStop>
        requires node { IsNode self.old.forest from }
        requires room { self.old.queues.reactions + fuel.old < 2 ^ 64 }
        ensures step { Ends (λ n. n) result (work self.new fuel.new) (copy_node from (facts_at self.old.forest from) true (work self.old fuel.old)) }
        ensures within { GrowsWithin self.old self.new fuel.old fuel.new }
        ensures spends { OnOk result (fuel.new < fuel.old) }
        ensures fresh { IfOk result (IsFresh self.old.forest self.new.forest ElementKind) }
        ensures refused { NeverRefuses result }
    {
        let n = self.create_like(alloc, from, fuel)?;
        self.copy_attributes(alloc, from, n, fuel)?;
        self.copy_control(alloc, from, n)?;
        Ok(n)
    }

    /// An element of the same local name, `is` value and node document.
    fn create_like(
        &mut self,
        alloc: Global,
        from: NodeNo,
        fuel: &mut Fuel,
    ) -> Result<NodeNo, PageStop>
        requires node { IsNode self.old.forest from }
        requires room { self.old.queues.reactions + fuel.old < 2 ^ 64 }
        ensures step { Ends (λ n. n) result (work self.new fuel.new) (create_later (facts_at self.old.forest from).local
            (facts_at self.old.forest from).is_value (facts_at self.old.forest from).document (work self.old fuel.old)) }
        ensures within { GrowsWithin self.old self.new fuel.old fuel.new }
        ensures spends { OnOk result (fuel.new < fuel.old) }
        ensures fresh { IfOk result (IsFresh self.old.forest self.new.forest ElementKind) }
        ensures refused { NeverRefuses result }
    {
        let d = self.lookup_for(from);
        let local = Text::of(alloc, self.tree.local(from))?;
        let is = self.is_value_of(alloc, from)?;
        let document = self.tree.document(from);
        self.create_later(alloc, local, is, document, d, fuel)
    }

    fn is_value_of(&self, alloc: Global, from: NodeNo) -> Result<Option<Text>, NoMemory>
        requires { IsNode self.now.forest from }
        ensures { IfOk result (λ is. is ≡ (facts_at self.now.forest from).is_value) }
    {
        match self.tree.is_value(from) {
            None => Ok(None),
            Some(is) => Ok(Some(Text::of(alloc, is)?)),
        }
    }

    /// A copy gets the attributes, in their order.
    fn copy_attributes(
        &mut self,
        alloc: Global,
        from: NodeNo,
        n: NodeNo,
        fuel: &mut Fuel,
    ) -> Result<(), PageStop>
        requires node { IsNode self.old.forest from }
        requires copy { IsElement self.old.forest n }
        requires room { self.old.queues.reactions + fuel.old < 2 ^ 64 }
        ensures step { Does result (work self.new fuel.new) (for_each (facts_at self.old.forest from).attributes (copy_attribute n) (work self.old fuel.old)) }
        ensures within { StaysWithin self.old self.new fuel.old fuel.new }
        ensures changes { OnlyChanges n self.old.forest self.new.forest }
        ensures refused { NeverRefuses result }
    {
        let attributes = self.tree.attributes(alloc, from)?;
        self.copy_each(alloc, &attributes, n, fuel)
    }

    /// A copy gets these attributes, in their order.
    fn copy_each(
        &mut self,
        alloc: Global,
        attributes: &[(Text, Text)],
        n: NodeNo,
        fuel: &mut Fuel,
    ) -> Result<(), PageStop>
        requires copy { IsElement self.old.forest n }
        requires room { self.old.queues.reactions + fuel.old < 2 ^ 64 }
        ensures step { Does result (work self.new fuel.new) (for_each attributes.now (copy_attribute n) (work self.old fuel.old)) }
        ensures within { StaysWithin self.old self.new fuel.old fuel.new }
        ensures changes { OnlyChanges n self.old.forest self.new.forest }
        ensures refused { NeverRefuses result }
    {
        for attribute in attributes {
            self.copy_attribute(alloc, attribute, n, fuel)?;
        }
        Ok(())
    }

    /// A copy gets an attribute.
    fn copy_attribute(
        &mut self,
        alloc: Global,
        attribute: &(Text, Text),
        n: NodeNo,
        fuel: &mut Fuel,
    ) -> Result<(), PageStop>
        requires copy { IsElement self.old.forest n }
        requires room { self.old.queues.reactions + fuel.old < 2 ^ 64 }
        ensures step { Does result (work self.new fuel.new) (copy_attribute n attribute.now (work self.old fuel.old)) }
        ensures within { StaysWithin self.old self.new fuel.old fuel.new }
        ensures changes { OnlyChanges n self.old.forest self.new.forest }
        ensures refused { NeverRefuses result }
    {
        if !fuel.spend() {
            return Err(PageStop::FuelSpent);
        }
        let (name, value) = copies_of(alloc, &attribute.0, &attribute.1)?;
        self.set_attribute(alloc, n, name, value, fuel)
    }
}
