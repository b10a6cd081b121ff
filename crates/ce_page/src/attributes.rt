// Attributes.
ghost use Rattle.std.specs.Prelude.{◌≡◌, ◌+◌, ◌<◌, ◌^◌, IfOk, OnOk, is_some};
ghost use Rattle.node_trees.specs.declared.kind.NodeKind.TheVariants.{Element as ElementKind};
ghost use Rattle.node_trees.specs.Spots.{attribute_at, kind_at};
ghost use Rattle.node_trees.specs.Nodes.{IsNode};
ghost use Rattle.ce_algorithms.specs.Attributes.{set_attribute, remove_attribute};
ghost use Rattle.ce_page.specs.Ends.{Does, NeverRefuses, work};
ghost use Rattle.ce_page.specs.Numbers.{OnlyEnqueues, StaysWithin};
ghost use Rattle.ce_page.specs.Copies.{OnlyChanges};
ghost use Rattle.ce_page.specs.Settled.{KeepsSettled};
ghost use Rattle.ce_page.specs.Telling.{Tells, handled};

use crate::{Page, PageStop};
use ce_base::{Fuel, NoMemory, NodeNo, Text};
use form_owner::Changes;
use reaction_queue::Reaction;
use std::alloc::Global;

impl Page {
    /// Sets an attribute of an element (DOM Standard, section "Interface Element", "set an attribute
    /// value"). One that is there keeps its place, another comes last. A custom element is told, also of an
    /// equal value, and then each custom form-associated element whose form owner or disabled state this has
    /// changed, in the order of their numbers.
    pub fn set_attribute(
        &mut self,
        alloc: Global,
        n: NodeNo,
        name: Text,
        value: Text,
        fuel: &mut Fuel,
    ) -> Result<(), PageStop>
        requires node { IsNode self.old.forest n }
        requires element { kind_at self.old.forest n ≡ ElementKind }
        requires room { self.old.queues.reactions + fuel.old < 2 ^ 64 }
        ensures step { Does result (work self.new fuel.new) (set_attribute n name value (work self.old fuel.old)) }
        ensures told { Tells result self.old self.new }
        ensures within { StaysWithin self.old self.new fuel.old fuel.new }
        ensures changes { OnlyChanges n self.old.forest self.new.forest }
        ensures settled { OnOk result (KeepsSettled self.old self.new) }
        ensures refused { NeverRefuses result }
    {
        let (old, changes) = self.put_attribute(alloc, n, &name, &value)?;
        let told = Reaction::Attribute(name, old, Some(value));
        self.handle_attribute_change(alloc, n, told, &changes, fuel)
    }

    /// Removes an attribute of an element (DOM Standard, section "Interface Element", "remove an attribute by
    /// name"). A custom element is told, and then each custom form-associated element whose form owner or
    /// disabled state this has changed. Where the attribute is absent nothing happens.
    pub fn remove_attribute(
        &mut self,
        alloc: Global,
        n: NodeNo,
        name: &str,
        fuel: &mut Fuel,
    ) -> Result<(), PageStop>
        requires node { IsNode self.old.forest n }
        requires element { kind_at self.old.forest n ≡ ElementKind }
        requires room { self.old.queues.reactions + fuel.old < 2 ^ 64 }
        ensures step { Does result (work self.new fuel.new) (remove_attribute n name.now (work self.old fuel.old)) }
        ensures told { Tells result self.old self.new }
        ensures within { StaysWithin self.old self.new fuel.old fuel.new }
        ensures settled { OnOk result (KeepsSettled self.old self.new) }
        ensures refused { NeverRefuses result }
    {
        if !self.has_attribute(n, name) {
            return Ok(());
        }
        let kept = Text::of(alloc, name)?;
        let (old, changes) = self.take_attribute(alloc, n, name)?;
        let told = Reaction::Attribute(kept, old, None);
        self.handle_attribute_change(alloc, n, told, &changes, fuel)
    }

    fn has_attribute(&self, n: NodeNo, name: &str) -> bool
        requires { IsNode self.now.forest n }
        ensures { result ≡ is_some (attribute_at self.now.forest n name.now) }
    {
        self.tree.attr(n, name).is_some()
    }

    /// A custom element is told of its attribute, and then all of whom something is said (DOM Standard, section "Interface
    /// Element", "handle attribute changes").
    fn handle_attribute_change(
        &mut self,
        alloc: Global,
        n: NodeNo,
        told: Reaction,
        changes: &Changes,
        fuel: &mut Fuel,
    ) -> Result<(), PageStop>
        requires { self.old.queues.reactions + fuel.old < 2 ^ 64 }
        ensures step { Does result (work self.new fuel.new) (handled n told changes.now (work self.old fuel.old)) }
        ensures within { StaysWithin self.old self.new fuel.old fuel.new }
        ensures rest { OnlyEnqueues self.old self.new }
        ensures refused { NeverRefuses result }
    {
        self.tell(alloc, n, told, fuel)?;
        self.tell_all(alloc, changes, fuel)
    }
}

/// Copies of the name and the value of an attribute.
pub(crate) fn copies_of(alloc: Global, name: &Text, value: &Text) -> Result<(Text, Text), NoMemory>
    ensures name { IfOk result (λ copies. copies.0 ≡ name.now) }
    ensures value { IfOk result (λ copies. copies.1 ≡ value.now) }
{
    let name = name.copy(alloc)?;
    let value = value.copy(alloc)?;
    Ok((name, value))
}
