// Changes of the trees, and of definitions, after each of which the form owners are settled.
//
// A page in which one of these was cut short for want of memory is no longer settled: what is kept of form owners need not
// stand for its trees. Each of them refuses such a page, as for want of memory, so what goes is settled before and after.
ghost use Rattle.std.specs.Prelude.{◌≡◌, None, true, false, length, IfOk, IsSome, OnErr, OnOk};
ghost use Rattle.node_trees.specs.declared.kind.NodeKind.TheVariants.{Element as ElementKind};
ghost use Rattle.node_trees.specs.Insertion.{may_insert};
ghost use Rattle.node_trees.specs.Kinds.{IsElement, KeepsKinds};
ghost use Rattle.node_trees.specs.Links.{KeepsApart, KeepsSpots};
ghost use Rattle.node_trees.specs.Nodes.{size, IsNode, IsNodeOrNone, IsTidy};
ghost use Rattle.node_trees.specs.Paths.{connected};
ghost use Rattle.node_trees.specs.Spots.{attribute_at, kind_at, parent_at};
ghost use Rattle.node_trees.specs.Trees.{cut, graft, with_attribute, without_attribute};
ghost use Rattle.form_owner.specs.Told.{AreOfNodes};
ghost use Rattle.ce_algorithms.specs.FormChanges.{form_changes};
ghost use Rattle.ce_algorithms.specs.Page.{with_definition, with_forest};
ghost use Rattle.ce_page.specs.Copies.{OnlyChanges};
ghost use Rattle.ce_page.specs.Loose.{IsLoosed};
ghost use Rattle.ce_page.specs.Numbers.{SameNumbers, StaysWithin};
ghost use Rattle.ce_page.specs.Rows.{redefined};
ghost use Rattle.ce_page.specs.Settled.{is_given, KeepsSettled};

use crate::Page;
use crate::attributes::copies_of;
use crate::element::Element;
use ce_base::{DefNo, NoMemory, NodeNo, Text};
use ce_registry::Registry;
use form_owner::{Changes, Touch};
use node_arena::Tree;
use std::alloc::Global;

impl Page {
    /// Puts a node that has no parent among the children of a parent, and says what this changes of form owners and
    /// disabled states.
    pub(crate) fn graft(
        &mut self,
        alloc: Global,
        parent: NodeNo,
        node: NodeNo,
        before: Option<NodeNo>,
    ) -> Result<Changes, NoMemory>
        requires parent { IsNode self.old.forest parent }
        requires node { IsNode self.old.forest node }
        requires before { IsNodeOrNone self.old.forest before }
        requires may { may_insert self.old.forest parent node before ≡ None }
        requires free { parent_at self.old.forest node ≡ None }
        ensures page { OnOk result (self.new ≡ with_forest (λ f. graft f parent node before) self.old) }
        ensures tidy { OnOk result (IsTidy self.old.forest) }
        ensures still_tidy { OnOk result (IsTidy self.new.forest) }
        ensures changes { IfOk result (λ cs. cs ≡ form_changes self.old self.new) }
        ensures nodes { IfOk result (AreOfNodes self.new.forest) }
        ensures settled { OnOk result (KeepsSettled self.old self.new) }
        ensures within { StaysWithin self.old self.new 0 0 }
        ensures kinds { KeepsKinds self.old.forest self.new.forest }
        ensures others { OnOk result (KeepsSpots parent node self.old.forest self.new.forest) }
        ensures apart { OnOk result (connected self.old.forest parent ≡ false → KeepsApart self.old.forest self.new.forest) }
    {
        if !self.settled {
            return Err(NoMemory);
        }
        self.settled = false;
        self.tree.insert(alloc, parent, node, before)?;
        let changes = self
            .owners
            .settle(alloc, &self.tree, Touch::Inserted(node))?;
        self.settled = true;
        Ok(changes)
    }

    /// Takes a node out of its parent's children, and says what this changes of form owners and disabled states.
    pub(crate) fn cut(&mut self, alloc: Global, node: NodeNo) -> Result<Changes, NoMemory>
        requires node { IsNode self.old.forest node }
        requires placed { IsSome (parent_at self.old.forest node) }
        ensures page { OnOk result (self.new ≡ with_forest (λ f. cut f node) self.old) }
        ensures tidy { OnOk result (IsTidy self.old.forest) }
        ensures changes { IfOk result (λ cs. cs ≡ form_changes self.old self.new) }
        ensures nodes { IfOk result (AreOfNodes self.new.forest) }
        ensures settled { OnOk result (KeepsSettled self.old self.new) }
        ensures within { StaysWithin self.old self.new 0 0 }
        ensures loose { OnOk result (IsLoosed self.old.forest self.new.forest node) }
    {
        if !self.settled {
            return Err(NoMemory);
        }
        match self.tree.parent(node) {
            None => unreachable!(),
            Some(parent) => {
                self.settled = false;
                self.tree.remove(node);
                let touch = Touch::Removed { node, parent };
                let changes = self.owners.settle(alloc, &self.tree, touch)?;
                self.settled = true;
                Ok(changes)
            }
        }
    }

    /// Sets an attribute of an element to a copy of a value. Gives its old value, and what this changes of form owners and
    /// disabled states.
    pub(crate) fn put_attribute(
        &mut self,
        alloc: Global,
        n: NodeNo,
        name: &Text,
        value: &Text,
    ) -> Result<(Option<Text>, Changes), NoMemory>
        requires node { IsNode self.old.forest n }
        requires element { kind_at self.old.forest n ≡ ElementKind }
        ensures page { OnOk result (self.new ≡ with_forest (with_attribute n name.now value.now) self.old) }
        ensures was { IfOk result (λ r. r.0 ≡ attribute_at self.old.forest n name.now) }
        ensures changes { IfOk result (λ r. r.1 ≡ form_changes self.old self.new) }
        ensures settled { OnOk result (KeepsSettled self.old self.new) }
        ensures within { StaysWithin self.old self.new 0 0 }
        ensures others { OnlyChanges n self.old.forest self.new.forest }
    {
        let old = write_attribute(alloc, &mut self.tree, &mut self.settled, n, name, value)?;
        let changes = self.owners.settle(alloc, &self.tree, Touch::Attr(n))?;
        self.settled = true;
        Ok((old, changes))
    }

    /// Takes an attribute of an element away. Gives its value, and what this changes of form owners and disabled states.
    pub(crate) fn take_attribute(
        &mut self,
        alloc: Global,
        n: NodeNo,
        name: &str,
    ) -> Result<(Option<Text>, Changes), NoMemory>
        requires node { IsNode self.old.forest n }
        requires element { kind_at self.old.forest n ≡ ElementKind }
        ensures page { OnOk result (self.new ≡ with_forest (without_attribute n name.now) self.old) }
        ensures was { IfOk result (λ r. r.0 ≡ attribute_at self.old.forest n name.now) }
        ensures changes { IfOk result (λ r. r.1 ≡ form_changes self.old self.new) }
        ensures settled { OnOk result (KeepsSettled self.old self.new) }
        ensures within { StaysWithin self.old self.new 0 0 }
    {
        if !self.settled {
            return Err(NoMemory);
        }
        self.settled = false;
        let old = self.tree.del_attr(n, name);
        let changes = self.owners.settle(alloc, &self.tree, Touch::Attr(n))?;
        self.settled = true;
        Ok((old, changes))
    }

    /// The definition of an element becomes another one, or none. One that the registry did not give is refused.
    pub(crate) fn redefine(
        &mut self,
        alloc: Global,
        n: NodeNo,
        d: Option<DefNo>,
    ) -> Result<(), NoMemory>
        requires { IsElement self.old.forest n }
        ensures page { OnOk result (self.new ≡ with_definition n d self.old) }
        ensures forest { self.new.forest ≡ self.old.forest }
        ensures numbers { SameNumbers self.old self.new }
        ensures settled { OnOk result (KeepsSettled self.old self.new) }
    {
        if !self.settled || !is_given(&self.registry, &d) {
            return Err(NoMemory);
        }
        self.settled = false;
        write_definition(&mut self.elements, n, d);
        let touch = Touch::Associated(n, self.is_form_associated(n));
        let _changes = self.owners.settle(alloc, &self.tree, touch)?;
        self.settled = true;
        Ok(())
    }
}

/// Sets an attribute in the trees of a page to a copy of a value. A page that isn't settled is refused, and another one is
/// unsettled from when the copies are made.
fn write_attribute(
    alloc: Global,
    tree: &mut Tree,
    settled: &mut bool,
    n: NodeNo,
    name: &Text,
    value: &Text,
) -> Result<Option<Text>, NoMemory>
    requires node { IsNode tree.old n }
    requires element { kind_at tree.old n ≡ ElementKind }
    ensures set { OnOk result (tree.new ≡ with_attribute n name.now value.now tree.old) }
    ensures was { IfOk result (λ old. old ≡ attribute_at tree.old n name.now) }
    ensures settled { OnOk result (settled.old ≡ true) }
    ensures begun { OnOk result (settled.new ≡ false) }
    ensures kept { settled.new ≡ true → settled.old ≡ true }
    ensures tidy { OnOk result (IsTidy tree.old) }
    ensures size { size tree.new ≡ size tree.old }
    ensures changes { OnlyChanges n tree.old tree.new }
    ensures err { OnErr result (tree.new ≡ tree.old) }
{
    let (name, value) = copies_of(alloc, name, value)?;
    if !*settled {
        return Err(NoMemory);
    }
    *settled = false;
    tree.set_attr(alloc, n, name, value)
}

/// Whether the registry gave this definition's number, or there is none.
fn is_given(registry: &Registry, d: &Option<DefNo>) -> bool
    ensures { result ≡ is_given (length registry.now) d.now }
{
    match d {
        None => true,
        Some(d) => registry.at(*d).is_some(),
    }
}

/// The row of a node gets a definition, or none.
fn write_definition(elements: &mut Vec<Element>, n: NodeNo, d: Option<DefNo>)
    ensures { elements.new.items ≡ redefined elements.old.items n d }
{
    let i = n.0.saturating_sub(1) as usize;
    if i < elements.len() {
        let e = &mut elements[i];
        e.set_definition(d);
    }
}
