// Cloning.
ghost use Rattle.std.specs.Prelude.{◌≡◌, ◌≢◌, ◌+◌, ◌<◌, ◌^◌, ◌++◌, None, false, ◌||◌, map, reverse, IfOk, OnOk};
ghost use Rattle.node_trees.specs.Facts.{is_document, is_element, is_shadow_root};
ghost use Rattle.node_trees.specs.Links.{below, IsAlone, KeepsApart, KeepsSpots};
ghost use Rattle.node_trees.specs.Nodes.{IsNode};
ghost use Rattle.node_trees.specs.Paths.{connected};
ghost use Rattle.node_trees.specs.Kinds.{IsElement, KeepsKinds};
ghost use Rattle.node_trees.specs.Spots.{facts_at, kind_at};
ghost use Rattle.node_trees.specs.Trees.{tree_of};
ghost use Rattle.ce_algorithms.specs.Clone.{clone};
ghost use Rattle.ce_algorithms.specs.Mutation.{pre_insert};
ghost use Rattle.ce_page.specs.Copies.{copied_kind, copy_one, copy_tree, IsCopied};
ghost use Rattle.ce_page.specs.Ends.{Does, Ends, Keeps, NeverRefuses, work};
ghost use Rattle.ce_page.specs.Numbers.{GrowsWithin, StaysWithin};

use crate::walk::node_at;
use crate::{NodeKind, Page, PageStop};
use ce_base::{Fault, Fuel, NoMemory, NodeNo, Nodes};
use std::alloc::Global;

/// A node that is to be copied below a parent.
#[derive(Drop)]
struct Rest {
    parent: NodeNo,
    from: NodeNo,
}

impl Page {
    /// Clones a node (DOM Standard, section "Interface Node", "clone a node"), and gives the copy, which
    /// stands nowhere. Where it is deep, all below the node is cloned too, in tree order, each node into the
    /// copy of its parent; shadow trees are not. An element is created in its node document, not
    /// synchronously, with its attributes and, of an input or a textarea, what its control keeps of its value
    /// and its checkedness: where there is a definition, its upgrade is enqueued.
    ///
    /// One unit of fuel is spent for each node, each attribute and each upgrade. NotSupportedError: the node
    /// is a document or a shadow root, and then nothing has changed.
    pub fn clone_node(
        &mut self,
        alloc: Global,
        deep: bool,
        node: NodeNo,
        fuel: &mut Fuel,
    ) -> Result<NodeNo, PageStop>
        requires node { IsNode self.old.forest node }
        requires room { self.old.queues.reactions + fuel.old < 2 ^ 64 }
        ensures step { Ends (λ n. n) result (work self.new fuel.new) (clone deep node (work self.old fuel.old)) }
        ensures made { IfOk result (IsNode self.new.forest) }
        ensures within { GrowsWithin self.old self.new fuel.old fuel.new }
        ensures refused { Keeps result self.old self.new }
    {
        match self.tree.kind(node) {
            NodeKind::Document => Err(PageStop::Refused(Fault::NotSupportedError)),
            NodeKind::ShadowRoot => Err(PageStop::Refused(Fault::NotSupportedError)),
            NodeKind::Element => self.clone_allowed(alloc, deep, node, fuel),
            NodeKind::TextNode => self.clone_allowed(alloc, deep, node, fuel),
        }
    }

    /// Clones an element or a text.
    fn clone_allowed(
        &mut self,
        alloc: Global,
        deep: bool,
        node: NodeNo,
        fuel: &mut Fuel,
    ) -> Result<NodeNo, PageStop>
        requires node { IsNode self.old.forest node }
        requires allowed { (is_document (kind_at self.old.forest node) || is_shadow_root (kind_at self.old.forest node)) ≡ false }
        requires room { self.old.queues.reactions + fuel.old < 2 ^ 64 }
        ensures step { Ends (λ n. n) result (work self.new fuel.new) (clone deep node (work self.old fuel.old)) }
        ensures made { IfOk result (IsNode self.new.forest) }
        ensures within { GrowsWithin self.old self.new fuel.old fuel.new }
        ensures refused { NeverRefuses result }
    {
        if deep {
            self.copy_tree(alloc, node, fuel)
        } else {
            self.copy_node(alloc, node, fuel)
        }
    }

    /// A copy of a node with all below it. What is still to be copied waits on a stack, so that no depth is
    /// too great.
    fn copy_tree(
        &mut self,
        alloc: Global,
        node: NodeNo,
        fuel: &mut Fuel,
    ) -> Result<NodeNo, PageStop>
        requires node { IsNode self.old.forest node }
        requires allowed { (is_document (kind_at self.old.forest node) || is_shadow_root (kind_at self.old.forest node)) ≡ false }
        requires room { self.old.queues.reactions + fuel.old < 2 ^ 64 }
        ensures step { Ends (λ n. n) result (work self.new fuel.new)
            (copy_tree node (facts_at self.old.forest node) (below (tree_of node self.old.forest)) (work self.old fuel.old)) }
        ensures made { IfOk result (IsNode self.new.forest) }
        ensures within { GrowsWithin self.old self.new fuel.old fuel.new }
        ensures refused { NeverRefuses result }
    {
        let children = self.tree.children(alloc, node)?;
        let top = self.copy_node(alloc, node, fuel)?;
        let mut todo = Vec::new(alloc);
        push_below(&mut todo, top, children)?;
        while let Some(next) = todo.pop() {
            let children = self.tree.children(alloc, next.from)?;
            let n = self.copy_into(alloc, next.parent, next.from, fuel)?;
            push_below(&mut todo, n, children)?;
        }
        Ok(top)
    }

    /// A copy of a node, put at the end of a parent.
    fn copy_into(
        &mut self,
        alloc: Global,
        parent: NodeNo,
        from: NodeNo,
        fuel: &mut Fuel,
    ) -> Result<NodeNo, PageStop>
        requires parent { IsElement self.old.forest parent }
        requires apart { connected self.old.forest parent ≡ false }
        requires node { IsNode self.old.forest from }
        requires room { self.old.queues.reactions + fuel.old < 2 ^ 64 }
        ensures step { Ends (λ n. n) result (work self.new fuel.new) (copy_one parent from (facts_at self.old.forest from) (work self.old fuel.old)) }
        ensures within { GrowsWithin self.old self.new fuel.old fuel.new }
        ensures spends { OnOk result (fuel.new < fuel.old) }
        ensures copied { IfOk result (IsCopied self.old.forest self.new.forest (copied_kind (is_element (kind_at self.old.forest from))) parent) }
        ensures refused { NeverRefuses result }
    {
        let n = self.copy_node(alloc, from, fuel)?;
        self.append(alloc, parent, n, fuel)?;
        Ok(n)
    }

    /// Puts a node that stands alone at the end of an element that is not connected.
    fn append(
        &mut self,
        alloc: Global,
        parent: NodeNo,
        n: NodeNo,
        fuel: &mut Fuel,
    ) -> Result<(), PageStop>
        requires parent { IsElement self.old.forest parent }
        requires node { IsNode self.old.forest n }
        requires kind { (is_document (kind_at self.old.forest n) || is_shadow_root (kind_at self.old.forest n)) ≡ false }
        requires alone { IsAlone self.old.forest n }
        requires other { parent ≢ n }
        requires apart { connected self.old.forest parent ≡ false }
        requires room { self.old.queues.reactions + fuel.old < 2 ^ 64 }
        ensures step { Does result (work self.new fuel.new) (pre_insert parent n None (work self.old fuel.old)) }
        ensures within { StaysWithin self.old self.new fuel.old fuel.new }
        ensures others { OnOk result (KeepsSpots parent n self.old.forest self.new.forest) }
        ensures kinds { KeepsKinds self.old.forest self.new.forest }
        ensures apart { OnOk result (KeepsApart self.old.forest self.new.forest) }
        ensures refused { NeverRefuses result }
    {
        let document = self.tree.document(parent);
        self.adopt_node(alloc, document, n, fuel)?;
        self.put_apart(alloc, parent, n, fuel)
    }
}

/// Nodes are to be copied below a parent, the first one first.
fn push_below(todo: &mut Vec<Rest>, parent: NodeNo, nodes: Nodes) -> Result<(), NoMemory>
    ensures { OnOk result (reverse todo.new.items ≡ map (λ from. record { parent = parent; from = from }) nodes ++ reverse todo.old.items) }
{
    let mut left = nodes.len();
    while left > 0 {
        left -= 1;
        let from = node_at(&nodes, left);
        todo.push(Rest { parent, from })?;
    }
    Ok(())
}
