// Insertion.
ghost use Rattle.std.specs.Prelude.{◌≡◌, None, true, false, OnOk, OnErr};
ghost use Rattle.std.specs.Result.{result_err};
ghost use Rattle.node_trees.specs.Trees.{graft};
ghost use Rattle.node_trees.specs.Facts.{is_element};
ghost use Rattle.node_trees.specs.Spots.{kind_at, parent_at, children_at};
ghost use Rattle.node_trees.specs.Insertion.{may_insert, has_element_child, is_child_or_none};
ghost use Rattle.node_trees.specs.Nodes.{size, IsNode, IsNodeOrNone, IsTidy};
ghost use Rattle.node_trees.specs.Kinds.{KeepsKinds};
ghost use Rattle.node_trees.specs.Links.{KeepsApart, KeepsSpots};
ghost use Rattle.node_trees.specs.Paths.{connected};
ghost use Rattle.tree_laws.specs.Beside.{before as preceding};

use crate::Tree;
use crate::siblings::join;
use ce_base::{Fault, NoMemory, NodeNo};
use node_trees::NodeKind;
use std::alloc::Global;
use std::mem;

impl Tree {
    /// Whether the node may be put among the children of `parent`, before the child `before` or at the end
    /// (DOM Standard, section "Mutation algorithms", "ensure pre-insert validity"). HierarchyRequestError:
    /// the parent is a text node, or the node is the parent or above it. NotFoundError: `before` is no
    /// child of the parent. HierarchyRequestError: the node is a document or a shadow root, or it is a text
    /// node and the parent a document, or the parent is a document and has an element child, be it the
    /// node itself. The first of these that holds is answered.
    pub fn may_insert(
        &self,
        parent: NodeNo,
        node: NodeNo,
        before: Option<NodeNo>,
    ) -> Result<(), Fault>
        requires parent { IsNode self.now parent }
        requires node { IsNode self.now node }
        requires before { IsNodeOrNone self.now before }
        ensures { result_err result ≡ may_insert self.now parent node before }
    {
        let place = self.kind(parent);
        if place == NodeKind::TextNode {
            return Err(Fault::HierarchyRequestError);
        }
        if self.is_above(node, parent) {
            return Err(Fault::HierarchyRequestError);
        }
        if let Some(child) = before {
            if self.parent(child) != Some(parent) {
                return Err(Fault::NotFoundError);
            }
        }
        let in_document = place == NodeKind::Document;
        match self.kind(node) {
            NodeKind::Document | NodeKind::ShadowRoot => Err(Fault::HierarchyRequestError),
            NodeKind::TextNode if in_document => Err(Fault::HierarchyRequestError),
            _ if in_document && self.has_element_child(parent) => {
                Err(Fault::HierarchyRequestError)
            }
            _ => Ok(()),
        }
    }

    /// Whether some child is an element.
    fn has_element_child(&self, n: NodeNo) -> bool
        requires { IsNode self.now n }
        ensures { result ≡ has_element_child self.now n }
    {
        let node = self.node(n);
        let mut at = node.first;
        while let Some(child) = at {
            if self.is_element(child) {
                return true;
            }
            at = self.next_sibling(child);
        }
        false
    }

    // Whether the node is an element.
    fn is_element(&self, n: NodeNo) -> bool
        requires { IsNode self.now n }
        ensures { result ≡ is_element (kind_at self.now n) }
    {
        self.kind(n) == NodeKind::Element
    }

    // The child that stands before another, or the last.
    fn child_before(&self, parent: NodeNo, next: Option<NodeNo>) -> Option<NodeNo>
        requires parent { IsNode self.now parent }
        requires next { IsNodeOrNone self.now next }
        requires child { is_child_or_none self.now parent next ≡ true }
        ensures child { result ≡ preceding next (children_at self.now parent) }
        ensures node { IsNodeOrNone self.now result }
    {
        match next {
            Some(child) => self.node(child).previous,
            None => self.node(parent).last,
        }
    }

    /// Puts a node that has no parent, with all below it, among the children of `parent`, before the child
    /// `before` or at the end (DOM Standard, section "Mutation algorithms", "insert"). NoMemory: memory was refused,
    /// and nothing has changed.
    pub fn insert(
        &mut self,
        alloc: Global,
        parent: NodeNo,
        node: NodeNo,
        before: Option<NodeNo>,
    ) -> Result<(), NoMemory>
        requires parent { IsNode self.old parent }
        requires node { IsNode self.old node }
        requires before { IsNodeOrNone self.old before }
        requires may { may_insert self.old parent node before ≡ None }
        requires free { parent_at self.old node ≡ None }
        ensures tidy { IsTidy self.old }
        ensures still_tidy { IsTidy self.new }
        ensures ok { OnOk result (self.new ≡ graft self.old parent node before) }
        ensures size { size self.new ≡ size self.old }
        ensures kinds { KeepsKinds self.old self.new }
        ensures others { OnOk result (KeepsSpots parent node self.old self.new) }
        ensures apart { OnOk result (connected self.old parent ≡ false → KeepsApart self.old self.new) }
        ensures err { OnErr result (self.new ≡ self.old) }
    {
        let was = self.is_connected(node);
        let is = self.is_connected(parent);
        let next = before;
        let previous = self.child_before(parent, before);
        let empty = Vec::new(alloc);
        let marks = mem::replace(&mut self.marks, empty);
        join(&mut self.nodes, parent, node, previous, next);
        let noted = self.noted(marks, node, was, is);
        self.marks = noted;
        Ok(())
    }
}
