// What is known of a node, and who stands next to it.
ghost use Rattle.std.specs.Prelude.{◌≡◌, [], ℕ, Some, None, true, false, IfOk, option_copied};
ghost use Rattle.std.specs.Option.{option_or};
ghost use Rattle.node_trees.specs.Facts.{is_element, is_text};
ghost use Rattle.node_trees.specs.Trees.{none, roots, tree_of};
ghost use Rattle.node_trees.specs.Spots.{after, spot_at, facts_at, kind_at, document_at, parent_at};
ghost use Rattle.node_trees.specs.Spots.{host_at, shadow_at, children_at, first_child_at, next_sibling_at};
ghost use Rattle.node_trees.specs.Nodes.{size, HasOwnParts, IsNode, IsNodeOrNone, IsTidy};
ghost use Rattle.node_trees.specs.Links.{below, AreRead};
ghost use Rattle.tree_laws.specs.Beside.{before};
ghost use Rattle.node_arena.specs.Links.{children_of, link_in};
ghost use Rattle.node_arena.specs.NodeLinks.{facts_of, link_from, text_in};
ghost use Rattle.tree_laws.specs.Walks.{IsUp};

use crate::Tree;
use crate::node::Node;
use crate::siblings::index_of;
use ce_base::{NoMemory, NodeNo, Nodes, Text};
use node_trees::NodeKind;
use std::alloc::Global;

/// A text, or the empty one.
fn text_of(part: &Option<Text>) -> &str
    ensures { result.now ≡ text_in part.now }
{
    match part {
        Some(text) => text.as_str(),
        None => "",
    }
}

impl Tree {
    /// How many nodes were made.
    pub fn count(&self) -> u64
        ensures count { result ≡ size self.now }
        ensures tidy { IsTidy self.now }
    {
        self.nodes.len() as u64
    }

    /// A node as it is kept.
    pub(crate) fn node(&self, n: NodeNo) -> &Node
        requires { IsNode self.now n }
        ensures link { link_from result.now ≡ link_in self.now n }
        ensures facts { facts_of result.now ≡ facts_at self.now n }
        ensures parent_is { result.now.parent ≡ parent_at self.now n }
        ensures host_is { result.now.host ≡ host_at self.now n }
        ensures shadow_is { result.now.shadow ≡ shadow_at self.now n }
        ensures first_is { result.now.first ≡ first_child_at self.now n }
        ensures last_is { result.now.last ≡ before None (children_at self.now n) }
        ensures previous_is { result.now.previous ≡ before (Some n) (children_of self.now (parent_at self.now n)) }
        ensures next_is { result.now.next ≡ next_sibling_at self.now n }
        ensures up { IsUp self.now n (option_or result.now.parent result.now.host) }
        ensures parent { IsNodeOrNone self.now result.now.parent }
        ensures host { IsNodeOrNone self.now result.now.host }
        ensures shadow { IsNodeOrNone self.now result.now.shadow }
        ensures first { IsNodeOrNone self.now result.now.first }
        ensures last { IsNodeOrNone self.now result.now.last }
        ensures previous { IsNodeOrNone self.now result.now.previous }
        ensures next { IsNodeOrNone self.now result.now.next }

        // Two shadow roots of one host there are not.
        ensures lone { (m : ℕ) → after m (spot_at self.now n).shadow ≡ None }
        ensures parts { HasOwnParts (facts_at self.now n) }
        ensures tidy { IsTidy self.now }
    {
        &self.nodes[index_of(n)]
    }

    /// What the node is.
    pub fn kind(&self, n: NodeNo) -> NodeKind
        requires { IsNode self.now n }
        ensures { result ≡ kind_at self.now n }
    {
        self.node(n).kind
    }

    /// An element's local name (DOM Standard, section "Interface Element", "local name"), or the empty text.
    pub fn local(&self, n: NodeNo) -> &str
        requires { IsNode self.now n }
        ensures local { result.now ≡ (facts_at self.now n).local }
        ensures lacking { is_element (kind_at self.now n) ≡ false → result.now ≡ [] }
    {
        text_of(&self.node(n).local)
    }

    /// An element's `is` value (DOM Standard, section "Interface Element", "is value"). None where there is
    /// none.
    pub fn is_value(&self, n: NodeNo) -> Option<&str>
        requires { IsNode self.now n }
        ensures value { option_copied result ≡ (facts_at self.now n).is_value }
        ensures lacking { is_element (kind_at self.now n) ≡ false → option_copied result ≡ None }
    {
        match &self.node(n).is_value {
            Some(text) => Some(text.as_str()),
            None => None,
        }
    }

    /// The characters of a text node (DOM Standard, section "Interface CharacterData", "data"), or the empty
    /// text.
    pub fn chars(&self, n: NodeNo) -> &str
        requires { IsNode self.now n }
        ensures chars { result.now ≡ (facts_at self.now n).chars }
        ensures lacking { is_text (kind_at self.now n) ≡ false → result.now ≡ [] }
    {
        text_of(&self.node(n).chars)
    }

    /// The node document (DOM Standard, section "Interface Node", "node document"). A document is made its
    /// own.
    pub fn document(&self, n: NodeNo) -> NodeNo
        requires { IsNode self.now n }
        ensures { result ≡ document_at self.now n }
    {
        self.node(n).document
    }

    /// The parent (DOM Standard, section "Trees", "parent"). None exactly for a root.
    pub fn parent(&self, n: NodeNo) -> Option<NodeNo>
        requires { IsNode self.now n }
        ensures parent { result ≡ parent_at self.now n }
        ensures node { IsNodeOrNone self.now result }
    {
        self.node(n).parent
    }

    /// The host of a shadow root (DOM Standard, section "Interface DocumentFragment", "host"). None exactly
    /// for other nodes.
    pub fn host(&self, n: NodeNo) -> Option<NodeNo>
        requires { IsNode self.now n }
        ensures host { result ≡ host_at self.now n }
        ensures node { IsNodeOrNone self.now result }
    {
        self.node(n).host
    }

    /// The shadow root of an element (DOM Standard, section "Interface Element", "shadow root"). None exactly
    /// where there is none.
    pub fn shadow(&self, n: NodeNo) -> Option<NodeNo>
        requires { IsNode self.now n }
        ensures shadow { result ≡ shadow_at self.now n }
        ensures node { IsNodeOrNone self.now result }
    {
        self.node(n).shadow
    }

    /// The children, in order (DOM Standard, section "Trees", "child"). NoMemory: memory was refused.
    pub fn children(&self, alloc: Global, n: NodeNo) -> Result<Nodes, NoMemory>
        requires { IsNode self.now n }
        ensures children { IfOk result (λ ns. ns ≡ children_at self.now n) }

        // They are the roots of the trees below the node, which are read node by node. Below a text there are none.
        ensures below { children_at self.now n ≡ roots (below (tree_of n self.now)) }
        ensures read { AreRead self.now (below (tree_of n self.now)) }
        ensures lacking { is_text (kind_at self.now n) ≡ true → below (tree_of n self.now) ≡ none }
    {
        let node = self.node(n);
        let mut at = node.first;
        let mut list = Nodes::make(alloc);
        while let Some(child) = at {
            list.push(alloc, child)?;
            at = self.next_sibling(child);
        }
        Ok(list)
    }

    /// The first child (DOM Standard, section "Trees", "first child"). None exactly where there are no
    /// children.
    pub fn first_child(&self, n: NodeNo) -> Option<NodeNo>
        requires { IsNode self.now n }
        ensures child { result ≡ first_child_at self.now n }
        ensures node { IsNodeOrNone self.now result }
    {
        self.node(n).first
    }

    /// The next sibling (DOM Standard, section "Trees", "next sibling"). None exactly for a last child and
    /// for a root.
    pub fn next_sibling(&self, n: NodeNo) -> Option<NodeNo>
        requires { IsNode self.now n }
        ensures sibling { result ≡ next_sibling_at self.now n }
        ensures node { IsNodeOrNone self.now result }
    {
        self.node(n).next
    }
}
