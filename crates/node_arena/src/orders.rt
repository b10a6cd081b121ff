// Tree order and the shadow-including order.
ghost use Rattle.std.specs.Prelude.{◌≡◌, ℕ, None, true, IfOk, IfSome, All};
ghost use Rattle.std.specs.Option.{option_or};
ghost use Rattle.node_trees.specs.Orders.{order_of, tree_order_of};
ghost use Rattle.node_trees.specs.Paths.{connected, is_among};
ghost use Rattle.node_trees.specs.Nodes.{IsNode, IsNodeOrNone, IsTidy};
ghost use Rattle.node_trees.specs.Spots.{after, spot_at, shadow_at, first_child_at};

use crate::Tree;
use ce_base::{NoMemory, NodeNo, Nodes};
use order_walk::first_of;
use std::alloc::Global;

impl Tree {
    /// What comes behind a node of the tree of `root` in that tree's order (DOM Standard, section "Trees", "tree order",
    /// "following"): its first child, or else the next sibling of the nearest of it and what is above it that has one, below
    /// `root`. None exactly behind the last. No memory is taken.
    pub fn next_in_tree(&self, at: NodeNo, root: NodeNo) -> Option<NodeNo>
        requires root { IsNode self.now root }
        requires inside { is_among at (tree_order_of self.now root) ≡ true }
        ensures next { result ≡ after at (tree_order_of self.now root) }
        ensures node { IsNodeOrNone self.now result }
        ensures inside { IfSome result (λ n. is_among n (tree_order_of self.now root) ≡ true) }
    {
        let _count = self.count();
        let child = self.first_child(at);
        if child.is_some() {
            return child;
        }
        let mut up = at;
        while up != root {
            let next = self.next_sibling(up);
            if next.is_some() {
                return next;
            }
            match self.parent(up) {
                Some(parent) => up = parent,
                None => return None,
            }
        }
        None
    }

    /// The node and all below it in its own tree, in tree order (DOM Standard, section "Trees", "tree order").
    /// NoMemory: memory was refused.
    pub fn tree_order(&self, alloc: Global, root: NodeNo) -> Result<Nodes, NoMemory>
        requires { IsNode self.now root }
        ensures { IfOk result (λ ns. ns ≡ tree_order_of self.now root) }
    {
        let _count = self.count();
        let mut out = Nodes::make(alloc);
        let mut at = root;
        loop {
            out.push(alloc, at)?;
            match self.next_in_tree(at, root) {
                Some(next) => at = next,
                None => return Ok(out),
            }
        }
    }

    // The first thing below a node: its shadow root, or else its first child.
    fn first_below(&self, n: NodeNo) -> Option<NodeNo>
        requires { IsNode self.now n }
        ensures below { result ≡ option_or (shadow_at self.now n) (first_child_at self.now n) }
        ensures tidy { IsTidy self.now }
    {
        let node = self.node(n);
        first_of(node.shadow, node.first)
    }

    /// What comes behind a node in the shadow-including tree order of `root` (DOM Standard, section "Interface ShadowRoot",
    /// "shadow-including tree order"): its shadow root, or else its first child, or else the next sibling of the nearest of it
    /// and what is above it that has one, below `root`. Behind a shadow tree comes its host's first child. None exactly behind
    /// the last. No memory is taken.
    pub fn next_in_shadow_order(&self, at: NodeNo, root: NodeNo) -> Option<NodeNo>
        requires root { IsNode self.now root }
        requires inside { is_among at (order_of self.now root) ≡ true }
        ensures next { result ≡ after at (order_of self.now root) }
        ensures node { IsNodeOrNone self.now result }
        ensures inside { IfSome result (λ n. is_among n (order_of self.now root) ≡ true) }
    {
        let _count = self.count();
        let below = self.first_below(at);
        if below.is_some() {
            return below;
        }
        let mut up = at;
        while up != root {
            let next = self.next_sibling(up);
            if next.is_some() {
                return next;
            }
            match self.parent(up) {
                Some(parent) => up = parent,
                None => {
                    let host = self.host(up)?;
                    let child = self.child_of_host(host);
                    if child.is_some() {
                        return child;
                    }
                    up = host;
                }
            }
        }
        None
    }

    // The first child of a host, which has one shadow root.
    fn child_of_host(&self, host: NodeNo) -> Option<NodeNo>
        requires { IsNode self.now host }
        ensures child { result ≡ first_child_at self.now host }
        ensures lone { (m : ℕ) → after m (spot_at self.now host).shadow ≡ None }
    {
        self.node(host).first
    }

    /// The node and all below it in shadow-including tree order (DOM Standard, section "Interface ShadowRoot",
    /// "shadow-including tree order"): a node, then its shadow tree, then its children, each in this order.
    /// They are all connected, or none is. NoMemory: memory was refused.
    pub fn shadow_order(&self, alloc: Global, n: NodeNo) -> Result<Nodes, NoMemory>
        requires { IsNode self.now n }
        ensures order { IfOk result (λ ns. ns ≡ order_of self.now n) }
        ensures nodes { IfOk result (All (IsNode self.now)) }
        ensures connected { IfOk result (All (λ m. connected self.now m ≡ connected self.now n)) }
    {
        let _count = self.count();
        let mut out = Nodes::make(alloc);
        let mut at = n;
        loop {
            out.push(alloc, at)?;
            match self.next_in_shadow_order(at, n) {
                Some(next) => at = next,
                None => return Ok(out),
            }
        }
    }
}
