// What is above a node.
ghost use Rattle.std.specs.Prelude.{◌≡◌, true, None};
ghost use Rattle.node_trees.specs.Paths.{path, is_among, root_at, shadow_including_root_at, connected};
ghost use Rattle.node_trees.specs.Spots.{shadow_at, first_child_at};
ghost use Rattle.node_trees.specs.Nodes.{IsNode, IsTidy};
ghost use Rattle.node_trees.specs.Orders.{order_of};
ghost use Rattle.tree_laws.specs.Walks.{IsUp};

use crate::Tree;
use crate::marks::Mark;
use ce_base::NodeNo;
use node_trees::NodeKind;

impl Tree {
    /// The parent, or the host of a shadow root.
    fn above(&self, n: NodeNo) -> Option<NodeNo>
        requires { IsNode self.now n }
        ensures up { IsUp self.now n result }
        ensures tidy { IsTidy self.now }
    {
        let node = self.node(n);
        match node.parent {
            Some(parent) => Some(parent),
            None => node.host,
        }
    }

    /// Whether `node` is `from`, or an ancestor of it, where a host is an ancestor of what its shadow tree
    /// has (DOM Standard, section "Interface DocumentFragment", "host-including inclusive ancestor").
    /// Equally, whether `from` is one of the shadow-including inclusive descendants of `node`.
    pub fn is_inside(&self, node: NodeNo, from: NodeNo) -> bool
        requires { IsNode self.now from }
        ensures above { result ≡ is_among node (path from self.now) }
        ensures walked { result ≡ is_among from (order_of self.now node) }
    {
        let mut at = from;
        loop {
            let above = self.above(at);
            if at == node {
                return true;
            }
            match above {
                None => return false,
                Some(next) => at = next,
            }
        }
    }

    // The same of a node. One with nothing below it is above no other, whatever the depth.
    pub(crate) fn is_above(&self, node: NodeNo, from: NodeNo) -> bool
        requires node { IsNode self.now node }
        requires from { IsNode self.now from }
        ensures { result ≡ is_among node (path from self.now) }
    {
        if self.is_leaf(node) {
            return node == from;
        }
        self.is_inside(node, from)
    }

    // Whether nothing is below the node.
    fn is_leaf(&self, n: NodeNo) -> bool
        requires { IsNode self.now n }
        ensures shadow { result ≡ true → shadow_at self.now n ≡ None }
        ensures child { result ≡ true → first_child_at self.now n ≡ None }
        ensures tidy { IsTidy self.now }
    {
        let node = self.node(n);
        node.shadow.is_none() && node.first.is_none()
    }

    /// The root of the node's own tree (DOM Standard, section "Trees", "root"). In a shadow tree it is the
    /// shadow root.
    pub fn root(&self, n: NodeNo) -> NodeNo
        requires { IsNode self.now n }
        ensures root { result ≡ root_at self.now n }
        ensures node { IsNode self.now result }
    {
        let mut at = n;
        while let Some(parent) = self.node(at).parent {
            at = parent;
        }
        at
    }

    /// Whether the node is connected: whether its shadow-including root is a document (DOM Standard, section
    /// "Shadow tree", "connected").
    pub fn is_connected(&self, n: NodeNo) -> bool
        requires { IsNode self.now n }
        ensures { result ≡ connected self.now n }
    {
        let mut at = n;
        loop {
            match self.mark(at) {
                Mark::Connected => return true,
                Mark::Apart => return false,
                Mark::Unknown => {}
            }
            match self.above(at) {
                Some(next) => at = next,
                None => return self.kind(at) == NodeKind::Document,
            }
        }
    }

    /// The root of the node's tree, from each shadow root on the root of its host's (DOM Standard, section "Interface
    /// ShadowRoot", "shadow-including root").
    pub fn shadow_including_root(&self, n: NodeNo) -> NodeNo
        requires { IsNode self.now n }
        ensures root { result ≡ shadow_including_root_at self.now n }
        ensures node { IsNode self.now result }
    {
        let mut at = n;
        while let Some(next) = self.above(at) {
            at = next;
        }
        at
    }
}
