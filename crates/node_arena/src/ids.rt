// Elements by their ids.
ghost use Rattle.std.specs.Prelude.{◌≡◌, ℕ, List, true, false, IfSome};
ghost use Rattle.std.specs.BTreeSet.{contains};
ghost use Rattle.std.specs.Option.{option_map_or};
ghost use Rattle.std.specs.Ordering.{nat_cmp};
ghost use Rattle.node_trees.specs.Spots.{facts_at};
ghost use Rattle.node_trees.specs.Ids.{first_with_id, has_id};
ghost use Rattle.node_trees.specs.Orders.{tree_order_of};
ghost use Rattle.node_trees.specs.Paths.{is_among};
ghost use Rattle.node_arena.specs.Holders.{is_holder};
ghost use Rattle.node_trees.specs.Nodes.{IsNode, IsNodeOrNone, IsTidy};

use crate::Tree;
use ce_base::NodeNo;
use node_trees::NodeKind;
use std::collections::BTreeSet;

/// How many steps the search for an ID takes at first in tree order.
const FIRST_STEPS: u64 = 16;

/// How many steps up take as long as one in tree order.
const UP: u64 = 16;

impl Tree {
    /// The numbers of the nodes that were noted for an ID (DOM Standard, section "Interface Element", "ID"). Each element
    /// whose ID it is is among them, connected or not, and there may be others. None only where no element has the ID.
    pub fn with_id(&self, id: &str) -> Option<&BTreeSet<u64>>
        ensures { (m : ℕ) → has_id id.now (facts_at self.now m) ≡ true → option_map_or (λ s. contains nat_cmp s.now m) result false ≡ true }
    {
        self.ids.group(id)
    }

    /// Of the node and what is below it in its own tree, the first element in tree order whose ID this is
    /// (DOM Standard, section "Mixin NonElementParentNode", `getElementById`). An empty text is no ID.
    /// None exactly where there is none.
    ///
    /// It is looked for among the nodes that were noted for the ID, and by a walk in tree order, in turns of so many steps
    /// that double: so it takes a few times as long as the shorter way, at most.
    pub fn first_with_id(&self, root: NodeNo, id: &str) -> Option<NodeNo>
        requires { IsNode self.now root }
        ensures found { result ≡ first_with_id self.now root id.now }
        ensures node { IsNodeOrNone self.now result }
    {
        let count = self.count();
        let mut steps: u64 = FIRST_STEPS;
        while steps < count {
            if let Some(found) = self.first_held(root, id, steps.saturating_mul(UP)) {
                return found;
            }
            if let Some(found) = self.first_met(root, id, steps) {
                return found;
            }
            steps = steps.saturating_mul(2);
        }
        self.first_walked(root, id)
    }

    // The same answer from the nodes that were noted for the ID. None where that takes more steps, one for each step up and one
    // for each of these nodes, or where more than one in the tree have the ID.
    fn first_held(&self, root: NodeNo, id: &str, steps: u64) -> Option<Option<NodeNo>>
        requires { IsNode self.now root }
        ensures found { IfSome result (λ found. found ≡ first_with_id self.now root id.now) }
        ensures node { IfSome result (IsNodeOrNone self.now) }
    {
        let Some(group) = self.ids.group(id) else {
            return Some(None);
        };
        let mut left = steps;
        let mut found = None;
        for holder in group {
            let n = NodeNo(*holder);
            let (is_holder, rest) = self.is_holder(n, root, id, left)?;
            left = rest.checked_sub(1)?;
            if is_holder {
                if found.is_some() {
                    return None;
                }
                found = Some(n);
            }
        }
        Some(found)
    }

    // Whether the number is that of a node with this ID in the tree of `root`, and how many of these steps up are left. None
    // where it takes more.
    fn is_holder(&self, n: NodeNo, root: NodeNo, id: &str, steps: u64) -> Option<(bool, u64)>
        requires { IsNode self.now root }
        ensures is { IfSome result (λ r. r.0 ≡ is_holder self.now root id.now n) }
        ensures node { IfSome result (λ r. r.0 ≡ true → IsNode self.now n) }
    {
        if !self.is_made(n) || !self.has_id(n, id) {
            return Some((false, steps));
        }
        self.is_below(n, root, steps)
    }

    // Whether the number is that of a node.
    fn is_made(&self, n: NodeNo) -> bool
        ensures made { result ≡ true → IsNode self.now n }
        ensures not { result ≡ false → (id : List ℕ) → has_id id (facts_at self.now n) ≡ false }
    {
        let count = self.count();
        n.0 >= 1 && n.0 <= count
    }

    // Whether the node is `root`, or below it in its own tree, and how many of these steps up are left. None where it takes
    // more.
    fn is_below(&self, n: NodeNo, root: NodeNo, steps: u64) -> Option<(bool, u64)>
        requires node { IsNode self.now n }
        requires root { IsNode self.now root }
        ensures { IfSome result (λ r. r.0 ≡ is_among n (tree_order_of self.now root)) }
    {
        let _count = self.count();
        let mut left = steps;
        let mut at = n;
        while at != root {
            match self.parent(at) {
                Some(parent) => at = parent,
                None => return Some((false, left)),
            }
            left = left.checked_sub(1)?;
        }
        Some((true, left))
    }

    // The same answer by a walk in tree order. None where that takes more steps.
    fn first_met(&self, root: NodeNo, id: &str, steps: u64) -> Option<Option<NodeNo>>
        requires { IsNode self.now root }
        ensures found { IfSome result (λ found. found ≡ first_with_id self.now root id.now) }
        ensures node { IfSome result (IsNodeOrNone self.now) }
    {
        let mut left = steps;
        let mut at = root;
        loop {
            if self.has_id(at, id) {
                return Some(Some(at));
            }
            match self.next_in_tree(at, root) {
                Some(next) => at = next,
                None => return Some(None),
            }
            left = left.checked_sub(1)?;
        }
    }

    // The same answer by a walk in tree order to its end.
    fn first_walked(&self, root: NodeNo, id: &str) -> Option<NodeNo>
        requires { IsNode self.now root }
        ensures found { result ≡ first_with_id self.now root id.now }
        ensures node { IsNodeOrNone self.now result }
    {
        let mut at = root;
        loop {
            if self.has_id(at, id) {
                return Some(at);
            }
            match self.next_in_tree(at, root) {
                Some(next) => at = next,
                None => return None,
            }
        }
    }

    // Whether the node is an element whose ID this is.
    fn has_id(&self, n: NodeNo, id: &str) -> bool
        requires { IsNode self.now n }
        ensures has { result ≡ has_id id.now (facts_at self.now n) }
        ensures tidy { IsTidy self.now }
    {
        let node = self.node(n);
        if id.is_empty() || node.kind != NodeKind::Element {
            return false;
        }
        match node.attributes.get("id") {
            Some(value) => value == id,
            None => false,
        }
    }
}
