// Removal.
ghost use Rattle.std.specs.Prelude.{◌≡◌, ◌≢◌, ℕ, Option, Some, None, IsSome};
ghost use Rattle.node_trees.specs.Trees.{cut};
ghost use Rattle.node_trees.specs.Spots.{next_sibling_at, parent_at};
ghost use Rattle.node_trees.specs.Insertion.{may_insert};
ghost use Rattle.node_trees.specs.Nodes.{size, IsNode, IsTidy};
ghost use Rattle.node_trees.specs.Kinds.{KeepsKinds};

use crate::Tree;
use crate::siblings::part;
use ce_base::NodeNo;
use std::mem;

impl Tree {
    /// Takes a node that has a parent, with all below it, out of its parent's children (DOM Standard,
    /// section "Mutation algorithms", "remove").
    pub fn remove(&mut self, node: NodeNo)
        requires node { IsNode self.old node }
        requires placed { IsSome (parent_at self.old node) }
        ensures tidy { IsTidy self.old }
        ensures still_tidy { IsTidy self.new }
        ensures cut { self.new ≡ cut self.old node }
        ensures size { size self.new ≡ size self.old }
        ensures kinds { KeepsKinds self.old self.new }
        ensures free { parent_at self.new node ≡ None }

        // An insertion of this node that was allowed is still allowed; where it was to go before itself, its next
        // sibling takes its place.
        ensures may { (p : ℕ) (b : Option ℕ) → may_insert self.old p node b ≡ None → b ≢ Some node → may_insert self.new p node b ≡ None }
        ensures may_in_place { (p : ℕ) → IsNode self.old p → may_insert self.old p node (Some node) ≡ None
            → may_insert self.new p node (next_sibling_at self.old node) ≡ None }
    {
        let was = self.is_connected(node);
        let kept = self.node(node);
        let previous = kept.previous;
        let next = kept.next;
        if let Some(parent) = kept.parent {
            let empty = Vec::new(*self.marks.allocator());
            let marks = mem::replace(&mut self.marks, empty);
            part(&mut self.nodes, parent, node, previous, next);
            let is = self.is_connected(node);
            let noted = self.noted(marks, node, was, is);
            self.marks = noted;
        }
    }
}
