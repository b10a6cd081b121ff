// The tree.
ghost use Rattle.node_arena.specs.Seen.{Forest};
ghost use Rattle.node_arena.specs.Seen.{Forest-prop};
ghost use Rattle.node_arena.specs.NodeLinks.{links};

use crate::marks::Mark;
use crate::node::Node;
use ordered_tables::IdIndex;
use std::marker::Model;

/// The nodes that were made, in their trees. A contract sees the forest: nested lists, in the order of
/// their roots' numbers.
#[derive(Drop)]
pub struct Tree {
    pub(crate) nodes: Vec<Node>,
    pub(crate) ids: IdIndex,
    pub(crate) marks: Vec<Mark>,
    ghost forest: { Forest (links nodes.items) } by { Forest-prop (links nodes.items) },
}

impl Model for Tree {
    ghost use Rattle.node_trees.specs.Trees.{Trees};
    ghost use Rattle.node_trees.specs.TreesCode.{trees_code};

    ghost Value = { Trees };

    ghost coded = { trees_code };

    ghost use Rattle.node_arena.specs.Seen.{seen};
    ghost use Rattle.node_arena.specs.NodeLinks.{links};
    ghost use Rattle.node_arena.specs.Covers.{Covers};

    ghost view = { λ t. seen (links t.nodes.items) t.forest };

    ghost use Rattle.node_arena.specs.Marks.{MarksHold};

    // Who has an id is noted for it, and what is noted of who is connected is so.
    ghost invariant = { λ t. Covers t.ids (links t.nodes.items) × MarksHold t.marks.items (seen (links t.nodes.items) t.forest) };
}
