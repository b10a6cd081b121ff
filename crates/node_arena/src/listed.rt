// The nodes of a list.
ghost use Rattle.std.specs.Prelude.{◌≡◌, ◌<◌, All, Some, length, slice_get};
ghost use Rattle.node_trees.specs.Nodes.{IsNode};

use crate::Tree;
use ce_base::{NodeNo, Nodes};

/// The node at a place of a list of nodes of a tree.
pub fn node_at(tree: &Tree, nodes: &Nodes, place: usize) -> NodeNo
    requires within { place < length nodes.now }
    requires nodes { All (IsNode tree.now) nodes.now }
    ensures here { slice_get nodes.now place ≡ Some result }
    ensures node { IsNode tree.now result }
{
    nodes.get(place).unwrap()
}
