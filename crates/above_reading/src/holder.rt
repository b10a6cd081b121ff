// The one element with an ID.
ghost use Rattle.std.specs.Prelude.{◌≡◌, true, IfSome};
ghost use Rattle.node_trees.specs.Ids.{has_id};
ghost use Rattle.node_trees.specs.Nodes.{IsNode};
ghost use Rattle.node_trees.specs.Spots.{facts_at};
ghost use Rattle.above_reading.specs.Holders.{IsOnlyHolder};

use ce_base::NodeNo;
use node_arena::{NodeKind, Tree};

/// Whether the number is that of an element with this ID.
fn has_id(tree: &Tree, number: u64, id: &str) -> bool
    ensures node { result ≡ true → IsNode tree.now number }
    ensures has { result ≡ true → has_id id.now (facts_at tree.now number) ≡ true }
{
    if number < 1 || number > tree.count() || id.is_empty() {
        return false;
    }
    let n = NodeNo(number);
    tree.kind(n) == NodeKind::Element && tree.attr(n, "id") == Some(id)
}

/// The element with an ID, where there is one and no other was noted for it.
pub(crate) fn only_holder(tree: &Tree, id: &str) -> Option<NodeNo>
    ensures { IfSome result (IsOnlyHolder tree.now id.now) }
{
    let group = tree.with_id(id)?;
    let number = *group.first()?;
    if group.len() > 1 || !has_id(tree, number, id) {
        return None;
    }
    Some(NodeNo(number))
}
