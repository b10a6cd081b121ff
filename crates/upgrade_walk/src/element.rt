// The elements of an order.
ghost use Rattle.std.specs.Prelude.{◌≡◌, All, IfOk, filter};
ghost use Rattle.node_trees.specs.Facts.{is_element};
ghost use Rattle.node_trees.specs.Kinds.{IsElement};
ghost use Rattle.node_trees.specs.Nodes.{IsNode};
ghost use Rattle.node_trees.specs.Spots.{kind_at};
ghost use Rattle.node_trees.specs.Candidates.{elements};

use ce_base::{NoMemory, NodeNo, Nodes};
use node_arena::{Tree, node_at};
use node_trees::NodeKind;
use std::alloc::Global;

/// Whether a node is an element.
pub(crate) fn is_element(tree: &Tree, n: NodeNo) -> bool
    requires { IsNode tree.now n }
    ensures { result ≡ is_element (kind_at tree.now n) }
{
    tree.kind(n) == NodeKind::Element
}

/// The elements among a node's shadow-including inclusive descendants, in shadow-including tree order (HTML
/// Standard, section "The CustomElementRegistry interface", `upgrade`). `NoMemory` comes only where memory was
/// refused.
pub fn walk(alloc: Global, tree: &Tree, node: NodeNo) -> Result<Nodes, NoMemory>
    requires { IsNode tree.now node }
    ensures elements { IfOk result (λ ns. ns ≡ elements tree.now node) }
    ensures nodes { IfOk result (All (IsElement tree.now)) }
{
    let order = tree.shadow_order(alloc, node)?;
    elements_among(alloc, tree, &order)
}

// The elements among some nodes.
fn elements_among(alloc: Global, tree: &Tree, nodes: &Nodes) -> Result<Nodes, NoMemory>
    requires { All (IsNode tree.now) nodes.now }
    ensures elements { IfOk result (λ ns. ns ≡ filter (λ m. is_element (kind_at tree.now m)) nodes.now) }
    ensures nodes { IfOk result (All (IsElement tree.now)) }
{
    let mut found = Nodes::make(alloc);
    for i in 0..nodes.len() {
        let n = node_at(tree, nodes, i);
        let is_found = is_element(tree, n);
        found.keep_where(alloc, is_found, n)?;
    }
    Ok(found)
}
