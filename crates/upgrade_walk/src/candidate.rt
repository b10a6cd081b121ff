// The elements that a definition may upgrade.
ghost use Rattle.std.specs.Prelude.{◌≡◌, All, IfOk, filter, option_copied};
ghost use Rattle.node_trees.specs.Kinds.{IsElement};
ghost use Rattle.node_trees.specs.Nodes.{IsNode};
ghost use Rattle.node_trees.specs.Spots.{facts_at};
ghost use Rattle.node_trees.specs.Candidates.{candidates, has_is_value, is_candidate};

use crate::element::is_element;
use ce_base::{NoMemory, NodeNo, Nodes};
use node_arena::{Tree, node_at};
use std::alloc::Global;

/// The elements that a new definition may upgrade (HTML Standard, section "The CustomElementRegistry
/// interface", `define`): those among the document's shadow-including inclusive descendants, in
/// shadow-including tree order, that have this local name and, where `is_value` is given, this `is` value.
/// `NoMemory` comes only where memory was refused.
pub fn candidates(
    alloc: Global,
    tree: &Tree,
    document: NodeNo,
    local: &str,
    is_value: Option<&str>,
) -> Result<Nodes, NoMemory>
    requires { IsNode tree.now document }
    ensures candidates { IfOk result (λ ns. ns ≡ candidates local.now (option_copied is_value.entry) tree.now document) }
    ensures nodes { IfOk result (All (IsElement tree.now)) }
{
    let order = tree.shadow_order(alloc, document)?;
    candidates_among(alloc, tree, &order, local, is_value)
}

// The candidates among some nodes.
fn candidates_among(
    alloc: Global,
    tree: &Tree,
    nodes: &Nodes,
    local: &str,
    is_value: Option<&str>,
) -> Result<Nodes, NoMemory>
    requires { All (IsNode tree.now) nodes.now }
    ensures candidates { IfOk result (λ ns. ns ≡ filter (λ n. is_candidate local.now (option_copied is_value.entry) (facts_at tree.now n)) nodes.now) }
    ensures nodes { IfOk result (All (IsElement tree.now)) }
{
    let mut found = Nodes::make(alloc);
    for i in 0..nodes.len() {
        let n = node_at(tree, nodes, i);
        let is_found = is_candidate(tree, n, local, is_value);
        found.keep_where(alloc, is_found, n)?;
    }
    Ok(found)
}

// Whether a node is an element that the definition may upgrade.
fn is_candidate(tree: &Tree, n: NodeNo, local: &str, is_value: Option<&str>) -> bool
    requires { IsNode tree.now n }
    ensures { result ≡ is_candidate local.now (option_copied is_value.entry) (facts_at tree.now n) }
{
    let is_named = is_element(tree, n) && tree.local(n) == local;
    match is_value {
        None => is_named,
        Some(value) => is_named && has_is_value(tree, n, value),
    }
}

// Whether a node has the `is` value.
fn has_is_value(tree: &Tree, n: NodeNo, value: &str) -> bool
    requires { IsNode tree.now n }
    ensures { result ≡ has_is_value (facts_at tree.now n).is_value value.now }
{
    match tree.is_value(n) {
        None => false,
        Some(is_value) => is_value == value,
    }
}
