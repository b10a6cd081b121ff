// The options of a select.
ghost use Rattle.std.specs.Prelude.{◌≡◌, ◌++◌, All, IfOk, OnOk};
ghost use Rattle.node_trees.specs.Nodes.{IsNode, IsNodeOrNone};
ghost use Rattle.node_trees.specs.Spots.{first_of};
ghost use Rattle.form_controls.specs.Options.{is_multiple, option_children, options_at, options_of, select_of, where_select};

use ce_base::{NoMemory, NodeNo, Nodes};
use element_names::Native;
use form_kinds::{has_attribute, is_a};
use node_arena::Tree;
use std::alloc::Global;

/// A node, where it is a select.
fn where_select(tree: &Tree, n: Option<NodeNo>) -> Option<NodeNo>
    requires { IsNodeOrNone tree.now n }
    ensures select { result ≡ where_select tree.now n }
    ensures node { IsNodeOrNone tree.now result }
{
    match n {
        None => None,
        Some(n) => {
            if is_a(tree, n, Native::Select) {
                Some(n)
            } else {
                None
            }
        }
    }
}

/// The select among whose options an option is (HTML Standard, section "The select element", "list of options"). None
/// exactly where it is in none.
pub fn select_of(tree: &Tree, option: NodeNo) -> Option<NodeNo>
    requires { IsNode tree.now option }
    ensures select { result ≡ select_of tree.now option }
    ensures node { IsNodeOrNone tree.now result }
{
    match tree.parent(option) {
        None => None,
        Some(parent) => {
            if is_a(tree, parent, Native::Optgroup) {
                where_select(tree, tree.parent(parent))
            } else {
                where_select(tree, Some(parent))
            }
        }
    }
}

/// Whether several options of a select can be chosen (HTML Standard, section "The select element", `multiple`).
pub fn is_multiple(tree: &Tree, select: NodeNo) -> bool
    requires { IsNode tree.now select }
    ensures { result ≡ is_multiple tree.now select }
{
    has_attribute(tree, select, "multiple")
}

/// Lists the options among the children of an optgroup.
fn list_children(
    alloc: Global,
    tree: &Tree,
    list: &mut Nodes,
    group: NodeNo,
) -> Result<(), NoMemory>
    requires { IsNode tree.now group }
    ensures { OnOk result (list.new ≡ list.old ++ option_children tree.now group) }
{
    let _count = tree.count();
    let mut next = tree.first_child(group);
    while let Some(child) = next {
        if is_a(tree, child, Native::OptionItem) {
            list.push(alloc, child)?;
        }
        next = tree.next_sibling(child);
    }
    Ok(())
}

/// Lists an option, or the options of an optgroup.
fn list_at(alloc: Global, tree: &Tree, list: &mut Nodes, child: NodeNo) -> Result<(), NoMemory>
    requires { IsNode tree.now child }
    ensures { OnOk result (list.new ≡ list.old ++ options_at tree.now child) }
{
    if is_a(tree, child, Native::OptionItem) {
        return list.push(alloc, child);
    }
    if is_a(tree, child, Native::Optgroup) {
        return list_children(alloc, tree, list, child);
    }
    Ok(())
}

/// The options of a select, in tree order (HTML Standard, section "The select element", "list of options"). NoMemory:
/// memory was refused.
pub fn options_of(alloc: Global, tree: &Tree, select: NodeNo) -> Result<Nodes, NoMemory>
    requires { IsNode tree.now select }
    ensures list { IfOk result (λ ns. ns ≡ options_of tree.now select) }
    ensures nodes { IfOk result (All (IsNode tree.now)) }
{
    let _count = tree.count();
    let mut list = Nodes::make(alloc);
    let mut next = tree.first_child(select);
    while let Some(child) = next {
        list_at(alloc, tree, &mut list, child)?;
        next = tree.next_sibling(child);
    }
    Ok(list)
}

/// The first option among the children of an optgroup.
fn first_child_option(tree: &Tree, group: NodeNo) -> Option<NodeNo>
    requires { IsNode tree.now group }
    ensures { result ≡ first_of (option_children tree.now group) }
{
    let _count = tree.count();
    let mut found = None;
    let mut next = tree.first_child(group);
    while let Some(child) = next {
        if is_a(tree, child, Native::OptionItem) {
            found = found.or(Some(child));
        }
        next = tree.next_sibling(child);
    }
    found
}

/// An option, or the first option of an optgroup.
fn first_option_at(tree: &Tree, child: NodeNo) -> Option<NodeNo>
    requires { IsNode tree.now child }
    ensures { result ≡ first_of (options_at tree.now child) }
{
    if is_a(tree, child, Native::OptionItem) {
        return Some(child);
    }
    if is_a(tree, child, Native::Optgroup) {
        return first_child_option(tree, child);
    }
    None
}

/// The first option of a select (HTML Standard, section "The select element", "list of options"). None exactly where it has
/// none. No list is built.
pub fn first_option(tree: &Tree, select: NodeNo) -> Option<NodeNo>
    requires { IsNode tree.now select }
    ensures { result ≡ first_of (options_of tree.now select) }
{
    let _count = tree.count();
    let mut found = None;
    let mut next = tree.first_child(select);
    while let Some(child) = next {
        found = found.or(first_option_at(tree, child));
        next = tree.next_sibling(child);
    }
    found
}
