// Which nodes each touch may change, as sets.
ghost use Rattle.std.specs.Prelude.{◌≡◌, ◌==◌, [], true, false, IfOk, OnOk};
ghost use Rattle.std.specs.Option.{option_copied};
ghost use Rattle.node_trees.specs.Nodes.{IsNode, IsTidy};
ghost use Rattle.node_trees.specs.Orders.{order_of};
ghost use Rattle.ordered_tables.specs.Held.{is_held, is_known};
ghost use Rattle.form_owner.specs.Candidates.{Considers, is_concerned, is_of_change, is_of_group, is_of_ids, is_of_legend, is_of_move, is_with_among};
ghost use Rattle.form_owner.specs.Looks.{AreNotedWhole, AreRight};

use crate::candidates::{consider, consider_all, consider_moved, consider_named, consider_noted};
use crate::looks::Looks;
use ce_base::{NoMemory, NodeNo};
use element_names::Native;
use form_kinds::{has_disabled, is_a};
use node_arena::Tree;
use ordered_tables::{IdIndex, NodeSet};
use owner_rows::{Row, disabled_seen_in, id_seen_in};
use std::alloc::Global;

/// Where a legend came to a fieldset, or went, what is in the fieldset's tree.
fn consider_fieldset(
    alloc: Global,
    tree: &Tree,
    rows: &[Row],
    n: NodeNo,
    parent: NodeNo,
    found: &mut NodeSet,
) -> Result<(), NoMemory>
    requires tidy { IsTidy tree.now }
    requires node { IsNode tree.now n }
    requires parent { IsNode tree.now parent }
    ensures { OnOk result (Considers tree.now (is_concerned tree.now rows.now) (is_of_legend tree.now n parent) found.old found.new) }
{
    if is_a(tree, n, Native::Legend) && is_a(tree, parent, Native::Fieldset) {
        let below = tree.tree_order(alloc, parent)?;
        consider_all(tree, rows, &below, found)?;
    }
    Ok(())
}

/// What moved with a node, and what names an ID of that, so many steps: along the links of the tree, and through what names an
/// ID. Says whether the walk came to its end.
fn consider_near(
    tree: &Tree,
    rows: &[Row],
    named: &IdIndex,
    looks: &Looks,
    n: NodeNo,
    steps: u64,
    found: &mut NodeSet,
) -> Result<bool, NoMemory>
    requires tidy { IsTidy tree.now }
    requires node { IsNode tree.now n }
    requires looks { AreRight tree.now rows.now (is_known named.now) looks.now }
    ensures some { OnOk result (Considers tree.now (is_concerned tree.now rows.now) (λ m. false) found.old found.new) }
    ensures all { IfOk result (λ ended. ended ≡ true → Considers tree.now (is_concerned tree.now rows.now)
        (is_with_among tree.now (is_held named.now) (order_of tree.now n)) found.old found.new) }
{
    let mut at = n;
    let mut left = steps;
    loop {
        let named_by = consider_moved(tree, rows, named, looks, at, found)?;
        match tree.next_in_shadow_order(at, n) {
            Some(next) => at = next,
            None => return Ok(true),
        }
        if left <= named_by {
            return Ok(false);
        }
        left -= named_by;
        left -= 1;
    }
}

/// Each node that forms may be about.
fn consider_each(
    tree: &Tree,
    rows: &[Row],
    looks: &Looks,
    found: &mut NodeSet,
) -> Result<(), NoMemory>
    requires { AreNotedWhole tree.now rows.now looks.now }
    ensures { OnOk result (Considers tree.now (is_concerned tree.now rows.now) (λ m. true) found.old found.new) }
{
    let count = tree.count();
    let mut n = 0;
    while n < count {
        n += 1;
        consider_noted(tree, rows, looks, NodeNo(n), found)?;
    }
    Ok(())
}

/// What moved with a node, and what names an ID of that: along the links of the tree, and where that goes on for long, whatever
/// forms are about, by the notes of all nodes.
fn consider_inside(
    tree: &Tree,
    rows: &[Row],
    named: &IdIndex,
    looks: &Looks,
    n: NodeNo,
    found: &mut NodeSet,
) -> Result<(), NoMemory>
    requires tidy { IsTidy tree.now }
    requires node { IsNode tree.now n }
    requires looks { AreRight tree.now rows.now (is_known named.now) looks.now }
    ensures { OnOk result (Considers tree.now (is_concerned tree.now rows.now)
        (is_with_among tree.now (is_held named.now) (order_of tree.now n)) found.old found.new) }
{
    if consider_near(tree, rows, named, looks, n, looks.steps(), found)? {
        return Ok(());
    }
    consider_each(tree, rows, looks, found)
}

/// What the move of a node to a parent, or away from it, may change: what moved, what names an ID of it, and what is in a
/// fieldset that has another first legend.
pub(crate) fn of_move(
    alloc: Global,
    tree: &Tree,
    rows: &[Row],
    named: &IdIndex,
    looks: &Looks,
    n: NodeNo,
    parent: NodeNo,
) -> Result<NodeSet, NoMemory>
    requires tidy { IsTidy tree.now }
    requires node { IsNode tree.now n }
    requires parent { IsNode tree.now parent }
    requires looks { AreRight tree.now rows.now (is_known named.now) looks.now }
    ensures { IfOk result (Considers tree.now (is_concerned tree.now rows.now) (is_of_move tree.now (is_held named.now) n parent) []) }
{
    let mut found = NodeSet::make(alloc);
    consider_inside(tree, rows, named, looks, n, &mut found)?;
    consider_fieldset(alloc, tree, rows, n, parent, &mut found)?;
    Ok(found)
}

/// What is below a fieldset or an optgroup.
fn consider_below(
    alloc: Global,
    tree: &Tree,
    rows: &[Row],
    n: NodeNo,
    found: &mut NodeSet,
) -> Result<(), NoMemory>
    requires tidy { IsTidy tree.now }
    requires node { IsNode tree.now n }
    ensures { OnOk result (Considers tree.now (is_concerned tree.now rows.now) (is_of_group tree.now n) found.old found.new) }
{
    if is_a(tree, n, Native::Fieldset) {
        let below = tree.tree_order(alloc, n)?;
        return consider_all(tree, rows, &below, found);
    }
    if is_a(tree, n, Native::Optgroup) {
        let below = tree.children(alloc, n)?;
        return consider_all(tree, rows, &below, found);
    }
    Ok(())
}

/// Where an ID came or went, what names it.
fn consider_ids(
    tree: &Tree,
    rows: &[Row],
    named: &IdIndex,
    old: Option<&str>,
    new: Option<&str>,
    found: &mut NodeSet,
) -> Result<(), NoMemory>
    ensures { OnOk result (Considers tree.now (is_concerned tree.now rows.now)
        (is_of_ids (is_held named.now) (option_copied old.entry) (option_copied new.entry)) found.old found.new) }
{
    if old != new {
        consider_named(tree, rows, named, old, found)?;
        consider_named(tree, rows, named, new, found)?;
    }
    Ok(())
}

/// What an attribute of a node that was set or taken away may change: the node itself, what names an ID that came or went,
/// and what is below a fieldset or an optgroup that is disabled no more, or now.
pub(crate) fn of_change(
    alloc: Global,
    tree: &Tree,
    rows: &[Row],
    named: &IdIndex,
    n: NodeNo,
) -> Result<NodeSet, NoMemory>
    requires tidy { IsTidy tree.now }
    requires node { IsNode tree.now n }
    ensures { IfOk result (Considers tree.now (is_concerned tree.now rows.now) (is_of_change tree.now rows.now (is_held named.now) n) []) }
{
    let mut found = NodeSet::make(alloc);
    consider(tree, rows, n, &mut found)?;
    consider_ids(
        tree,
        rows,
        named,
        id_seen_in(rows, n),
        tree.attr(n, "id"),
        &mut found,
    )?;
    if disabled_seen_in(rows, n) != has_disabled(tree, n) {
        consider_below(alloc, tree, rows, n, &mut found)?;
    }
    Ok(found)
}

/// What the definition of an element may change: the element.
pub(crate) fn of_mark(alloc: Global, tree: &Tree, n: NodeNo) -> Result<NodeSet, NoMemory>
    requires { IsNode tree.now n }
    ensures { IfOk result (Considers tree.now (λ m. true) (λ m. n == m) []) }
{
    let mut found = NodeSet::make(alloc);
    found.add(n)?;
    Ok(found)
}
