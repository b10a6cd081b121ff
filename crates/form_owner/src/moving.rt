// Controls that go from list to list, where few do.
ghost use Rattle.std.specs.Prelude.{◌≡◌, ◌<◌, ◌-◌, ◌+◌, ◌==◌, ◌&&◌, [], All, ℕ, false, true, Some, None};
ghost use Rattle.std.specs.Prelude.{filter, find, length, not, slice_get, IfSome, OnOk};
ghost use Rattle.node_trees.specs.Nodes.{IsNode, IsTidy, size};
ghost use Rattle.node_trees.specs.Orders.{tree_order_of};
ghost use Rattle.node_trees.specs.Paths.{is_among, root_at};
ghost use Rattle.tree_laws.proofs.Counts.{AreApart};
ghost use Rattle.form_controls.specs.Changes.{numbers};
ghost use Rattle.form_controls.specs.declared.change.Change.{Change};
ghost use Rattle.owner_rows.specs.OwnerRow.{is_other, row_in, row_of};
ghost use Rattle.form_owner.specs.Groups.{all_after};
ghost use Rattle.form_owner.specs.Moves.{AreEntered, HasNoneBehind, IsTold, after_or_none, is_listed_in, last_listed, listed_after, stays, with_control};
ghost use Rattle.form_owner.specs.Reading.{changes_read, is_owned_in};
ghost use Rattle.form_owner.specs.Told.{AreRising};
ghost use Rattle.form_owner.specs.Writing.{AreRenewed, ListsStood, Written, with_changes, with_told};

use crate::Changes;
use crate::writing::write_all;
use ce_base::{NoMemory, NodeNo};
use node_arena::Tree;
use owner_rows::{Row, controls_in, is_in, owner_in};

/// Takes a node out of a form's list.
fn take_from(rows: &mut [Row], form: NodeNo, n: NodeNo)
    ensures { Written rows.old rows.new (form - 1) (record (row_of rows.old form) { controls = filter (is_other n) (row_of rows.old form).controls }) }
{
    let place = form.place();
    if place < rows.len() {
        let row = &mut rows[place];
        row.take_out(n);
    }
}

/// Takes a node out of the list of its form.
fn leave(rows: &mut [Row], n: NodeNo)
    requires { (i : ℕ) → filter (is_owned_in rows.old (i + 1)) (row_in rows.old i).controls ≡ (row_in rows.old i).controls }
    ensures { (i : ℕ) → row_in rows.new i ≡ record (row_in rows.old i) { controls = filter (is_other n) (row_in rows.old i).controls } }
{
    if let Some(form) = owner_in(rows, n) {
        take_from(rows, form, n);
    }
}

/// Takes a node that moves out of the list of its form.
fn leave_where(moves: bool, rows: &mut [Row], n: NodeNo)
    requires { (i : ℕ) → filter (is_owned_in rows.old (i + 1)) (row_in rows.old i).controls ≡ (row_in rows.old i).controls }
    ensures { (i : ℕ) → row_in rows.new i ≡ record (row_in rows.old i) { controls = filter (λ m. not (moves && n == m)) (row_in rows.old i).controls } }
{
    if moves {
        leave(rows, n);
    }
}

/// Takes each node with a new owner out of the list of its form.
fn leave_all(rows: &mut [Row], changes: &Changes)
    requires { (i : ℕ) → filter (is_owned_in rows.old (i + 1)) (row_in rows.old i).controls ≡ (row_in rows.old i).controls }
    ensures { (i : ℕ) → row_in rows.new i ≡ record (row_in rows.old i) { controls = filter (stays changes.now) (row_in rows.old i).controls } }
{
    for i in 0..changes.len() {
        let change = changes.get(i).unwrap();
        leave_where(change.owner.is_some(), rows, change.node);
    }
}

/// Whether a node is in the list of a form that owns it.
fn is_listed(rows: &[Row], form: NodeNo, n: NodeNo) -> bool
    ensures { result ≡ is_listed_in rows.now form n }
{
    match owner_in(rows, n) {
        None => false,
        Some(owner) => owner == form && is_in(controls_in(rows, form), n),
    }
}

/// What comes behind a node in tree order, where there is one.
fn next_or_none(tree: &Tree, at: Option<NodeNo>, root: NodeNo) -> Option<NodeNo>
    requires root { IsNode tree.now root }
    requires inside { IfSome at (λ n. is_among n (tree_order_of tree.now root) ≡ true) }
    ensures { result ≡ after_or_none (tree_order_of tree.now root) at }
{
    match at {
        None => None,
        Some(n) => tree.next_in_tree(n, root),
    }
}

/// The first of a form's list behind a node, in tree order. The way goes on from the node and, a step each in turn, from the last
/// of the list: where it comes to the node from there, none is behind it.
fn listed_behind(rows: &[Row], tree: &Tree, form: NodeNo, root: NodeNo, n: NodeNo) -> Option<NodeNo>
    requires tidy { IsTidy tree.now }
    requires root { IsNode tree.now root }
    requires inside { is_among n (tree_order_of tree.now root) ≡ true }
    requires last { IfSome (last_listed rows.now form) (HasNoneBehind (is_listed_in rows.now form) (tree_order_of tree.now root)) }
    ensures { result ≡ find (is_listed_in rows.now form) (all_after n (tree_order_of tree.now root)) }
{
    let mut at = n;
    let mut past = controls_in(rows, form).last().copied();
    while let Some(next) = tree.next_in_tree(at, root) {
        if is_listed(rows, form, next) {
            return Some(next);
        }
        at = next;
        past = next_or_none(tree, past, root);
        if past == Some(n) {
            return None;
        }
    }
    None
}

/// Puts a node into a form's list, before another or at the end.
fn put_into(
    rows: &mut [Row],
    form: NodeNo,
    n: NodeNo,
    before: Option<NodeNo>,
) -> Result<(), NoMemory>
    requires within { form - 1 < length rows.old }
    requires apart { AreApart (row_of rows.old form).controls }
    ensures { OnOk result (Written rows.old rows.new (form - 1) (with_control before n (row_of rows.old form))) }
{
    let row = &mut rows[form.place()];
    row.put_in(n, before)?;
    Ok(())
}

/// Puts a node into a form's list, where it stands in tree order. Into a list of none it is put without a look at the tree.
fn enter(tree: &Tree, rows: &mut [Row], form: NodeNo, n: NodeNo) -> Result<(), NoMemory>
    requires form { IsNode tree.now form }
    requires within { form - 1 < length rows.old }
    requires inside { is_among n (tree_order_of tree.now (root_at tree.now form)) ≡ true }
    requires apart { AreApart (row_of rows.old form).controls }
    requires last { IfSome (last_listed rows.old form) (HasNoneBehind (is_listed_in rows.old form) (tree_order_of tree.now (root_at tree.now form))) }
    ensures { OnOk result (Written rows.old rows.new (form - 1) (with_control (listed_after tree.now rows.old form n) n (row_of rows.old form))) }
{
    let _count = tree.count();
    if controls_in(rows, form).is_empty() {
        return put_into(rows, form, n, None);
    }
    let before = listed_behind(rows, tree, form, tree.root(form), n);
    put_into(rows, form, n, before)
}

/// Puts each node with a new form owner into that form's list. The last node comes first, so that what follows it in tree
/// order is mostly in the list already.
fn enter_all(tree: &Tree, rows: &mut [Row], changes: &Changes) -> Result<(), NoMemory>
    requires tidy { IsTidy tree.now }
    requires rows { length rows.old ≡ size tree.now }
    requires told { All (IsTold tree.now rows.old) changes.now }
    requires rising { AreRising changes.now }
    requires left { AreEntered tree.now changes.now rows.old rows.old }
    ensures { OnOk result (AreEntered tree.now [] rows.old rows.new) }
{
    let mut left = changes.len();
    while left > 0 {
        left -= 1;
        let change = changes.get(left).unwrap();
        match change.owner.unwrap_or(None) {
            None => {}
            Some(form) => enter(tree, rows, form, change.node)?,
        }
    }
    Ok(())
}

/// Writes what was read into the rows, and moves each control whose form owner changes from list to list.
pub(crate) fn move_each(tree: &Tree, rows: &mut [Row], changes: &Changes) -> Result<(), NoMemory>
    requires rows { length rows.old ≡ size tree.now }
    requires changes { changes.now ≡ changes_read tree.now rows.old (numbers tree.now) }
    requires lists { ListsStood tree.now rows.old }
    ensures { OnOk result (AreRenewed tree.now rows.old rows.new) }
{
    let _count = tree.count();
    leave_all(rows, changes);
    write_all(rows, changes);
    enter_all(tree, rows, changes)?;
    Ok(())
}
