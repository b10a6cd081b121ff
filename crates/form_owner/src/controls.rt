// The controls of forms.
ghost use Rattle.std.specs.Prelude.{◌≡◌, ◌<◌, ◌-◌, ◌++◌, ◌∷◌, [], if◌then◌else◌};
ghost use Rattle.std.specs.Prelude.{All, Some, filter, length, IfOk, OnOk};
ghost use Rattle.node_trees.specs.Nodes.{IsNode, size};
ghost use Rattle.owner_rows.specs.OwnerRow.{row_of};
ghost use Rattle.form_owner.specs.Reading.{is_owned_in, owned_in};
ghost use Rattle.form_owner.specs.Writing.{Written, AreListed};

use ce_base::{NoMemory, NodeNo, Nodes};
use node_arena::{Tree, node_at};
use owner_rows::{Row, owner_in};
use std::alloc::Global;

/// Whether a form is the owner of a node, by the rows.
fn is_owned(rows: &[Row], form: NodeNo, n: NodeNo) -> bool
    ensures { result ≡ is_owned_in rows.now form n }
{
    match owner_in(rows, n) {
        None => false,
        Some(owner) => owner == form,
    }
}

/// Puts a node behind those that were found, where it is one.
fn keep_where(is_found: bool, found: &mut Vec<NodeNo>, n: NodeNo) -> Result<(), NoMemory>
    ensures { OnOk result (found.new.items ≡ found.old.items ++ (if is_found then n ∷ [] else [])) }
{
    if is_found {
        found.push(n)?;
    }
    Ok(())
}

/// Those of some nodes that a form owns.
fn owned_among(
    alloc: Global,
    rows: &[Row],
    order: &Nodes,
    form: NodeNo,
) -> Result<Vec<NodeNo>, NoMemory>
    ensures { IfOk result (λ ns. ns.items ≡ filter (is_owned_in rows.now form) order.now) }
{
    let mut found = Vec::new(alloc);
    for i in 0..order.len() {
        let n = order.get(i).unwrap();
        let is_found = is_owned(rows, form, n);
        keep_where(is_found, &mut found, n)?;
    }
    Ok(found)
}

/// The nodes that a form owns, in tree order.
fn owned(alloc: Global, tree: &Tree, rows: &[Row], form: NodeNo) -> Result<Vec<NodeNo>, NoMemory>
    requires { IsNode tree.now form }
    ensures { IfOk result (λ ns. ns.items ≡ owned_in rows.now tree.now form) }
{
    let order = tree.tree_order(alloc, tree.root(form))?;
    owned_among(alloc, rows, &order, form)
}

/// Lists the controls of a form anew.
fn list_of(alloc: Global, tree: &Tree, rows: &mut [Row], form: NodeNo) -> Result<(), NoMemory>
    requires node { IsNode tree.now form }
    requires within { form - 1 < length rows.old }
    ensures { OnOk result (Written rows.old rows.new (form - 1) (record (row_of rows.old form) { controls = owned_in rows.old tree.now form })) }
{
    let controls = owned(alloc, tree, rows, form)?;
    let row = &mut rows[form.place()];
    row.set_controls(controls);
    Ok(())
}

/// Lists the controls of these forms anew.
pub(crate) fn list_controls(
    alloc: Global,
    tree: &Tree,
    rows: &mut [Row],
    forms: &Nodes,
) -> Result<(), NoMemory>
    requires rows { length rows.old ≡ size tree.now }
    requires nodes { All (IsNode tree.now) forms.now }
    ensures { OnOk result (AreListed tree.now forms.now rows.old rows.new) }
{
    for i in 0..forms.len() {
        list_of(alloc, tree, rows, node_at(tree, forms, i))?;
    }
    Ok(())
}
