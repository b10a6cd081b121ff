// Which nodes a touch may change.
ghost use Rattle.std.specs.Prelude.{◌≡◌, ◌==◌, ◌&&◌, ◌||◌, All, OnOk};
ghost use Rattle.std.specs.Option.{option_copied};
ghost use Rattle.node_trees.specs.Nodes.{IsNode};
ghost use Rattle.node_trees.specs.Paths.{is_among};
ghost use Rattle.form_controls.specs.Kinds.{is_a};
ghost use Rattle.ordered_tables.specs.Held.{is_held, is_known};
ghost use Rattle.form_owner.specs.Candidates.{Considers, is_concerned, is_named_by, is_with};
ghost use Rattle.form_owner.specs.Looks.{AreNotedWhole, AreRight};

use crate::looks::{Look, Looks};
use ce_base::{NoMemory, NodeNo, Nodes};
use element_names::Native;
use form_kinds::is_a;
use node_arena::{Tree, node_at};
use ordered_tables::{IdIndex, NodeSet};
use owner_reading::is_listed;
use owner_rows::{Row, associated_in};

/// Whether forms are about a node: it is listed, or an option.
pub(crate) fn is_concerned(tree: &Tree, rows: &[Row], n: NodeNo) -> bool
    requires { IsNode tree.now n }
    ensures { result ≡ is_concerned tree.now rows.now n }
{
    is_listed(tree, n, associated_in(rows, n)) || is_a(tree, n, Native::OptionItem)
}

/// Puts a node into a set where forms are about it.
pub(crate) fn consider(
    tree: &Tree,
    rows: &[Row],
    n: NodeNo,
    found: &mut NodeSet,
) -> Result<(), NoMemory>
    requires { IsNode tree.now n }
    ensures { OnOk result (Considers tree.now (is_concerned tree.now rows.now) (λ m. n == m) found.old found.new) }
{
    if is_concerned(tree, rows, n) {
        found.add(n)?;
    }
    Ok(())
}

/// The same of each of some nodes.
pub(crate) fn consider_all(
    tree: &Tree,
    rows: &[Row],
    nodes: &Nodes,
    found: &mut NodeSet,
) -> Result<(), NoMemory>
    requires { All (IsNode tree.now) nodes.now }
    ensures { OnOk result (Considers tree.now (is_concerned tree.now rows.now) (λ m. is_among m nodes.now) found.old found.new) }
{
    for i in 0..nodes.len() {
        consider(tree, rows, node_at(tree, nodes, i), found)?;
    }
    Ok(())
}

/// The same of what has this number, if there is such a node.
fn consider_number(
    tree: &Tree,
    rows: &[Row],
    number: u64,
    found: &mut NodeSet,
) -> Result<(), NoMemory>
    ensures { OnOk result (Considers tree.now (is_concerned tree.now rows.now) (λ m. number == m) found.old found.new) }
{
    if number >= 1 && number <= tree.count() {
        consider(tree, rows, NodeNo(number), found)?;
    }
    Ok(())
}

/// The same of those whose `form` attribute was seen to be this text, if there is one. Says how many were gone through.
pub(crate) fn consider_named(
    tree: &Tree,
    rows: &[Row],
    named: &IdIndex,
    id: Option<&str>,
    found: &mut NodeSet,
) -> Result<u64, NoMemory>
    ensures { OnOk result (Considers tree.now (is_concerned tree.now rows.now) (is_named_by (is_held named.now) (option_copied id.entry)) found.old found.new) }
{
    let Some(id) = id else {
        return Ok(0);
    };
    let Some(group) = named.group(id) else {
        return Ok(0);
    };
    for number in group {
        consider_number(tree, rows, *number, found)?;
    }
    Ok(group.len() as u64)
}

/// The same of a node, where it is noted that forms may be about it.
pub(crate) fn consider_noted(
    tree: &Tree,
    rows: &[Row],
    looks: &Looks,
    n: NodeNo,
    found: &mut NodeSet,
) -> Result<(), NoMemory>
    requires node { IsNode tree.now n }
    requires noted { AreNotedWhole tree.now rows.now looks.now }
    ensures { OnOk result (Considers tree.now (is_concerned tree.now rows.now) (λ m. n == m) found.old found.new) }
{
    match looks.at(n) {
        Look::Whole => consider(tree, rows, n, found),
        Look::Id => Ok(()),
        Look::Nothing => Ok(()),
    }
}

/// The same of a node that moved, and of those whose `form` attribute was seen to be its ID. Says how many those are.
pub(crate) fn consider_moved(
    tree: &Tree,
    rows: &[Row],
    named: &IdIndex,
    looks: &Looks,
    n: NodeNo,
    found: &mut NodeSet,
) -> Result<u64, NoMemory>
    requires node { IsNode tree.now n }
    requires looks { AreRight tree.now rows.now (is_known named.now) looks.now }
    ensures { OnOk result (Considers tree.now (is_concerned tree.now rows.now) (is_with tree.now (is_held named.now) n) found.old found.new) }
{
    match looks.at(n) {
        Look::Nothing => return Ok(0),
        Look::Id => {}
        Look::Whole => consider(tree, rows, n, found)?,
    }
    let named_by = consider_named(tree, rows, named, tree.attr(n, "id"), found)?;
    Ok(named_by)
}
