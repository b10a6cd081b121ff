// Rows that are read off the tree anew.
ghost use Rattle.std.specs.Prelude.{◌≡◌, ◌<◌, ◌-◌, ◌++◌, ◌∷◌, [], All, ℕ, false, if◌then◌else◌, length, nat_eq, IfOk, OnOk};
ghost use Rattle.std.specs.Bool.{beq};
ghost use Rattle.std.specs.Option.{option_eq};
ghost use Rattle.std.specs.List.Sorted.{IsStrictlyIncreasing};
ghost use Rattle.node_trees.specs.Nodes.{IsNode, IsTidy, size};
ghost use Rattle.node_trees.specs.Paths.{is_among};
ghost use Rattle.form_controls.specs.Changes.{is_change, numbers, where_new};
ghost use Rattle.form_controls.specs.declared.change.Change.{Change};
ghost use Rattle.owner_rows.specs.OwnerRow.{row_of};
ghost use Rattle.form_owner.specs.Reading.{change_read, changes_read};
ghost use Rattle.form_owner.specs.Writing.{AreRenewed, ListsStood};

use crate::controls::list_controls;
use crate::involved::involved;
use crate::moving::move_each;
use crate::writing::write_all;
use crate::{Change, Changes};
use above_reading::{Reading, Readings};
use ce_base::{NoMemory, NodeNo, Nodes};
use node_arena::{Tree, node_at};
use owner_rows::{Row, associated_in, controls_in, disabled_in, owner_in};
use std::alloc::Global;

/// How many nodes are few. Of more candidates what stands above them is read once; with more changes a form's list may be made
/// anew by a walk of its tree, since each that comes to a long list shifts what is behind it.
const FEW: usize = 16;

/// How many entries of lists are gone over in the time of one node of such a walk, as it was measured: a node is looked up and
/// its owner too, and entries are shifted many at once.
const ENTRIES: u64 = 128;

/// What differs for a node between its row and what was read of it.
fn change_to(rows: &[Row], n: NodeNo, reading: &Reading) -> Change
    ensures { result ≡ record {
      node = n;
      owner = where_new (option_eq nat_eq) (row_of rows.now n).owner reading.now.owner;
      disabled = where_new beq (row_of rows.now n).disabled reading.now.disabled;
    } }
{
    let new_owner = if owner_in(rows, n) == reading.owner {
        None
    } else {
        Some(reading.owner)
    };
    let new_disabled = if disabled_in(rows, n) == reading.disabled {
        None
    } else {
        Some(reading.disabled)
    };
    Change {
        node: n,
        owner: new_owner,
        disabled: new_disabled,
    }
}

/// Puts a change behind others, where it says something.
fn keep(changes: &mut Changes, change: Change) -> Result<(), NoMemory>
    ensures { OnOk result (changes.new ≡ changes.old ++ (if is_change change then change ∷ [] else [])) }
{
    if change.owner.is_some() || change.disabled.is_some() {
        changes.push(change.node, change.owner, change.disabled)?;
    }
    Ok(())
}

/// What differs for these nodes between their rows and the tree.
fn changes_among(
    alloc: Global,
    tree: &Tree,
    rows: &[Row],
    candidates: &Nodes,
) -> Result<Changes, NoMemory>
    requires tidy { IsTidy tree.now }
    requires nodes { All (IsNode tree.now) candidates.now }
    ensures { IfOk result (λ cs. cs ≡ changes_read tree.now rows.now candidates.now) }
{
    let mut changes = Changes::make(alloc);
    let mut readings = Readings::make(alloc, candidates.len() <= FEW);
    for i in 0..candidates.len() {
        let n = node_at(tree, candidates, i);
        let reading = readings.read(alloc, tree, n, associated_in(rows, n))?;
        let change = change_to(rows, n, &reading);
        keep(&mut changes, change)?;
    }
    Ok(changes)
}

/// Writes what was read into the rows, and lists the controls of each form that gains or loses some anew.
fn take_over(
    alloc: Global,
    tree: &Tree,
    rows: &mut [Row],
    changes: &Changes,
) -> Result<(), NoMemory>
    requires rows { length rows.old ≡ size tree.now }
    requires changes { changes.now ≡ changes_read tree.now rows.old (numbers tree.now) }
    requires lists { ListsStood tree.now rows.old }
    ensures { OnOk result (AreRenewed tree.now rows.old rows.new) }
{
    let _count = tree.count();
    let forms = involved(alloc, tree, rows, changes)?.list(alloc)?;
    write_all(rows, changes);
    list_controls(alloc, tree, rows, &forms)
}

/// How many entries of lists are gone over where the lists change in place: for each change no more than there are in the list
/// that its node leaves and in the one that it comes to, and than there are changes.
fn entries(rows: &[Row], changes: &Changes) -> usize {
    let mut count = changes.len().saturating_mul(changes.len());
    for i in 0..changes.len() {
        let change = changes.get(i).unwrap();
        let old = owner_in(rows, change.node);
        let new = change.owner.unwrap_or(None);
        count = count.saturating_add(old.map_or(0, |form| controls_in(rows, form).len()));
        count = count.saturating_add(new.map_or(0, |form| controls_in(rows, form).len()));
    }
    count
}

/// Writes what was read into the rows, with the lists of controls that change: where few nodes change, or their lists are short
/// beside the tree, in place, and else anew.
fn write_read(
    alloc: Global,
    tree: &Tree,
    rows: &mut [Row],
    changes: &Changes,
) -> Result<(), NoMemory>
    requires rows { length rows.old ≡ size tree.now }
    requires changes { changes.now ≡ changes_read tree.now rows.old (numbers tree.now) }
    requires lists { ListsStood tree.now rows.old }
    ensures { OnOk result (AreRenewed tree.now rows.old rows.new) }
{
    if changes.len() <= FEW || entries(rows, changes) as u64 / ENTRIES <= tree.count() {
        return move_each(tree, rows, changes);
    }
    take_over(alloc, tree, rows, changes)
}

/// Reads the rows of these nodes off the tree anew, with the lists of controls that change, and says what has changed.
pub(crate) fn renew(
    alloc: Global,
    tree: &Tree,
    rows: &mut [Row],
    candidates: &Nodes,
) -> Result<Changes, NoMemory>
    requires rows { length rows.old ≡ size tree.now }
    requires nodes { All (IsNode tree.now) candidates.now }
    requires rising { IsStrictlyIncreasing candidates.now }
    requires covers { (n : ℕ) → IsNode tree.now n → is_among n candidates.now ≡ false → is_change (change_read tree.now rows.old n) ≡ false }
    requires lists { ListsStood tree.now rows.old }
    ensures rows { OnOk result (AreRenewed tree.now rows.old rows.new) }
    ensures changes { IfOk result (λ cs. cs ≡ changes_read tree.now rows.old (numbers tree.now)) }
    ensures tidy { IsTidy tree.now }
{
    let _count = tree.count();
    let changes = changes_among(alloc, tree, rows, candidates)?;
    write_read(alloc, tree, rows, &changes)?;
    Ok(changes)
}
