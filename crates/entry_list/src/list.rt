// The list.
ghost use Rattle.std.specs.Prelude.{◌≡◌, ◌++◌, [], All, if◌then◌else◌, IfOk, OnOk};
ghost use Rattle.node_trees.specs.Nodes.{IsNode};
ghost use Rattle.entry_list.specs.Given.{given_entries, is_giver};
ghost use Rattle.form_controls.specs.Owners.{Forms};
ghost use Rattle.checkedness.specs.Stands.{Stands, StandsFor};
ghost use Rattle.form_submission.specs.EntryList.{entries_at, entry_list};

use crate::custom::put_custom;
use crate::native::put_native;
use crate::skipped::is_skipped;
use ce_base::{Entries, NoMemory, NodeNo};
use checkedness::form_owner::OwnerTable;
use control_state::ControlTable;
use element_internals::InternalsTable;
use form_kinds::name_of;
use node_arena::Tree;
use std::alloc::Global;

/// Puts the entries of an element.
fn put_entries(
    alloc: Global,
    tree: &Tree,
    owners: &OwnerTable,
    controls: &ControlTable,
    inner: &InternalsTable,
    list: &mut Entries,
    n: NodeNo,
) -> Result<(), NoMemory>
    requires { IsNode tree.now n }
    ensures { (f : Forms) → f.forest ≡ tree.now → Stands owners.now f → OnOk result (list.new ≡ list.old ++ entries_at f controls.now inner.now n) }
{
    if owners.associated(n) {
        return put_custom(alloc, inner, list, name_of(tree, n), n);
    }
    if name_of(tree, n).is_empty() {
        return Ok(());
    }
    put_native(alloc, tree, controls, list, n)
}

/// Puts the entries of an element that is submittable and is not passed over.
fn put_given(
    alloc: Global,
    tree: &Tree,
    owners: &OwnerTable,
    controls: &ControlTable,
    inner: &InternalsTable,
    list: &mut Entries,
    submitter: &Option<NodeNo>,
    n: NodeNo,
) -> Result<(), NoMemory>
    requires stands { StandsFor owners.now tree.now }
    requires node { IsNode tree.now n }
    ensures { (f : Forms) → f.forest ≡ tree.now → Stands owners.now f
        → OnOk result (list.new ≡ list.old ++ (if is_giver f controls.now submitter.now n then entries_at f controls.now inner.now n else [])) }
{
    if !owners.submittable(tree, n) || is_skipped(tree, owners, controls, *submitter, n) {
        return Ok(());
    }
    put_entries(alloc, tree, owners, controls, inner, list, n)
}

/// Puts the entries of those of some elements that are submittable and are not passed over.
fn put_each(
    alloc: Global,
    tree: &Tree,
    owners: &OwnerTable,
    controls: &ControlTable,
    inner: &InternalsTable,
    list: &mut Entries,
    submitter: &Option<NodeNo>,
    elements: &[NodeNo],
) -> Result<(), NoMemory>
    requires stands { StandsFor owners.now tree.now }
    requires nodes { All (IsNode tree.now) elements.now }
    ensures { (f : Forms) → f.forest ≡ tree.now → Stands owners.now f
        → OnOk result (list.new ≡ list.old ++ given_entries f controls.now inner.now submitter.now elements.now) }
{
    for n in elements {
        put_given(alloc, tree, owners, controls, inner, list, submitter, *n)?;
    }
    Ok(())
}

/// The entry list of a form: the names and values of its submittable elements, in tree order, but for those that are passed
/// over: disabled ones, buttons other than the submitter, checkboxes and radio buttons that are not checked, and what stands
/// below a datalist. An element without a name gives nothing, but for a form-associated custom element whose submission value
/// is a list (HTML Standard, section "Constructing the entry list"). NoMemory: memory was refused.
pub fn entries(
    alloc: Global,
    tree: &Tree,
    owners: &OwnerTable,
    controls: &ControlTable,
    inner: &InternalsTable,
    form: NodeNo,
    submitter: Option<NodeNo>,
) -> Result<Entries, NoMemory>
    requires stands { StandsFor owners.now tree.now }
    requires node { IsNode tree.now form }
    ensures { (f : Forms) → f.forest ≡ tree.now → Stands owners.now f → IfOk result (λ es. es ≡ entry_list f controls.now inner.now form submitter) }
{
    let _count = tree.count();
    let mut list = Entries::make(alloc);
    let elements = owners.controls(form);
    put_each(
        alloc, tree, owners, controls, inner, &mut list, &submitter, elements,
    )?;
    Ok(list)
}
