// What an element of HTML gives.
ghost use Rattle.std.specs.Prelude.{◌≡◌, ◌<◌, ◌++◌, ◌∷◌, [], All, if◌then◌else◌, not, OnOk};
ghost use Rattle.ce_base.specs.Texts.{entry};
ghost use Rattle.node_trees.specs.Nodes.{IsNode};
ghost use Rattle.form_controls.specs.Disabled.{is_option_disabled};
ghost use Rattle.form_controls.specs.Kinds.{name_of};
ghost use Rattle.form_controls.specs.Options.{option_value};
ghost use Rattle.entry_list.specs.Selected.{option_entries};
ghost use Rattle.form_submission.specs.EntryList.{is_charset, native_entries, select_entries};

use crate::putting::put;
use ce_base::{Entries, NoMemory, NodeNo, Nodes, Text};
use control_state::{ControlTable, option_value};
use element_names::{InputKind, Native};
use form_kinds::{has_kind, is_a, is_option_disabled, name_of};
use node_arena::{Tree, node_at};
use std::alloc::Global;

/// Puts the entry of an option of a select, unless it is disabled.
fn put_option(
    alloc: Global,
    tree: &Tree,
    list: &mut Entries,
    select: NodeNo,
    option: NodeNo,
) -> Result<(), NoMemory>
    requires select { IsNode tree.now select }
    requires option { IsNode tree.now option }
    ensures { OnOk result (list.new ≡ list.old
        ++ (if not (is_option_disabled tree.now option) then entry (name_of tree.now select) (option_value tree.now option) ∷ [] else [])) }
{
    if is_option_disabled(tree, option) {
        return Ok(());
    }
    let value = option_value(alloc, tree, option)?;
    put(alloc, list, name_of(tree, select), value)
}

/// Puts an entry for each of some options of a select that is not disabled.
fn put_options(
    alloc: Global,
    tree: &Tree,
    list: &mut Entries,
    select: NodeNo,
    options: &Nodes,
) -> Result<(), NoMemory>
    requires select { IsNode tree.now select }
    requires options { All (IsNode tree.now) options.now }
    ensures { OnOk result (list.new ≡ list.old ++ option_entries tree.now select options.now) }
{
    for i in 0..options.len() {
        let option = node_at(tree, options, i);
        put_option(alloc, tree, list, select, option)?;
    }
    Ok(())
}

/// Puts an entry for each chosen option of a select that is not disabled.
fn put_selected(
    alloc: Global,
    tree: &Tree,
    controls: &ControlTable,
    list: &mut Entries,
    select: NodeNo,
) -> Result<(), NoMemory>
    requires { IsNode tree.now select }
    ensures { OnOk result (list.new ≡ list.old ++ select_entries tree.now controls.now select) }
{
    let chosen = controls.chosen(alloc, tree, select)?;
    put_options(alloc, tree, list, select, &chosen)
}

/// Whether an element is the hidden input that tells the encoding of the texts.
fn is_charset(tree: &Tree, n: NodeNo) -> bool
    requires { IsNode tree.now n }
    ensures { result ≡ is_charset tree.now n }
{
    has_kind(tree, n, InputKind::Hidden) && name_of(tree, n).eq_ignore_ascii_case("_charset_")
}

/// Puts what an element of HTML that has a name gives.
pub(crate) fn put_native(
    alloc: Global,
    tree: &Tree,
    controls: &ControlTable,
    list: &mut Entries,
    n: NodeNo,
) -> Result<(), NoMemory>
    requires { IsNode tree.now n }
    ensures { OnOk result (list.new ≡ list.old ++ native_entries tree.now controls.now n) }
{
    if is_a(tree, n, Native::Select) {
        return put_selected(alloc, tree, controls, list, n);
    }
    if is_charset(tree, n) {
        return put(alloc, list, name_of(tree, n), Text::of(alloc, "UTF-8")?);
    }
    let value = controls.value(alloc, tree, n)?;
    put(alloc, list, name_of(tree, n), value)
}
