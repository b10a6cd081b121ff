// Which options of a select are chosen.
ghost use Rattle.std.specs.Prelude.{◌≡◌, ◌<◌, All, Some, filter, IfOk};
ghost use Rattle.std.specs.Option.{option_to_list};
ghost use Rattle.node_trees.specs.Nodes.{IsNode, IsNodeOrNone};
ghost use Rattle.node_trees.specs.Spots.{first_of};
ghost use Rattle.form_controls.specs.Options.{chosen, chosen_one, is_selected, option_children, options_at, options_of, selected_of};
ghost use Rattle.control_state.specs.Choosing.{noted, noted_all, nothing_found};

use crate::ControlTable;
use crate::options::{is_multiple, options_of};
use ce_base::{NoMemory, NodeNo, Nodes};
use element_names::Native;
use form_kinds::{is_a, is_option_disabled};
use node_arena::{Tree, node_at};
use std::alloc::Global;

/// What is found among options: the first and the last that are selected, and the first that is not disabled.
#[derive(Clone, Copy)]
pub(crate) struct Found {
    first: Option<NodeNo>,
    last: Option<NodeNo>,
    enabled: Option<NodeNo>,
}

/// One more option is looked at.
fn note(found: Found, controls: &ControlTable, tree: &Tree, option: NodeNo) -> Found
    requires { IsNode tree.now option }
    ensures { result ≡ noted controls.now tree.now found option }
{
    let mut found = found;
    if controls.is_selected(tree, option) {
        found.first = found.first.or(Some(option));
        found.last = Some(option);
    }
    if !is_option_disabled(tree, option) {
        found.enabled = found.enabled.or(Some(option));
    }
    found
}

/// The options among the children of an optgroup are looked at.
fn note_children(found: Found, controls: &ControlTable, tree: &Tree, group: NodeNo) -> Found
    requires { IsNode tree.now group }
    ensures { result ≡ noted_all controls.now tree.now found (option_children tree.now group) }
{
    let _count = tree.count();
    let mut found = found;
    let mut next = tree.first_child(group);
    while let Some(child) = next {
        if is_a(tree, child, Native::OptionItem) {
            found = note(found, controls, tree, child);
        }
        next = tree.next_sibling(child);
    }
    found
}

/// An option, or the options of an optgroup, are looked at.
fn note_at(found: Found, controls: &ControlTable, tree: &Tree, child: NodeNo) -> Found
    requires { IsNode tree.now child }
    ensures { result ≡ noted_all controls.now tree.now found (options_at tree.now child) }
{
    if is_a(tree, child, Native::OptionItem) {
        return note(found, controls, tree, child);
    }
    if is_a(tree, child, Native::Optgroup) {
        return note_children(found, controls, tree, child);
    }
    found
}

/// What is found among the options of a select.
fn found_in(controls: &ControlTable, tree: &Tree, select: NodeNo) -> Found
    requires { IsNode tree.now select }
    ensures { result ≡ noted_all controls.now tree.now nothing_found (options_of tree.now select) }
{
    let _count = tree.count();
    let mut found = Found {
        first: None,
        last: None,
        enabled: None,
    };
    let mut next = tree.first_child(select);
    while let Some(child) = next {
        found = note_at(found, controls, tree, child);
        next = tree.next_sibling(child);
    }
    found
}

/// The list of an option, or of none.
fn list_of(alloc: Global, option: Option<NodeNo>) -> Result<Nodes, NoMemory>
    ensures { IfOk result (λ ns. ns ≡ option_to_list option) }
{
    let mut list = Nodes::make(alloc);
    if let Some(option) = option {
        list.push(alloc, option)?;
    }
    Ok(list)
}

impl ControlTable {
    /// Those of some options that are selected.
    fn selected_among(&self, alloc: Global, tree: &Tree, options: &Nodes) -> Result<Nodes, NoMemory>
        requires { All (IsNode tree.now) options.now }
        ensures { IfOk result (λ ns. ns ≡ filter (is_selected self.now tree.now) options.now) }
    {
        let mut kept = Nodes::make(alloc);
        for i in 0..options.len() {
            let option = node_at(tree, options, i);
            let is_kept = self.is_selected(tree, option);
            kept.keep_where(alloc, is_kept, option)?;
        }
        Ok(kept)
    }

    /// The option that is chosen of a select of which only one can be: the last that is selected, or where none is the
    /// first that is not disabled (HTML Standard, section "The select element", "selectedness setting algorithm").
    fn chosen_one(&self, tree: &Tree, select: NodeNo) -> Option<NodeNo>
        requires { IsNode tree.now select }
        ensures { result ≡ chosen_one tree.now (selected_of self.now tree.now select) (options_of tree.now select) }
    {
        let found = found_in(self, tree, select);
        found.last.or(found.enabled)
    }

    /// The chosen options of a select, in tree order: with `multiple` those that are selected, else at most one (HTML
    /// Standard, section "The select element", "selectedness setting algorithm"). NoMemory: memory was refused.
    pub fn chosen(&self, alloc: Global, tree: &Tree, select: NodeNo) -> Result<Nodes, NoMemory>
        requires { IsNode tree.now select }
        ensures list { IfOk result (λ ns. ns ≡ chosen self.now tree.now select) }
        ensures nodes { IfOk result (All (IsNode tree.now)) }
    {
        let _count = tree.count();
        if is_multiple(tree, select) {
            let options = options_of(alloc, tree, select)?;
            return self.selected_among(alloc, tree, &options);
        }
        list_of(alloc, self.chosen_one(tree, select))
    }

    /// The first chosen option of a select. None exactly where none is chosen.
    pub fn first_chosen(&self, tree: &Tree, select: NodeNo) -> Option<NodeNo>
        requires { IsNode tree.now select }
        ensures option { result ≡ first_of (chosen self.now tree.now select) }
        ensures node { IsNodeOrNone tree.now result }
    {
        let _count = tree.count();
        if is_multiple(tree, select) {
            found_in(self, tree, select).first
        } else {
            self.chosen_one(tree, select)
        }
    }
}
