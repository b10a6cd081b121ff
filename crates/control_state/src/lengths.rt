// The lengths of values, and whether they are empty. No value is built.
ghost use Rattle.std.specs.Prelude.{◌≡◌, ◌-◌, ◌^◌, min};
ghost use Rattle.node_trees.specs.Nodes.{IsNode};
ghost use Rattle.form_controls.specs.Options.{option_value, text_below};
ghost use Rattle.form_controls.specs.Texts.{collapsed, is_empty, normalized, units_of};
ghost use Rattle.form_controls.specs.Values.{child_text, units, value};
ghost use Rattle.control_state.specs.Sources.{IsOfNode, value_from};

use crate::source::{Source, option_source};
use crate::{
    CollapsedUnits, ControlTable, NormalizedUnits, is_only_newlines, is_only_whitespace,
    normalized_newlines_leave_something, units, units_without_newlines,
    white_space_is_asked_by_the_piece,
};
use ce_base::NodeNo;
use node_arena::Tree;

/// The length of a text with its newlines normalized.
fn units_of_lines(text: &str) -> u64
    ensures { result ≡ min (units_of (normalized text.now)) (2 ^ 64 - 1) }
{
    let mut counter = NormalizedUnits::make();
    counter.take(text);
    counter.count()
}

/// The length of the texts among the children of a node, with their newlines normalized.
fn units_of_children(tree: &Tree, n: NodeNo) -> u64
    requires { IsNode tree.now n }
    ensures { result ≡ min (units_of (normalized (child_text tree.now n))) (2 ^ 64 - 1) }
{
    let _count = tree.count();
    let mut counter = NormalizedUnits::make();
    let mut next = tree.first_child(n);
    while let Some(child) = next {
        counter.take(tree.chars(child));
        next = tree.next_sibling(child);
    }
    counter.count()
}

/// The length of the texts below a node, with their white space collapsed.
fn units_below(tree: &Tree, n: NodeNo) -> u64
    requires { IsNode tree.now n }
    ensures { result ≡ min (units_of (collapsed (text_below tree.now n))) (2 ^ 64 - 1) }
{
    let _count = tree.count();
    let mut counter = CollapsedUnits::make();
    let mut next = Some(n);
    while let Some(at) = next {
        counter.take(tree.chars(at));
        next = tree.next_in_tree(at, n);
    }
    counter.count()
}

/// Whether a text with its newlines normalized is empty.
fn is_empty_of_lines(text: &str) -> bool
    ensures { result ≡ is_empty (normalized text.now) }
{
    normalized_newlines_leave_something();
    text.is_empty()
}

/// Whether the texts among the children of a node, with their newlines normalized, are empty.
fn is_empty_of_children(tree: &Tree, n: NodeNo) -> bool
    requires { IsNode tree.now n }
    ensures { result ≡ is_empty (normalized (child_text tree.now n)) }
{
    let _count = tree.count();
    normalized_newlines_leave_something();
    let mut next = tree.first_child(n);
    while let Some(child) = next {
        if !tree.chars(child).is_empty() {
            return false;
        }
        next = tree.next_sibling(child);
    }
    true
}

/// Whether the texts below a node, with their white space collapsed, are empty.
fn is_empty_below(tree: &Tree, n: NodeNo) -> bool
    requires { IsNode tree.now n }
    ensures { result ≡ is_empty (collapsed (text_below tree.now n)) }
{
    let _count = tree.count();
    white_space_is_asked_by_the_piece();
    let mut next = Some(n);
    while let Some(at) = next {
        if !is_only_whitespace(tree.chars(at)) {
            return false;
        }
        next = tree.next_in_tree(at, n);
    }
    true
}

/// Whether a value is empty, by where it comes from.
fn is_empty_from(tree: &Tree, source: Source<'_>) -> bool
    requires { IsOfNode tree.now source }
    ensures { result ≡ is_empty (value_from tree.now source.entry) }
{
    match source {
        Source::Plain(text) => text.is_empty(),
        Source::Line(text) => is_only_newlines(text),
        Source::Lines(text) => is_empty_of_lines(text),
        Source::Children(n) => is_empty_of_children(tree, n),
        Source::Below(n) => is_empty_below(tree, n),
    }
}

/// Whether the value of an option is the empty text (HTML Standard, section "The option element", "value").
pub fn is_option_empty(tree: &Tree, option: NodeNo) -> bool
    requires { IsNode tree.now option }
    ensures { result ≡ is_empty (option_value tree.now option) }
{
    is_empty_from(tree, option_source(tree, option))
}

impl ControlTable {
    /// The length of a control's value in code units of UTF-16 (Infra Standard, section "Strings", "length"), or the
    /// greatest `u64` where it is longer.
    pub fn units(&self, tree: &Tree, n: NodeNo) -> u64
        requires { IsNode tree.now n }
        ensures { result ≡ units self.now tree.now n }
    {
        match self.source(tree, n) {
            Source::Plain(text) => units(text),
            Source::Line(text) => units_without_newlines(text),
            Source::Lines(text) => units_of_lines(text),
            Source::Children(n) => units_of_children(tree, n),
            Source::Below(n) => units_below(tree, n),
        }
    }

    /// Whether a control's value is the empty text.
    pub fn is_empty(&self, tree: &Tree, n: NodeNo) -> bool
        requires { IsNode tree.now n }
        ensures { result ≡ is_empty (value self.now tree.now n) }
    {
        is_empty_from(tree, self.source(tree, n))
    }
}
