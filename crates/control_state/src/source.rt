// Where the value of a control comes from.
ghost use Rattle.std.specs.Prelude.{◌≡◌, [], codes, unwrap_or};
ghost use Rattle.node_trees.specs.Nodes.{IsNode};
ghost use Rattle.node_trees.specs.Spots.{attribute_at};
ghost use Rattle.form_controls.specs.Controls.{control_at};
ghost use Rattle.form_controls.specs.Options.{option_value};
ghost use Rattle.form_controls.specs.Values.{value, value_by};
ghost use Rattle.control_state.specs.Sources.{value_from, IsOfNode};

use crate::ControlTable;
use ce_base::NodeNo;
use element_names::{InputKind, Native, input_kind};
use form_kinds::native_at;
use node_arena::Tree;

/// Where a value comes from, and how it is read.
#[derive(Clone, Copy)]
pub(crate) enum Source<'a> {
    /// A text as it is.
    Plain(&'a str),
    /// A text without its newlines.
    Line(&'a str),
    /// A text with its newlines normalized.
    Lines(&'a str),
    /// The texts among the children of a node, with their newlines normalized.
    Children(NodeNo),
    /// The texts below a node, with their white space collapsed.
    Below(NodeNo),
}

/// The value of an attribute, or another text where it is not there.
fn attribute_or<'a>(tree: &'a Tree, n: NodeNo, name: &str, other: &'a str) -> &'a str
    requires { IsNode tree.now n }
    ensures { result.now ≡ unwrap_or (attribute_at tree.now n name.now) other.now }
{
    match tree.attr(n, name) {
        None => other,
        Some(value) => value,
    }
}

/// An option's value: its `value` attribute, or its text (HTML Standard, section "The option element").
pub(crate) fn option_source(tree: &Tree, option: NodeNo) -> Source<'_>
    requires { IsNode tree.now option }
    ensures value { value_from tree.now result ≡ option_value tree.now option }
    ensures node { IsOfNode tree.now result }
{
    match tree.attr(option, "value") {
        None => Source::Below(option),
        Some(value) => Source::Plain(value),
    }
}

impl ControlTable {
    /// The raw value of an input, or its `value` attribute.
    fn raw_or_attribute<'a>(&'a self, tree: &'a Tree, n: NodeNo) -> &'a str
        requires { IsNode tree.now n }
        ensures { result.now ≡ unwrap_or (control_at self.now n).value (unwrap_or (attribute_at tree.now n (codes "value")) []) }
    {
        match self.raw(n) {
            None => attribute_or(tree, n, "value", ""),
            Some(raw) => raw,
        }
    }

    /// The value of an input, by its kind (HTML Standard, section "The input element", modes "value", "default",
    /// "default/on").
    fn input_source<'a>(&'a self, tree: &'a Tree, n: NodeNo) -> Source<'a>
        requires { IsNode tree.now n }
        ensures value { value_from tree.now result ≡ value_by Native.Input self.now tree.now n }
        ensures node { IsOfNode tree.now result }
    {
        match input_kind(tree.attr(n, "type")) {
            InputKind::Text => Source::Line(self.raw_or_attribute(tree, n)),
            InputKind::Checkbox => Source::Plain(attribute_or(tree, n, "value", "on")),
            InputKind::Radio => Source::Plain(attribute_or(tree, n, "value", "on")),
            _ => Source::Plain(attribute_or(tree, n, "value", "")),
        }
    }

    /// The value of a textarea: its raw value, or the texts among its children.
    fn textarea_source<'a>(&'a self, tree: &'a Tree, n: NodeNo) -> Source<'a>
        requires { IsNode tree.now n }
        ensures value { value_from tree.now result ≡ value_by Native.Textarea self.now tree.now n }
        ensures node { IsOfNode tree.now result }
    {
        match self.raw(n) {
            None => Source::Children(n),
            Some(raw) => Source::Lines(raw),
        }
    }

    /// The value of a select: that of its first chosen option.
    fn select_source<'a>(&self, tree: &'a Tree, select: NodeNo) -> Source<'a>
        requires { IsNode tree.now select }
        ensures value { value_from tree.now result ≡ value_by Native.Select self.now tree.now select }
        ensures node { IsOfNode tree.now result }
    {
        let _count = tree.count();
        match self.first_chosen(tree, select) {
            None => Source::Plain(""),
            Some(option) => option_source(tree, option),
        }
    }

    /// Where the value of a control, or of an option, comes from.
    pub(crate) fn source<'a>(&'a self, tree: &'a Tree, n: NodeNo) -> Source<'a>
        requires { IsNode tree.now n }
        ensures value { value_from tree.now result ≡ value self.now tree.now n }
        ensures node { IsOfNode tree.now result }
    {
        match native_at(tree, n) {
            Native::Input => self.input_source(tree, n),
            Native::Button => Source::Plain(attribute_or(tree, n, "value", "")),
            Native::Select => self.select_source(tree, n),
            Native::OptionItem => option_source(tree, n),
            Native::Textarea => self.textarea_source(tree, n),
            _ => Source::Plain(""),
        }
    }
}
