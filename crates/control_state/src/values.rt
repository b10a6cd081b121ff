// The values of controls.
ghost use Rattle.std.specs.Prelude.{◌≡◌, IfOk};
ghost use Rattle.node_trees.specs.Nodes.{IsNode};
ghost use Rattle.control_state.specs.Sources.{IsOfNode, value_from};
ghost use Rattle.form_controls.specs.Options.{option_value, text_below};
ghost use Rattle.form_controls.specs.Texts.{collapsed, normalized};
ghost use Rattle.form_controls.specs.Values.{child_text, value};

use crate::source::{Source, option_source};
use crate::{ControlTable, collapsed, normalized, without_newlines};
use ce_base::{NoMemory, NodeNo, Text};
use node_arena::Tree;
use std::alloc::Global;

/// The texts among the children of a node (DOM Standard, section "Interface Text", "child text content").
fn child_text(alloc: Global, tree: &Tree, n: NodeNo) -> Result<Text, NoMemory>
    requires { IsNode tree.now n }
    ensures { IfOk result (λ t. t ≡ child_text tree.now n) }
{
    let _count = tree.count();
    let mut text = String::new(alloc);
    let mut next = tree.first_child(n);
    while let Some(child) = next {
        text.push_str(tree.chars(child))?;
        next = tree.next_sibling(child);
    }
    Ok(Text::from(text))
}

/// The texts below a node in its tree, in tree order (DOM Standard, section "Interface Text", "descendant text content").
fn text_below(alloc: Global, tree: &Tree, n: NodeNo) -> Result<Text, NoMemory>
    requires { IsNode tree.now n }
    ensures { IfOk result (λ t. t ≡ text_below tree.now n) }
{
    let _count = tree.count();
    let mut text = String::new(alloc);
    let mut next = Some(n);
    while let Some(at) = next {
        text.push_str(tree.chars(at))?;
        next = tree.next_in_tree(at, n);
    }
    Ok(Text::from(text))
}

fn normalized_children(alloc: Global, tree: &Tree, n: NodeNo) -> Result<Text, NoMemory>
    requires { IsNode tree.now n }
    ensures { IfOk result (λ t. t ≡ normalized (child_text tree.now n)) }
{
    let text = child_text(alloc, tree, n)?;
    normalized(alloc, text.as_str())
}

fn collapsed_below(alloc: Global, tree: &Tree, n: NodeNo) -> Result<Text, NoMemory>
    requires { IsNode tree.now n }
    ensures { IfOk result (λ t. t ≡ collapsed (text_below tree.now n)) }
{
    let text = text_below(alloc, tree, n)?;
    collapsed(alloc, text.as_str())
}

/// A value, by where it comes from.
fn value_from(alloc: Global, tree: &Tree, source: Source<'_>) -> Result<Text, NoMemory>
    requires { IsOfNode tree.now source }
    ensures { IfOk result (λ t. t ≡ value_from tree.now source.entry) }
{
    match source {
        Source::Plain(text) => Text::of(alloc, text),
        Source::Line(text) => without_newlines(alloc, text),
        Source::Lines(text) => normalized(alloc, text),
        Source::Children(n) => normalized_children(alloc, tree, n),
        Source::Below(n) => collapsed_below(alloc, tree, n),
    }
}

/// The value of an option: its `value` attribute, or its text (HTML Standard, section "The option element", "value").
/// NoMemory: memory was refused.
pub fn option_value(alloc: Global, tree: &Tree, option: NodeNo) -> Result<Text, NoMemory>
    requires { IsNode tree.now option }
    ensures { IfOk result (λ t. t ≡ option_value tree.now option) }
{
    value_from(alloc, tree, option_source(tree, option))
}

impl ControlTable {
    /// The value of a control, of a select that of its first chosen option; and that of an option (HTML Standard,
    /// sections "A form control's value", "The option element"). What is neither has the empty text. NoMemory: memory
    /// was refused.
    pub fn value(&self, alloc: Global, tree: &Tree, n: NodeNo) -> Result<Text, NoMemory>
        requires { IsNode tree.now n }
        ensures { IfOk result (λ t. t ≡ value self.now tree.now n) }
    {
        value_from(alloc, tree, self.source(tree, n))
    }
}
