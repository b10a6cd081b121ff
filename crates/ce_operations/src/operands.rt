// Operands: the nodes, classes and texts that an action names, where `this` is that node or none.
ghost use Rattle.std.specs.Prelude.{◌≡◌, map, IfOk, IfSome};
ghost use Rattle.node_trees.specs.declared.kind.NodeKind.TheVariants.{Element as ElementKind};
ghost use Rattle.node_trees.specs.Nodes.{IsNode, IsNodeOrNone};
ghost use Rattle.node_trees.specs.Spots.{kind_at};
ghost use Rattle.ce_algorithms.specs.Operands.{class, document_or_page, element, node, node_or_none, node_that};
ghost use Rattle.ce_algorithms.specs.State.{view};
ghost use Rattle.ce_algorithms.specs.Values.{fixed_text};

use ce_algorithms::Fit;
use ce_base::{ClassNo, Fault, NoMemory, NodeNo, Text, Texts};
use rule_lines::Vals;
use rule_tokens::{Operand, Val};
use session_state::State;
use session_state::page_calls::NodeKind;
use session_state::page_calls::fits::fits;
use std::alloc::Global;

/// The node that an operand names: a ReferenceError where nothing is `this`, a TypeError where its variable
/// is not set.
pub fn node(state: &State, this: &Option<NodeNo>, operand: &Operand) -> Result<NodeNo, Fault>
    requires { IfSome this.now (IsNode state.now.page.forest) }
    ensures names { result ≡ node (view this.now state.now) operand.now }
    ensures there { IfOk result (IsNode state.now.page.forest) }
{
    match operand {
        Operand::Doc => Ok(first(state)),
        Operand::This => match this {
            None => Err(Fault::ReferenceError),
            Some(n) => Ok(*n),
        },
        Operand::Variable(v) => match state.variable(v.as_str()) {
            None => Err(Fault::TypeError),
            Some(n) => Ok(n),
        },
    }
}

// The page's document.
fn first(state: &State) -> NodeNo
    ensures first { result ≡ 1 }
    ensures there { IsNode state.now.page.forest result }
{
    // Node 1 is there: the tree's clause says so.
    let _tree = state.tree();
    NodeNo(1)
}

/// The node that an operand names: a ReferenceError where nothing is `this`, a TypeError where its variable is not
/// set or the node is not what it has to be.
pub fn node_that(
    what: Fit,
    state: &State,
    this: &Option<NodeNo>,
    operand: &Operand,
) -> Result<NodeNo, Fault>
    requires { IfSome this.now (IsNode state.now.page.forest) }
    ensures names { result ≡ node_that what (view this.now state.now) operand.now }
    ensures there { IfOk result (IsNode state.now.page.forest) }
{
    let n = node(state, this, operand)?;
    if fits(what, state.page(), n) {
        return Ok(n);
    }
    Err(Fault::TypeError)
}

/// The element that an operand names: a ReferenceError where nothing is `this`, a TypeError where its variable is not
/// set or the node is no element.
pub fn element(state: &State, this: &Option<NodeNo>, operand: &Operand) -> Result<NodeNo, Fault>
    requires { IfSome this.now (IsNode state.now.page.forest) }
    ensures names { result ≡ element (view this.now state.now) operand.now }
    ensures there { IfOk result (IsNode state.now.page.forest) }
    ensures element { IfOk result (λ n. kind_at state.now.page.forest n ≡ ElementKind) }
{
    let n = node(state, this, operand)?;
    match state.tree().kind(n) {
        NodeKind::Element => Ok(n),
        NodeKind::Document => Err(Fault::TypeError),
        NodeKind::TextNode => Err(Fault::TypeError),
        NodeKind::ShadowRoot => Err(Fault::TypeError),
    }
}

/// The document that an operand names, the page's where there is no operand: a ReferenceError where nothing is `this`,
/// a TypeError where its variable is not set or the node is no document.
pub fn document_or_page(
    state: &State,
    this: &Option<NodeNo>,
    operand: &Option<Operand>,
) -> Result<NodeNo, Fault>
    requires { IfSome this.now (IsNode state.now.page.forest) }
    ensures { result ≡ document_or_page (view this.now state.now) operand.now }
{
    match operand {
        None => Ok(NodeNo(1)),
        Some(operand) => node_that(Fit::Document, state, this, operand),
    }
}

/// The node that an operand names, none where there is no operand: faults as `node` gives them.
pub fn node_or_none(
    state: &State,
    this: &Option<NodeNo>,
    operand: &Option<Operand>,
) -> Result<Option<NodeNo>, Fault>
    requires { IfSome this.now (IsNode state.now.page.forest) }
    ensures found { result ≡ node_or_none (view this.now state.now) operand.now }
    ensures there { IfOk result (IsNodeOrNone state.now.page.forest) }
{
    match operand {
        None => Ok(None),
        Some(operand) => Ok(Some(node(state, this, operand)?)),
    }
}

/// The class with this name, or a TypeError where there is none.
pub fn class(state: &State, name: &str) -> Result<ClassNo, Fault>
    ensures { result ≡ class state.now.classes name.now }
{
    match state.class_named(name) {
        None => Err(Fault::TypeError),
        Some(k) => Ok(k),
    }
}

/// The text of a value that was fixed, as each is at top level. NoMemory: memory was refused.
pub fn fixed_text(alloc: Global, v: Val) -> Result<Text, NoMemory>
    ensures { IfOk result (λ t. t ≡ fixed_text v) }
{
    match v {
        Val::Fixed(t) => Ok(t),
        Val::Count => Text::of(alloc, ""),
        Val::Kept => Text::of(alloc, ""),
        Val::First => Text::of(alloc, ""),
        Val::Second => Text::of(alloc, ""),
        Val::Third => Text::of(alloc, ""),
    }
}

/// The texts of values that were fixed. NoMemory: memory was refused.
pub fn fixed_texts(alloc: Global, vals: Vals) -> Result<Texts, NoMemory>
    ensures { IfOk result (λ ts. ts ≡ map fixed_text vals) }
{
    let mut texts = Texts::make(alloc);
    for v in vals.into_items() {
        texts.push(alloc, fixed_text(alloc, v)?)?;
    }
    Ok(texts)
}
