// What creating an element takes (DOM Standard, section "Interface Element", "create an element").
ghost use Rattle.std.specs.Prelude.{◌≡◌, ◌≤◌, IfOk};
ghost use Rattle.node_trees.specs.Nodes.{IsNode, size};
ghost use Rattle.ce_registry.specs.Registry.{is_autonomous};
ghost use Rattle.ce_algorithms.specs.Create.{create_failed, fitting, is_no_element, is_unfit};
ghost use Rattle.ce_algorithms.specs.CreateLater.{make_undefined};
ghost use Rattle.ce_algorithms.specs.Enqueue.{lookup_in};
ghost use Rattle.ce_algorithms.specs.Page.{definition_at};
ghost use Rattle.ce_algorithms.specs.State.{on_page};
ghost use Rattle.session_state.specs.Ends.{Ends};
ghost use Rattle.ce_outcomes.specs.Fitting.{tested};

use ce_algorithms::first_state;
use ce_base::{ClassNo, CustomState, DefNo, Fault, NoMemory, NodeNo, Text};
use ce_events::Event;
use session_state::State;
use session_state::page_calls::{NodeKind, PageStop};
use std::alloc::Global;

/// The definition that creation by a local name and an `is` value goes by, in a document (HTML Standard, section "Core
/// concepts", "look up a custom element definition"). None exactly where there is none.
pub fn lookup(state: &State, local: &Text, is: &Option<Text>, document: NodeNo) -> Option<DefNo>
    ensures { result ≡ lookup_in state.now.page document local.now is.now }
{
    let is = is.as_ref().map(|t| t.as_str());
    state
        .registry()
        .lookup(document == NodeNo(1), local.as_str(), is)
}

/// An element without a definition (DOM Standard, section "Interface Element", "create an element"). FuelSpent exactly
/// where no fuel is left for it; it refuses nothing. What stands then, and NoMemory: see `State`.
pub fn create_undefined(
    state: &mut State,
    alloc: Global,
    local: Text,
    is: Option<Text>,
    document: NodeNo,
) -> Result<NodeNo, PageStop>
    ensures step { Ends (λ n. n) result state.new (on_page (make_undefined local is document) state.old) }
    ensures made { IfOk result (IsNode state.new.page.forest) }
    ensures grows { size state.old.page.forest ≤ size state.new.page.forest }
{
    let first = first_state(local.as_str(), &is);
    state.make_in_state(alloc, local, is, document, first)
}

/// Whether a definition extends no element (HTML Standard, section "Core concepts", "autonomous custom element").
pub fn is_autonomous(state: &State, d: DefNo) -> bool
    ensures { result ≡ is_autonomous (definition_at state.now.page d) }
{
    match state.registry().at(d) {
        None => true,
        Some(x) => x.local.as_str() == x.name.as_str(),
    }
}

/// The class of a definition.
pub fn class_of(state: &State, d: DefNo) -> ClassNo
    ensures { result ≡ (definition_at state.now.page d).class }
{
    match state.registry().at(d) {
        None => ClassNo(0),
        Some(x) => x.class,
    }
}

/// Why what was constructed does not fit the creation (DOM Standard, section "Interface Element", "create an element"):
/// TypeError where it is no element; NotSupportedError where it has attributes, children or a parent, is of another
/// document, or has another local name. None exactly where it fits.
pub fn misfit(state: &State, local: &str, document: NodeNo, n: NodeNo) -> Option<Fault>
    requires { IsNode state.now.page.forest n }
    ensures { tested result n state.now ≡ fitting local.now document n state.now }
{
    if is_no_element(state, n) {
        return Some(Fault::TypeError);
    }
    if is_unfit(state, local, document, n) {
        return Some(Fault::NotSupportedError);
    }
    None
}

fn is_no_element(state: &State, n: NodeNo) -> bool
    requires { IsNode state.now.page.forest n }
    ensures { result ≡ is_no_element state.now.page n }
{
    match state.tree().kind(n) {
        NodeKind::Element => false,
        NodeKind::Document => true,
        NodeKind::TextNode => true,
        NodeKind::ShadowRoot => true,
    }
}

// It has attributes, children or a parent, is of another document, or has another local name.
fn is_unfit(state: &State, local: &str, document: NodeNo, n: NodeNo) -> bool
    requires { IsNode state.now.page.forest n }
    ensures { result ≡ is_unfit state.now.page local.now document n }
{
    let tree = state.tree();
    tree.has_attributes(n)
        || tree.first_child(n).is_some()
        || tree.parent(n).is_some()
        || tree.document(n) != document
        || tree.local(n) != local
}

/// A fault of the construction or of the tests is reported, and a new element in state failed is the answer (DOM
/// Standard, section "Interface Element", "create an element"). FuelSpent exactly where no fuel is left for it; it
/// refuses nothing. What stands then, and NoMemory: see `State`.
pub fn create_failed(
    state: &mut State,
    alloc: Global,
    local: Text,
    document: NodeNo,
    f: Fault,
) -> Result<NodeNo, PageStop>
    ensures step { Ends (λ n. n) result state.new (create_failed local document f state.old) }
    ensures made { IfOk result (IsNode state.new.page.forest) }
    ensures grows { size state.old.page.forest ≤ size state.new.page.forest }
{
    match state.log(Event::Reported(f)) {
        Err(NoMemory) => Err(PageStop::NoMemory),
        Ok(()) => state.make_in_state(alloc, local, None, document, CustomState::Failed),
    }
}
