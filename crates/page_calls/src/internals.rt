// What is written through ElementInternals.
ghost use Rattle.std.specs.Prelude.{◌≡◌, ℕ, IfOk};
ghost use Rattle.node_trees.specs.Nodes.{IsNode};
ghost use Rattle.ce_algorithms.specs.Internals.{add_state, attach_internals, attach_of, clear_states, delete_state};
ghost use Rattle.ce_algorithms.specs.Internals.{disables_internals, is_ready_state, set_form_value, set_validity};
ghost use Rattle.ce_algorithms.specs.Page.{with_internals};
ghost use Rattle.ce_algorithms.specs.Perform.{internals_steps};
ghost use Rattle.ce_page.specs.Ends.{Does, Ends, work};
ghost use Rattle.page_calls.specs.Given.{IsThere};
ghost use Rattle.page_calls.specs.Ready.{IsReadyOnInternals};

use crate::deeds::gives_nothing;
use ce_algorithms::{Given, InternalsDeed};
use ce_base::{CustomState, DefNo, Flags, NodeNo, Text};
use ce_page::{Page, PageStop};
use form_controls::{Attach, Value};
use std::alloc::Global;

/// Does the steps of a deed on internals, and gives what the deed gives. Each variant of `InternalsDeed` names its section of
/// the Standard. Nothing of the page changes but what internals keep.
///
/// Refused: the deed throws this fault, and the page is as it was. Internals that are attached: NotSupportedError, where the
/// element has an `is` value, the look-up gives it no definition or one that disables internals, it has internals, or it is
/// neither precustomized nor custom. Anything else: TypeError, where it has no internals; a value and validity flags:
/// NotSupportedError, where it is not form-associated; validity flags: TypeError, where one is set and the message is empty.
/// It wants no fuel. NoMemory: memory was refused, and the page is only dropped.
pub fn run_on_internals(
    alloc: Global,
    page: &mut Page,
    what: InternalsDeed,
) -> Result<Given, PageStop>
    requires ready { IsReadyOnInternals page.old.forest what }
    ensures step { (fuel : ℕ) → Ends (λ g. g) result (work page.new fuel) (internals_steps what (work page.old fuel)) }
    ensures there { IfOk result (IsThere page.new.forest) }
    ensures rest { page.new ≡ with_internals (λ is. page.new.internals) page.old }
{
    match what {
        InternalsDeed::Attach { node } => gives_nothing(attach_internals(alloc, page, node)),
        InternalsDeed::SetValue { node, value, saved } => {
            gives_nothing(set_form_value(alloc, page, node, value, saved))
        }
        InternalsDeed::SetValidity {
            node,
            flags,
            message,
        } => gives_nothing(set_validity(alloc, page, node, flags, message)),
        InternalsDeed::AddState { node, word } => gives_nothing(add_state(alloc, page, node, word)),
        InternalsDeed::DeleteState { node, word } => {
            gives_nothing(delete_state(page, node, word.as_str()))
        }
        InternalsDeed::ClearStates { node } => gives_nothing(clear_states(page, node)),
    }
}

fn attach_internals(alloc: Global, page: &mut Page, n: NodeNo) -> Result<(), PageStop>
    requires { IsNode page.old.forest n }
    ensures step { (fuel : ℕ) → Does result (work page.new fuel) (attach_internals n (work page.old fuel)) }
    ensures rest { page.new ≡ with_internals (λ is. page.new.internals) page.old }
{
    let c = attach_of(page, n);
    page.attach(alloc, n, c)?;
    Ok(())
}

// What attaching tests of an element.
fn attach_of(page: &Page, n: NodeNo) -> Attach
    requires { IsNode page.now.forest n }
    ensures { result ≡ attach_of page.now n }
{
    let found = page.lookup_for(n);
    Attach {
        has_is: page.tree().is_value(n).is_some(),
        found: found.is_some(),
        off: disables_internals(page, found),
        ready: is_ready_state(page.state(n)),
    }
}

fn disables_internals(page: &Page, found: Option<DefNo>) -> bool
    ensures { result ≡ disables_internals page.now found }
{
    match found {
        None => false,
        Some(d) => match page.registry().at(d) {
            None => false,
            Some(definition) => definition.facts.no_internals,
        },
    }
}

fn is_ready_state(state: CustomState) -> bool
    ensures { result ≡ is_ready_state state }
{
    match state {
        CustomState::Undefined => false,
        CustomState::Failed => false,
        CustomState::Uncustomized => false,
        CustomState::Precustomized => true,
        CustomState::Custom => true,
    }
}

fn set_form_value(
    alloc: Global,
    page: &mut Page,
    n: NodeNo,
    value: Value,
    saved: Value,
) -> Result<(), PageStop>
    ensures step { (fuel : ℕ) → Does result (work page.new fuel) (set_form_value n value saved (work page.old fuel)) }
    ensures rest { page.new ≡ with_internals (λ is. page.new.internals) page.old }
{
    let associated = page.is_form_associated(n);
    page.set_form_value(alloc, n, associated, value, saved)?;
    Ok(())
}

fn set_validity(
    alloc: Global,
    page: &mut Page,
    n: NodeNo,
    flags: Flags,
    message: Text,
) -> Result<(), PageStop>
    ensures step { (fuel : ℕ) → Does result (work page.new fuel) (set_validity n flags message (work page.old fuel)) }
    ensures rest { page.new ≡ with_internals (λ is. page.new.internals) page.old }
{
    let associated = page.is_form_associated(n);
    page.set_validity(alloc, n, associated, flags, message)?;
    Ok(())
}

fn add_state(alloc: Global, page: &mut Page, n: NodeNo, word: Text) -> Result<(), PageStop>
    ensures step { (fuel : ℕ) → Does result (work page.new fuel) (add_state n word (work page.old fuel)) }
    ensures rest { page.new ≡ with_internals (λ is. page.new.internals) page.old }
{
    page.add_state(alloc, n, word)?;
    Ok(())
}

fn delete_state(page: &mut Page, n: NodeNo, word: &str) -> Result<(), PageStop>
    ensures step { (fuel : ℕ) → Does result (work page.new fuel) (delete_state n word.now (work page.old fuel)) }
    ensures rest { page.new ≡ with_internals (λ is. page.new.internals) page.old }
{
    page.delete_state(n, word)?;
    Ok(())
}

fn clear_states(page: &mut Page, n: NodeNo) -> Result<(), PageStop>
    ensures step { (fuel : ℕ) → Does result (work page.new fuel) (clear_states n (work page.old fuel)) }
    ensures rest { page.new ≡ with_internals (λ is. page.new.internals) page.old }
{
    page.clear_states(n)?;
    Ok(())
}
