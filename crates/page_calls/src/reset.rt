// Resetting forms, and states that come back.
ghost use Rattle.std.specs.Prelude.{◌≡◌, ◌+◌, ◌<◌, ◌^◌, All, IfOk};
ghost use Rattle.node_trees.specs.Nodes.{IsNode};
ghost use Rattle.ce_algorithms.specs.Perform.{form_steps};
ghost use Rattle.ce_algorithms.specs.Reset.{reset_control, reset_form, restore};
ghost use Rattle.ce_algorithms.specs.Steps.{for_each};
ghost use Rattle.ce_page.specs.Ends.{Does, Ends, NeverRefuses, work};
ghost use Rattle.ce_page.specs.Numbers.{StaysWithin};
ghost use Rattle.page_calls.specs.Given.{IsThere};
ghost use Rattle.page_calls.specs.Ready.{IsReadyOnForms};

use crate::deeds::gives_nothing;
use crate::fits::is_custom_form_associated;
use crate::questions::{controls, is_disabled};
use ce_algorithms::{FormDeed, Given};
use ce_base::{Fuel, NodeNo, Nodes, Text};
use ce_page::{Page, PageStop, node_at};
use reaction_queue::{Mode, Reaction};
use std::alloc::Global;

/// Does the steps of a deed on a form, and gives what the deed gives. Each variant of `FormDeed` names its section of the
/// Standard. It refuses nothing. FuelSpent: a unit of fuel was wanted, and none was left; what was done before that stays.
/// NoMemory: memory was refused, or the page is not settled; it is only dropped.
pub fn run_on_forms(
    alloc: Global,
    page: &mut Page,
    fuel: &mut Fuel,
    what: FormDeed,
) -> Result<Given, PageStop>
    requires ready { IsReadyOnForms page.old.forest what }
    requires room { page.old.queues.reactions + fuel.old < 2 ^ 64 }
    ensures step { Ends (λ g. g) result (work page.new fuel.new) (form_steps what (work page.old fuel.old)) }
    ensures there { IfOk result (IsThere page.new.forest) }
    ensures within { StaysWithin page.old page.new fuel.old fuel.new }
    ensures refused { NeverRefuses result }
{
    match what {
        FormDeed::Reset { form, by_user: _ } => gives_nothing(reset_form(alloc, page, form, fuel)),
        FormDeed::Restore { node, text, mode } => restore(alloc, page, fuel, node, text, mode),
    }
}

/// Resets a form (HTML Standard, section "Resetting a form"): each of its controls, in tree order. What a control keeps is
/// cleared, and a custom form-associated element is told by formResetCallback, for one unit of fuel where its definition has
/// that. FuelSpent: a unit was wanted, and none was left; what was done before that stays. NoMemory: see `run_on_forms`.
pub fn reset_form(
    alloc: Global,
    page: &mut Page,
    form: NodeNo,
    fuel: &mut Fuel,
) -> Result<(), PageStop>
    requires node { IsNode page.old.forest form }
    requires room { page.old.queues.reactions + fuel.old < 2 ^ 64 }
    ensures step { Does result (work page.new fuel.new) (reset_form form (work page.old fuel.old)) }
    ensures within { StaysWithin page.old page.new fuel.old fuel.new }
    ensures refused { NeverRefuses result }
{
    let list = controls(alloc, page, form)?;
    reset_controls(alloc, page, &list, fuel)
}

// Each of these controls is reset.
fn reset_controls(
    alloc: Global,
    page: &mut Page,
    list: &Nodes,
    fuel: &mut Fuel,
) -> Result<(), PageStop>
    requires nodes { All (IsNode page.old.forest) list.now }
    requires room { page.old.queues.reactions + fuel.old < 2 ^ 64 }
    ensures step { Does result (work page.new fuel.new) (for_each list.now reset_control (work page.old fuel.old)) }
    ensures within { StaysWithin page.old page.new fuel.old fuel.new }
    ensures refused { NeverRefuses result }
{
    for i in 0..list.len() {
        let n = node_at(list, i);
        reset_control(alloc, page, n, fuel)?;
    }
    Ok(())
}

// What a control keeps is cleared, and a custom form-associated element is told.
fn reset_control(alloc: Global, page: &mut Page, n: NodeNo, fuel: &mut Fuel) -> Result<(), PageStop>
    requires node { IsNode page.old.forest n }
    requires room { page.old.queues.reactions + fuel.old < 2 ^ 64 }
    ensures step { Does result (work page.new fuel.new) (reset_control n (work page.old fuel.old)) }
    ensures within { StaysWithin page.old page.new fuel.old fuel.new }
    ensures forest { page.new.forest ≡ page.old.forest }
    ensures refused { NeverRefuses result }
{
    page.reset(n);
    if is_custom_form_associated(page, n) {
        return page.enqueue_call(alloc, n, Reaction::FormReset, fuel);
    }
    Ok(())
}

// A state comes back; a disabled element ignores it.
fn restore(
    alloc: Global,
    page: &mut Page,
    fuel: &mut Fuel,
    n: NodeNo,
    text: Text,
    mode: Mode,
) -> Result<Given, PageStop>
    requires node { IsNode page.old.forest n }
    requires room { page.old.queues.reactions + fuel.old < 2 ^ 64 }
    ensures step { Ends (λ g. g) result (work page.new fuel.new) (restore n text mode (work page.old fuel.old)) }
    ensures there { IfOk result (IsThere page.new.forest) }
    ensures within { StaysWithin page.old page.new fuel.old fuel.new }
    ensures refused { NeverRefuses result }
{
    if is_disabled(page, n)? {
        return Ok(Given::Ignored);
    }
    gives_nothing(page.enqueue_call(alloc, n, Reaction::FormStateRestore(text, mode), fuel))
}
