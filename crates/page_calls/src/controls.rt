// Commands on controls, by a script and by the user.
ghost use Rattle.std.specs.Prelude.{◌≡◌, ℕ, IfOk};
ghost use Rattle.node_trees.specs.Nodes.{IsNode};
ghost use Rattle.form_controls.specs.Setting.{is_choice_ignored, is_edit_ignored, set_checked, set_chosen};
ghost use Rattle.ce_algorithms.specs.declared.deed.ControlDeed.TheVariants as deeds;
ghost use Rattle.ce_algorithms.specs.declared.fit.Fit.TheVariants as kinds;
ghost use Rattle.ce_algorithms.specs.Forms.{forms_of};
ghost use Rattle.ce_algorithms.specs.Page.{with_controls};
ghost use Rattle.ce_page.specs.Ends.{work};
ghost use Rattle.page_calls.specs.Commands.{Comes, EndsBy, IsReadyOnControls, commanded};

use crate::Outcome;
use crate::choices::set_chosen;
use crate::fits::fits;
use crate::groups::set_checked;
use crate::questions::is_disabled;
use ce_algorithms::{ControlDeed, Fit};
use ce_base::{Fault, NoMemory, NodeNo, Refused, Text};
use ce_page::Page;
use control_state::select_of;
use std::alloc::Global;

/// Does the steps of a deed on controls. Each variant of `ControlDeed` names its section of the Standard. Nothing of the page
/// changes but what controls keep. Ignored exactly where the user commands what they may not: the control is disabled, a
/// text control has `readonly`, or an option's select is disabled; then nothing changes. NoMemory: memory was refused, or
/// the page is not settled; it is only dropped.
pub fn run_on_controls(
    alloc: Global,
    page: &mut Page,
    what: ControlDeed,
) -> Result<Outcome, NoMemory>
    requires ready { IsReadyOnControls page.old.forest what }
    ensures step { IfOk result (λ o. Comes o page.old page.new what) }
    ensures rest { page.new ≡ with_controls (λ cs. page.new.controls) page.old }
{
    match what {
        ControlDeed::Edit {
            node,
            text,
            by_user,
        } => set_text(alloc, page, node, text, by_user),
        ControlDeed::Tick { node, on, by_user } => set_tick(alloc, page, node, on, by_user),
        ControlDeed::Choose { node, on, by_user } => set_choice(alloc, page, node, on, by_user),
        ControlDeed::SetMessage { node, message } => set_message(alloc, page, node, message),
    }
}

/// Sets the value of a text control, by a script or by the user (HTML Standard, section "A form control's value"). TypeError
/// exactly where the node is neither a text input nor a textarea. Ignored exactly where the user does it to a control that
/// is disabled or has `readonly`. After each of the two the page is as it was. NoMemory: see `run_on_controls`.
pub fn edit(
    alloc: Global,
    page: &mut Page,
    n: NodeNo,
    v: Text,
    by_user: bool,
) -> Result<Outcome, Refused>
    requires node { IsNode page.old.forest n }
    ensures step { (fuel : ℕ) → EndsBy result (work page.new fuel) (commanded kinds.TextControl n (deeds.Edit n v by_user) (work page.old fuel)) }
    ensures rest { page.new ≡ with_controls (λ cs. page.new.controls) page.old }
{
    if !fits(Fit::TextControl, page, n) {
        return Err(Refused::Fault(Fault::TypeError));
    }
    Ok(set_text(alloc, page, n, v, by_user)?)
}

/// Sets a checkbox or a radio button on or off (HTML Standard, section "The input element", `checked`); a radio button that is
/// set on sets the others of its group off. TypeError exactly where the node is neither. Ignored exactly where the user does
/// it to one that is disabled. After each of the two the page is as it was. NoMemory: see `run_on_controls`.
pub fn tick(
    alloc: Global,
    page: &mut Page,
    n: NodeNo,
    on: bool,
    by_user: bool,
) -> Result<Outcome, Refused>
    requires node { IsNode page.old.forest n }
    ensures step { (fuel : ℕ) → EndsBy result (work page.new fuel) (commanded kinds.Tickable n (deeds.Tick n on by_user) (work page.old fuel)) }
    ensures rest { page.new ≡ with_controls (λ cs. page.new.controls) page.old }
{
    if !fits(Fit::Tickable, page, n) {
        return Err(Refused::Fault(Fault::TypeError));
    }
    Ok(set_tick(alloc, page, n, on, by_user)?)
}

/// Sets an option on or off (HTML Standard, section "The option element", `selected`); one that is set on in a select without
/// `multiple` sets the select's other options off. TypeError exactly where the node is no option. Ignored exactly where the
/// user does it to one that is disabled, or whose select is. After each of the two the page is as it was. NoMemory: see
/// `run_on_controls`.
pub fn choose(
    alloc: Global,
    page: &mut Page,
    n: NodeNo,
    on: bool,
    by_user: bool,
) -> Result<Outcome, Refused>
    requires node { IsNode page.old.forest n }
    ensures step { (fuel : ℕ) → EndsBy result (work page.new fuel) (commanded kinds.AnOption n (deeds.Choose n on by_user) (work page.old fuel)) }
    ensures rest { page.new ≡ with_controls (λ cs. page.new.controls) page.old }
{
    if !fits(Fit::AnOption, page, n) {
        return Err(Refused::Fault(Fault::TypeError));
    }
    Ok(set_choice(alloc, page, n, on, by_user)?)
}

fn set_text(
    alloc: Global,
    page: &mut Page,
    n: NodeNo,
    v: Text,
    by_user: bool,
) -> Result<Outcome, NoMemory>
    requires node { IsNode page.old.forest n }
    ensures step { IfOk result (λ o. Comes o page.old page.new (deeds.Edit n v by_user)) }
    ensures rest { page.new ≡ with_controls (λ cs. page.new.controls) page.old }
{
    if by_user && is_edit_ignored(page, n)? {
        return Ok(Outcome::Ignored);
    }
    page.set_value(alloc, n, v, by_user)?;
    Ok(Outcome::Done)
}

fn set_tick(
    alloc: Global,
    page: &mut Page,
    n: NodeNo,
    on: bool,
    by_user: bool,
) -> Result<Outcome, NoMemory>
    requires node { IsNode page.old.forest n }
    ensures step { IfOk result (λ o. Comes o page.old page.new (deeds.Tick n on by_user)) }
    ensures rest { page.new ≡ with_controls (λ cs. page.new.controls) page.old }
{
    if by_user && is_disabled(page, n)? {
        return Ok(Outcome::Ignored);
    }
    set_checked(alloc, page, n, on)?;
    Ok(Outcome::Done)
}

fn set_choice(
    alloc: Global,
    page: &mut Page,
    n: NodeNo,
    on: bool,
    by_user: bool,
) -> Result<Outcome, NoMemory>
    requires node { IsNode page.old.forest n }
    ensures step { IfOk result (λ o. Comes o page.old page.new (deeds.Choose n on by_user)) }
    ensures rest { page.new ≡ with_controls (λ cs. page.new.controls) page.old }
{
    if by_user && is_choice_ignored(page, n)? {
        return Ok(Outcome::Ignored);
    }
    set_chosen(alloc, page, n, on)?;
    Ok(Outcome::Done)
}

fn set_message(
    alloc: Global,
    page: &mut Page,
    n: NodeNo,
    message: Text,
) -> Result<Outcome, NoMemory>
    ensures step { IfOk result (λ o. Comes o page.old page.new (deeds.SetMessage n message)) }
    ensures rest { page.new ≡ with_controls (λ cs. page.new.controls) page.old }
{
    page.set_message(alloc, n, message)?;
    Ok(Outcome::Done)
}

// The user can't edit it: it is disabled, or has `readonly`. A page that is not settled has no answer.
fn is_edit_ignored(page: &Page, n: NodeNo) -> Result<bool, NoMemory>
    requires { IsNode page.now.forest n }
    ensures { IfOk result (λ b. b ≡ is_edit_ignored (forms_of page.now) n) }
{
    if is_disabled(page, n)? {
        return Ok(true);
    }
    Ok(page.tree().attr(n, "readonly").is_some())
}

// The user can't choose it: it is disabled, or its select is. A page that is not settled has no answer.
fn is_choice_ignored(page: &Page, n: NodeNo) -> Result<bool, NoMemory>
    requires { IsNode page.now.forest n }
    ensures { IfOk result (λ b. b ≡ is_choice_ignored (forms_of page.now) n) }
{
    if is_disabled(page, n)? {
        return Ok(true);
    }
    match select_of(page.tree(), n) {
        None => Ok(false),
        Some(select) => is_disabled(page, select),
    }
}
