// The plan of a submission.
ghost use Rattle.std.specs.Prelude.{◌≡◌, IfOk};
ghost use Rattle.node_trees.specs.Nodes.{IsNode, IsNodeOrNone};
ghost use Rattle.form_controls.specs.Owners.{Forms};
ghost use Rattle.validity.specs.Stands.{Stands, StandsFor};
ghost use Rattle.form_submission.specs.Plans.{plan};
ghost use Rattle.submit_plan.specs.Sent.{sent_by};

use crate::action::action_url;
use crate::attributes::{action_of, encoding_of, is_dialog, method_of};
use crate::hindering::{hindering, is_in_page};
use crate::sending::send_to;
use ce_base::{NoMemory, NodeNo};
use control_state::ControlTable;
use element_internals::InternalsTable;
use entry_list::entries;
use form_submission::{Plan, Why};
use node_arena::Tree;
use std::alloc::Global;
use validity::form_owner::OwnerTable;

/// What a form that nothing hinders sends, or what blocks it from its method on.
fn sent(
    alloc: Global,
    tree: &Tree,
    owners: &OwnerTable,
    controls: &ControlTable,
    inner: &InternalsTable,
    page_url: &str,
    boundary: &str,
    form: NodeNo,
    submitter: &Option<NodeNo>,
) -> Result<Plan, NoMemory>
    requires stands { StandsFor owners.now tree.now }
    requires form { IsNode tree.now form }
    requires submitter { IsNodeOrNone tree.now submitter.now }
    ensures { (f : Forms) → f.forest ≡ tree.now → Stands owners.now f
        → IfOk result (λ p. p ≡ sent_by f controls.now inner.now page_url.now boundary.now form submitter.now) }
{
    let method = method_of(tree, form, *submitter);
    if is_dialog(method) {
        return Ok(Plan::Blocked(Why::Dialog));
    }
    let url = action_url(alloc, page_url, action_of(tree, form, *submitter))?;
    let list = entries(alloc, tree, owners, controls, inner, form, *submitter)?;
    let encoding = encoding_of(tree, form, *submitter);
    send_to(alloc, &list, method, encoding, boundary, url)
}

/// The plan of a submission.
fn planned(
    alloc: Global,
    tree: &Tree,
    owners: &OwnerTable,
    controls: &ControlTable,
    inner: &InternalsTable,
    page_url: &str,
    boundary: &str,
    form: NodeNo,
    submitter: &Option<NodeNo>,
    by_call: bool,
) -> Result<Plan, NoMemory>
    requires stands { StandsFor owners.now tree.now }
    requires form { IsNode tree.now form }
    requires submitter { IsNodeOrNone tree.now submitter.now }
    ensures { (f : Forms) → f.forest ≡ tree.now → Stands owners.now f
        → IfOk result (λ p. p ≡ plan f controls.now inner.now page_url.now boundary.now form submitter.now by_call) }
{
    if !is_in_page(tree, form) {
        return Ok(Plan::Blocked(Why::Disconnected));
    }
    let invalid = hindering(
        alloc, tree, owners, controls, inner, form, *submitter, by_call,
    )?;
    if invalid.len() > 0 {
        return Ok(Plan::Blocked(Why::Invalid(invalid)));
    }
    sent(
        alloc, tree, owners, controls, inner, page_url, boundary, form, submitter,
    )
}

/// What a submission of a form sends, or the first of what blocks it: the form is not in the page; controls are invalid, unless
/// it comes by a call of `submit`, or the form has `novalidate` or the submitter `formnovalidate`; the method is `dialog`; the
/// action does not parse; its scheme is not http or https; the entries are too large; the boundary of a multipart body occurs
/// in one (HTML Standard, section "Form submission algorithm"). Nothing changes. NoMemory: memory was refused.
pub fn plan(
    alloc: Global,
    tree: &Tree,
    owners: &OwnerTable,
    controls: &ControlTable,
    inner: &InternalsTable,
    page_url: &str,
    boundary: &str,
    form: NodeNo,
    submitter: Option<NodeNo>,
    by_call: bool,
) -> Result<Plan, NoMemory>
    requires stands { StandsFor owners.now tree.now }
    requires form { IsNode tree.now form }
    requires submitter { IsNodeOrNone tree.now submitter }
    ensures { (f : Forms) → f.forest ≡ tree.now → Stands owners.now f
        → IfOk result (λ p. p ≡ plan f controls.now inner.now page_url.now boundary.now form submitter by_call) }
{
    planned(
        alloc, tree, owners, controls, inner, page_url, boundary, form, &submitter, by_call,
    )
}
