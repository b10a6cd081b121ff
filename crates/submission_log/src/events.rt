// What a submission is as an event.
ghost use Rattle.std.specs.Prelude.{◌≡◌, IfOk};
ghost use Rattle.node_trees.specs.Nodes.{IsNode, IsNodeOrNone};
ghost use Rattle.ce_algorithms.specs.Submission.{cause, plan, submitted};

use ce_base::{NoMemory, NodeNo};
use ce_events::{Cause, Event};
use ce_page::Page;
use form_submission::{Plan, Site, Why};
use std::alloc::Global;

/// The event of a submission: what a form sends, of the page as it is now, or the first of what blocks it, as
/// `submit_plan::plan` says (HTML Standard, section "Form submission algorithm"). NoMemory: memory was refused, or the page
/// is not settled.
pub(crate) fn submission(
    alloc: Global,
    page: &Page,
    site: &Site,
    form: NodeNo,
    submitter: Option<NodeNo>,
    by_call: bool,
) -> Result<Event, NoMemory>
    requires form { IsNode page.now.forest form }
    requires submitter { IsNodeOrNone page.now.forest submitter }
    ensures { IfOk result (λ e. e ≡ submitted form (plan page.now site.now form submitter by_call)) }
{
    let sent = planned(alloc, page, site, form, submitter, by_call)?;
    Ok(submitted(form, sent))
}

// What it sends, or what blocks it.
fn planned(
    alloc: Global,
    page: &Page,
    site: &Site,
    form: NodeNo,
    submitter: Option<NodeNo>,
    by_call: bool,
) -> Result<Plan, NoMemory>
    requires form { IsNode page.now.forest form }
    requires submitter { IsNodeOrNone page.now.forest submitter }
    ensures { IfOk result (λ p. p ≡ plan page.now site.now form submitter by_call) }
{
    if !page.is_settled() {
        return Err(NoMemory);
    }
    submit_plan::plan(
        alloc,
        page.tree(),
        page.owners(),
        page.controls(),
        page.inner(),
        site.url.as_str(),
        site.boundary.as_str(),
        form,
        submitter,
        by_call,
    )
}

// A plan as an event.
fn submitted(form: NodeNo, sent: Plan) -> Event
    ensures { result ≡ submitted form sent }
{
    match sent {
        Plan::Get(url) => Event::SubmitGet(form, url),
        Plan::Post { url, media, body } => Event::SubmitPost(form, url, media, body),
        Plan::Blocked(why) => Event::SubmitBlocked(form, cause(why)),
    }
}

// What blocks it, as events tell it.
fn cause(why: Why) -> Cause
    ensures { result ≡ cause why }
{
    match why {
        Why::Disconnected => Cause::Disconnected,
        Why::Invalid(controls) => Cause::Invalid(controls),
        Why::Dialog => Cause::Dialog,
        Why::Url => Cause::Url,
        Why::Scheme => Cause::Scheme,
        Why::Size => Cause::Size,
        Why::Boundary => Cause::Boundary,
    }
}
