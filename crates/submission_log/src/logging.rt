// A submission, as an entry of a log.
ghost use Rattle.std.specs.Prelude.{◌≡◌, ◌++◌, ◌∷◌, [], OnOk};
ghost use Rattle.node_trees.specs.Nodes.{IsNode, IsNodeOrNone};
ghost use Rattle.ce_algorithms.specs.Submission.{plan, submitted};

use crate::events::submission;
use ce_base::{NoMemory, NodeNo};
use ce_events::Event;
use ce_page::Page;
use form_submission::Site;
use std::alloc::Global;

/// Submits a form, with this submitter or without one, by a call of `submit` or not (HTML Standard, section "Form submission
/// algorithm", "submit"): what it sends, of the page as it is now, or the first of what blocks it, is logged behind what was.
/// NoMemory: memory was refused, or the page is not settled; the log is only dropped.
pub fn submit(
    alloc: Global,
    page: &Page,
    site: &Site,
    log: &mut Vec<Event>,
    form: NodeNo,
    submitter: Option<NodeNo>,
    by_call: bool,
) -> Result<(), NoMemory>
    requires form { IsNode page.now.forest form }
    requires submitter { IsNodeOrNone page.now.forest submitter }
    ensures { OnOk result (log.new.items ≡ log.old.items ++ submitted form (plan page.now site.now form submitter by_call) ∷ []) }
{
    let sent = submission(alloc, page, site, form, submitter, by_call)?;
    log.push(sent)?;
    Ok(())
}
