// Whether a button may submit a form.
ghost use Rattle.std.specs.Prelude.{◌≡◌};
ghost use Rattle.node_trees.specs.Nodes.{IsNode, IsNodeOrNone};
ghost use Rattle.form_submission.specs.Requests.{request_fit};
ghost use Rattle.ce_algorithms.specs.Forms.{forms_of};
ghost use Rattle.ce_page.specs.Settled.{IsSettled};
ghost use Rattle.page_calls.specs.Refusals.{unless};

use ce_base::{Fault, NodeNo};
use ce_page::Page;
use element_names::InputKind;
use form_kinds::has_kind;

/// Whether a form may be submitted with this submitter, or without one (HTML Standard, section "The form element",
/// `requestSubmit`). TypeError exactly where the submitter is no submit button; else NotFoundError exactly where the form is
/// not its form owner. It takes no memory.
pub fn request_fit(page: &Page, form: NodeNo, submitter: Option<NodeNo>) -> Result<(), Fault>
    requires settled { IsSettled page.now }
    requires form { IsNode page.now.forest form }
    requires submitter { IsNodeOrNone page.now.forest submitter }
    ensures { result ≡ unless (request_fit (forms_of page.now) form submitter) }
{
    match submitter {
        None => Ok(()),
        Some(button) => button_fit(page, form, button),
    }
}

// The same of a submitter.
fn button_fit(page: &Page, form: NodeNo, button: NodeNo) -> Result<(), Fault>
    requires settled { IsSettled page.now }
    requires form { IsNode page.now.forest form }
    requires button { IsNode page.now.forest button }
    ensures { result ≡ unless (request_fit (forms_of page.now) form (Some button)) }
{
    if !has_kind(page.tree(), button, InputKind::Submit) {
        return Err(Fault::TypeError);
    }
    if page.owners().owner(button) != Some(form) {
        return Err(Fault::NotFoundError);
    }
    Ok(())
}
