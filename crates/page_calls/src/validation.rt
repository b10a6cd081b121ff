// What is asked of constraint validation.
ghost use Rattle.std.specs.Prelude.{◌≡◌, false, IfErr, IfOk};
ghost use Rattle.node_trees.specs.Nodes.{IsNode};
ghost use Rattle.form_controls.specs.Barred.{will_validate};
ghost use Rattle.form_controls.specs.Internals.{kept_by};
ghost use Rattle.form_controls.specs.Validity.{flags, message_of};
ghost use Rattle.ce_algorithms.specs.Forms.{forms_of};

use ce_base::{Flags, NoMemory, NodeNo, Text};
use ce_page::Page;
use std::alloc::Global;

/// Whether a submittable element is a candidate for constraint validation (HTML Standard, section "Constraints",
/// `willValidate`). A page that is not settled has no answer.
pub(crate) fn will_validate(page: &Page, n: NodeNo) -> Result<bool, NoMemory>
    requires { IsNode page.now.forest n }
    ensures candidate { IfOk result (λ b. b ≡ will_validate (forms_of page.now) n) }
    ensures memory { IfErr result (λ e. page.now.settled ≡ false) }
{
    if !page.is_settled() {
        return Err(NoMemory);
    }
    Ok(validity::will_validate(page.tree(), page.owners(), n))
}

/// The validity flags of a submittable element (HTML Standard, section "The constraint validation API", `validity`). A page
/// that is not settled has no answer.
pub(crate) fn flags(page: &Page, n: NodeNo) -> Result<Flags, NoMemory>
    requires { IsNode page.now.forest n }
    ensures flags { IfOk result (λ fs. fs ≡ flags (forms_of page.now) page.now.controls page.now.internals n) }
    ensures memory { IfErr result (λ e. page.now.settled ≡ false) }
{
    if !page.is_settled() {
        return Err(NoMemory);
    }
    Ok(validity::flags(page.tree(), page.owners(), page.controls(), page.inner(), n))
}

/// The message of a submittable element: that of its internals, where it is a form-associated custom element, else the custom
/// one (HTML Standard, sections "Element internals", "The constraint validation API", `validationMessage`). NoMemory: memory
/// was refused, or the page is not settled.
pub(crate) fn message(alloc: Global, page: &Page, n: NodeNo) -> Result<Text, NoMemory>
    requires { IsNode page.now.forest n }
    ensures { IfOk result (λ t. t ≡ message_of (forms_of page.now) page.now.controls page.now.internals n) }
{
    if !page.is_settled() {
        return Err(NoMemory);
    }
    if page.owners().associated(n) {
        return Text::of(alloc, kept_message(page, n));
    }
    Text::of(alloc, page.controls().message(n))
}

// The message that an element's internals keep; the empty one without internals.
fn kept_message(page: &Page, n: NodeNo) -> &str
    ensures { result.now ≡ (kept_by page.now.internals n).message }
{
    if !page.inner().attached(n) {
        return "";
    }
    page.inner().message_of(n)
}
