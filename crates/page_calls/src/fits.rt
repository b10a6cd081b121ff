// What a node has to be where an operand names it.
ghost use Rattle.std.specs.Prelude.{◌≡◌};
ghost use Rattle.node_trees.specs.Facts.{is_document, is_element, is_text};
ghost use Rattle.node_trees.specs.Nodes.{IsNode};
ghost use Rattle.ce_algorithms.specs.Fits.{fits};
ghost use Rattle.ce_algorithms.specs.Forms.{is_custom_form_associated, is_listed, is_submittable};

use ce_algorithms::Fit;
use ce_base::{CustomState, NodeNo};
use ce_page::{NodeKind, Page};
use element_names::Native;
use form_kinds::{is_a, is_button, is_text_control, is_tickable};

/// Whether a node is what it has to be.
pub fn fits(what: Fit, page: &Page, n: NodeNo) -> bool
    requires { IsNode page.now.forest n }
    ensures { result ≡ fits what page.now n }
{
    let kind = page.tree().kind(n);
    match what {
        Fit::Any => true,
        Fit::Element => is_element(kind),
        Fit::Document => is_document(kind),
        Fit::ElementOrText => is_element(kind) || is_text(kind),
        Fit::Form => is_a(page.tree(), n, Native::Form),
        Fit::Listed => is_listed(page, n),
        Fit::ListedNative => validity::form_owner::is_listed(page.tree(), n, false),
        Fit::Submittable => is_submittable(page, n),
        Fit::SubmittableOrOption => {
            is_submittable(page, n) || is_a(page.tree(), n, Native::OptionItem)
        }
        Fit::TextControl => is_text_control(page.tree(), n),
        Fit::Tickable => is_tickable(page.tree(), n),
        Fit::AnOption => is_a(page.tree(), n, Native::OptionItem),
        Fit::Button => is_button(page.tree(), n),
        Fit::FormAssociated => page.is_form_associated(n),
        Fit::CustomFormAssociated => is_custom_form_associated(page, n),
        Fit::WithInternals => page.inner().attached(n),
    }
}

/// Whether a node is a listed element (HTML Standard, section "Categories").
fn is_listed(page: &Page, n: NodeNo) -> bool
    requires { IsNode page.now.forest n }
    ensures { result ≡ is_listed page.now n }
{
    validity::form_owner::is_listed(page.tree(), n, page.is_form_associated(n))
}

/// Whether a node is a submittable element (HTML Standard, section "Categories").
fn is_submittable(page: &Page, n: NodeNo) -> bool
    requires { IsNode page.now.forest n }
    ensures { result ≡ is_submittable page.now n }
{
    is_listed(page, n) && !is_a(page.tree(), n, Native::Fieldset)
}

/// Whether a node is a custom form-associated element: a form-associated custom element whose state is "custom" (HTML
/// Standard, section "Core concepts"; DOM Standard, section "Interface Element").
pub(crate) fn is_custom_form_associated(page: &Page, n: NodeNo) -> bool
    ensures { result ≡ is_custom_form_associated page.now n }
{
    matches!(page.state(n), CustomState::Custom) && page.is_form_associated(n)
}

fn is_element(kind: NodeKind) -> bool
    ensures { result ≡ is_element kind }
{
    matches!(kind, NodeKind::Element)
}

fn is_document(kind: NodeKind) -> bool
    ensures { result ≡ is_document kind }
{
    matches!(kind, NodeKind::Document)
}

fn is_text(kind: NodeKind) -> bool
    ensures { result ≡ is_text kind }
{
    matches!(kind, NodeKind::TextNode)
}
