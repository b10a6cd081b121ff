// What a form, or the button that submits it, says of the submission.
ghost use Rattle.std.specs.Prelude.{◌≡◌, false, option_copied, true};
ghost use Rattle.form_submission.specs.Attributes as meant;
ghost use Rattle.node_trees.specs.Nodes.{IsNode, IsNodeOrNone};
ghost use Rattle.form_submission.specs.Attributes.{action_of, encoding_named, encoding_of, is_unvalidated, method_named, method_of, said, said_by};
ghost use Rattle.submit_plan.specs.Named.{encoding_meant, method_meant};
ghost use Rattle.submit_plan.specs.Sent.{IsSent};

use ce_base::NodeNo;
use form_kinds::has_attribute;
use node_arena::Tree;

/// How a form is sent (HTML Standard, section "Form submission attributes", "method").
#[derive(Clone, Copy)]
pub(crate) enum Method {
    Get,
    Post,
    Dialog,
}

/// How the body of a request is written (HTML Standard, section "Form submission attributes", "enctype").
#[derive(Clone, Copy)]
pub(crate) enum Encoding {
    Urlencoded,
    Multipart,
    PlainText,
}

/// An attribute of the submitter, where there is one.
fn said_by<'a>(tree: &'a Tree, submitter: Option<NodeNo>, name: &str) -> Option<&'a str>
    requires { IsNodeOrNone tree.now submitter }
    ensures { option_copied result ≡ said_by tree.now submitter name.now }
{
    match submitter {
        None => None,
        Some(n) => tree.attr(n, name),
    }
}

/// The submitter's attribute where it is present, else the form's, else the empty text.
fn said<'a>(
    tree: &'a Tree,
    form: NodeNo,
    submitter: Option<NodeNo>,
    its: &str,
    own: &str,
) -> &'a str
    requires form { IsNode tree.now form }
    requires submitter { IsNodeOrNone tree.now submitter }
    ensures { result.now ≡ said tree.now form submitter its.now own.now }
{
    match said_by(tree, submitter, its) {
        Some(text) => text,
        None => tree.attr(form, own).unwrap_or(""),
    }
}

fn method_named(text: &str) -> Method
    ensures { method_meant result ≡ method_named text.now }
{
    if text.eq_ignore_ascii_case("post") {
        Method::Post
    } else if text.eq_ignore_ascii_case("dialog") {
        Method::Dialog
    } else {
        Method::Get
    }
}

/// Whether a method sends nothing.
pub(crate) fn is_dialog(method: Method) -> bool
    ensures dialog { result ≡ true → method_meant method ≡ meant.DialogMethod }
    ensures other { result ≡ false → IsSent method }
{
    match method {
        Method::Dialog => true,
        Method::Get | Method::Post => false,
    }
}

fn encoding_named(text: &str) -> Encoding
    ensures { encoding_meant result ≡ encoding_named text.now }
{
    if text.eq_ignore_ascii_case("multipart/form-data") {
        Encoding::Multipart
    } else if text.eq_ignore_ascii_case("text/plain") {
        Encoding::PlainText
    } else {
        Encoding::Urlencoded
    }
}

/// The method of a submission.
pub(crate) fn method_of(tree: &Tree, form: NodeNo, submitter: Option<NodeNo>) -> Method
    requires form { IsNode tree.now form }
    requires submitter { IsNodeOrNone tree.now submitter }
    ensures { method_meant result ≡ method_of tree.now form submitter }
{
    method_named(said(tree, form, submitter, "formmethod", "method"))
}

/// The action of a submission; the empty one names the page itself.
pub(crate) fn action_of(tree: &Tree, form: NodeNo, submitter: Option<NodeNo>) -> &str
    requires form { IsNode tree.now form }
    requires submitter { IsNodeOrNone tree.now submitter }
    ensures { result.now ≡ action_of tree.now form submitter }
{
    said(tree, form, submitter, "formaction", "action")
}

/// The encoding of a submission.
pub(crate) fn encoding_of(tree: &Tree, form: NodeNo, submitter: Option<NodeNo>) -> Encoding
    requires form { IsNode tree.now form }
    requires submitter { IsNodeOrNone tree.now submitter }
    ensures { encoding_meant result ≡ encoding_of tree.now form submitter }
{
    encoding_named(said(tree, form, submitter, "formenctype", "enctype"))
}

/// Whether the form or the submitter says that the controls are not validated (HTML Standard, section "Form
/// submission attributes", "no-validate state").
pub(crate) fn is_unvalidated(tree: &Tree, form: NodeNo, submitter: Option<NodeNo>) -> bool
    requires form { IsNode tree.now form }
    requires submitter { IsNodeOrNone tree.now submitter }
    ensures { result ≡ is_unvalidated tree.now form submitter }
{
    said_by(tree, submitter, "formnovalidate").is_some() || has_attribute(tree, form, "novalidate")
}
