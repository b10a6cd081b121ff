// Which element a node is, and of which kind a control is.
ghost use Rattle.std.specs.Prelude.{◌≡◌, option_copied};
ghost use Rattle.element_names.specs.InputKinds.{button_kind};
ghost use Rattle.node_trees.specs.Nodes.{IsNode};
ghost use Rattle.form_controls.specs.Kinds.{has_kind, is_a, is_button, is_text_control, is_tickable, kind_of, native_at};

use ce_base::NodeNo;
use element_names::{InputKind, Native, input_kind, native};
use node_arena::Tree;

/// The element that a node is.
pub fn native_at(tree: &Tree, n: NodeNo) -> Native
    requires { IsNode tree.now n }
    ensures { result ≡ native_at tree.now n }
{
    native(tree.local(n))
}

/// Whether a node is this element.
pub fn is_a(tree: &Tree, n: NodeNo, element: Native) -> bool
    requires { IsNode tree.now n }
    ensures { result ≡ is_a element tree.now n }
{
    native_at(tree, n) == element
}

/// The kind of a button element with this `type` attribute, or without one (HTML Standard, section "The button element",
/// "type"). A text that names no kind is read as `Submit`.
fn button_kind(kind_text: Option<&str>) -> InputKind
    ensures { result ≡ button_kind (option_copied kind_text.entry) }
{
    match kind_text {
        Some(text) if text.eq_ignore_ascii_case("reset") => InputKind::Reset,
        Some(text) if text.eq_ignore_ascii_case("button") => InputKind::Button,
        _ => InputKind::Submit,
    }
}

/// The kind of an input or a button, by its `type` attribute (HTML Standard, sections "The input element", "The button
/// element"). None exactly for another node.
pub fn kind_of(tree: &Tree, n: NodeNo) -> Option<InputKind>
    requires { IsNode tree.now n }
    ensures { result ≡ kind_of tree.now n }
{
    match native_at(tree, n) {
        Native::Input => Some(input_kind(tree.attr(n, "type"))),
        Native::Button => Some(button_kind(tree.attr(n, "type"))),
        _ => None,
    }
}

/// Whether a node is an input or a button of this kind (HTML Standard, sections "The input element", "The button element").
pub fn has_kind(tree: &Tree, n: NodeNo, kind: InputKind) -> bool
    requires { IsNode tree.now n }
    ensures { result ≡ has_kind kind tree.now n }
{
    match kind_of(tree, n) {
        None => false,
        Some(other) => kind == other,
    }
}

/// Whether a node is a text input or a textarea (HTML Standard, sections "The input element", "The textarea element").
pub fn is_text_control(tree: &Tree, n: NodeNo) -> bool
    requires { IsNode tree.now n }
    ensures { result ≡ is_text_control tree.now n }
{
    has_kind(tree, n, InputKind::Text) || is_a(tree, n, Native::Textarea)
}

/// Whether a node is a checkbox or a radio button (HTML Standard, section "The input element").
pub fn is_tickable(tree: &Tree, n: NodeNo) -> bool
    requires { IsNode tree.now n }
    ensures { result ≡ is_tickable tree.now n }
{
    has_kind(tree, n, InputKind::Checkbox) || has_kind(tree, n, InputKind::Radio)
}

/// Whether a node is a button: one that submits, one that resets, or one that does nothing by itself (HTML Standard, section
/// "Categories").
pub fn is_button(tree: &Tree, n: NodeNo) -> bool
    requires { IsNode tree.now n }
    ensures { result ≡ is_button tree.now n }
{
    has_kind(tree, n, InputKind::Submit)
        || has_kind(tree, n, InputKind::Reset)
        || has_kind(tree, n, InputKind::Button)
}
