// Attributes of controls.
ghost use Rattle.std.specs.Prelude.{◌≡◌};
ghost use Rattle.node_trees.specs.Nodes.{IsNode};
ghost use Rattle.form_controls.specs.Disabled.{has_disabled, is_option_disabled};
ghost use Rattle.form_controls.specs.Kinds.{has_attribute, name_of};

use crate::kinds::is_a;
use ce_base::NodeNo;
use element_names::Native;
use node_arena::Tree;

/// Whether a node has this attribute, whatever its value is (HTML Standard, section "Boolean attributes").
pub fn has_attribute(tree: &Tree, n: NodeNo, name: &str) -> bool
    requires { IsNode tree.now n }
    ensures { result ≡ has_attribute tree.now n name.now }
{
    tree.attr(n, name).is_some()
}

/// Whether a node has the `disabled` attribute (HTML Standard, section "Enabling and disabling form controls: the disabled
/// attribute").
pub fn has_disabled(tree: &Tree, n: NodeNo) -> bool
    requires { IsNode tree.now n }
    ensures { result ≡ has_disabled tree.now n }
{
    has_attribute(tree, n, "disabled")
}

/// Whether an option is disabled (HTML Standard, section "The option element", "disabled").
pub fn is_option_disabled(tree: &Tree, n: NodeNo) -> bool
    requires { IsNode tree.now n }
    ensures { result ≡ is_option_disabled tree.now n }
{
    if has_disabled(tree, n) {
        return true;
    }
    match tree.parent(n) {
        None => false,
        Some(parent) => is_a(tree, parent, Native::Optgroup) && has_disabled(tree, parent),
    }
}

/// The `name` attribute, or the empty text (HTML Standard, section "Naming form controls: the name attribute").
pub fn name_of(tree: &Tree, n: NodeNo) -> &str
    requires { IsNode tree.now n }
    ensures { result.now ≡ name_of tree.now n }
{
    match tree.attr(n, "name") {
        None => "",
        Some(name) => name,
    }
}
