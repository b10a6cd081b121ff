// The form owner of an element, read off the tree.
ghost use Rattle.std.specs.Prelude.{◌≡◌};
ghost use Rattle.node_trees.specs.Ids.{first_with_id};
ghost use Rattle.node_trees.specs.Nodes.{IsNode, IsNodeOrNone, IsTidy};
ghost use Rattle.form_controls.specs.Owners.{is_listed_native, nearest_form, where_form};
ghost use Rattle.owner_reading.specs.Owners.{listed_by, owner_with};

use ce_base::NodeNo;
use element_names::Native;
use form_kinds::{is_a, native_at};
use node_arena::Tree;

fn is_listed_native(element: Native) -> bool
    ensures { result ≡ is_listed_native element }
{
    match element {
        Native::Button => true,
        Native::Fieldset => true,
        Native::Input => true,
        Native::Select => true,
        Native::Textarea => true,
        _ => false,
    }
}

/// Whether a node is a listed element (HTML Standard, section "Categories"), given whether it is a form-associated custom
/// element.
pub fn is_listed(tree: &Tree, n: NodeNo, associated: bool) -> bool
    requires { IsNode tree.now n }
    ensures { result ≡ listed_by tree.now n associated }
{
    associated || is_listed_native(native_at(tree, n))
}

/// The nearest form above a node.
fn nearest_form(tree: &Tree, n: NodeNo) -> Option<NodeNo>
    requires tidy { IsTidy tree.now }
    requires node { IsNode tree.now n }
    ensures { result ≡ nearest_form tree.now n }
{
    let mut at = n;
    while let Some(parent) = tree.parent(at) {
        if is_a(tree, parent, Native::Form) {
            return Some(parent);
        }
        at = parent;
    }
    None
}

/// A form itself, and no other node.
pub fn where_form(tree: &Tree, n: Option<NodeNo>) -> Option<NodeNo>
    requires { IsNodeOrNone tree.now n }
    ensures { result ≡ where_form tree.now n }
{
    let n = n?;
    if is_a(tree, n, Native::Form) {
        Some(n)
    } else {
        None
    }
}

/// The first element of a root's tree that has this ID, where that is a form.
pub fn named_form(tree: &Tree, root: NodeNo, id: &str) -> Option<NodeNo>
    requires { IsNode tree.now root }
    ensures { result ≡ where_form tree.now (first_with_id tree.now root id.now) }
{
    where_form(tree, tree.first_with_id(root, id))
}

/// The form owner of a node (HTML Standard, section "Association of controls and forms", "reset the form owner").
pub fn owner_of(tree: &Tree, n: NodeNo, associated: bool) -> Option<NodeNo>
    requires tidy { IsTidy tree.now }
    requires node { IsNode tree.now n }
    ensures { result ≡ owner_with tree.now n associated }
{
    if !is_listed(tree, n, associated) {
        return None;
    }
    match tree.attr(n, "form") {
        None => nearest_form(tree, n),
        Some(id) => {
            if tree.is_connected(n) {
                named_form(tree, tree.root(n), id)
            } else {
                nearest_form(tree, n)
            }
        }
    }
}
