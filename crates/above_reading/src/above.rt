// What stands above a node.
ghost use Rattle.std.specs.Prelude.{◌≡◌, ◌&&◌, ◌||◌, not, Some, None, if◌then◌else◌};
ghost use Rattle.element_names.specs.declared.natives.Native.TheVariants.{Fieldset, Form};
ghost use Rattle.node_trees.specs.Nodes.{IsNode, IsTidy};
ghost use Rattle.node_trees.specs.Spots.{parent_at};
ghost use Rattle.node_trees.specs.Trees.{is_number};
ghost use Rattle.form_controls.specs.Disabled.{first_legend, has_disabled};
ghost use Rattle.form_controls.specs.Kinds.{is_a};
ghost use Rattle.above_reading.specs.Above.{above_at};

use ce_base::NodeNo;
use disabled_reading::{is_disabled_fieldset, is_first_legend};
use element_names::Native;
use form_kinds::is_a;
use node_arena::Tree;

/// What stands above a node, as forms are about it.
#[derive(Clone, Copy)]
pub(crate) struct Above {
    /// The nearest form above it.
    pub(crate) form: Option<NodeNo>,
    /// Whether a fieldset above it disables it.
    pub(crate) inside: bool,
    /// Whether a fieldset above it disables what is below it: not where it is the first legend of that, or in it.
    pub(crate) below: bool,
    /// The root of its tree.
    pub(crate) root: NodeNo,
}

/// What stands above a root.
pub(crate) fn above_root(tree: &Tree, n: NodeNo) -> Above
    requires tidy { IsTidy tree.now }
    requires node { IsNode tree.now n }
    requires root { parent_at tree.now n ≡ None }
    ensures { result ≡ above_at tree.now n }
{
    let _count = tree.count();
    Above {
        form: None,
        inside: false,
        below: false,
        root: n,
    }
}

/// The nearest form at or above a node.
fn form_from(tree: &Tree, n: NodeNo, above: Option<NodeNo>) -> Option<NodeNo>
    requires { IsNode tree.now n }
    ensures { result ≡ (if is_a Form tree.now n then Some n else above) }
{
    if is_a(tree, n, Native::Form) {
        return Some(n);
    }
    above
}

/// Whether a node is in a disabled fieldset, given its parent, and whether something above that disables what is below.
fn inside_under(tree: &Tree, parent: NodeNo, below: bool) -> bool
    requires { IsNode tree.now parent }
    ensures { result ≡ ((is_a Fieldset tree.now parent && has_disabled tree.now parent) || below) }
{
    below || is_disabled_fieldset(tree, parent)
}

/// Whether what is below a node is in a disabled fieldset that the node is in: not where it is the first legend of its parent,
/// unless something above that disables what is below.
fn below_under(tree: &Tree, parent: NodeNo, below: bool, n: NodeNo) -> bool
    requires tidy { IsTidy tree.now }
    requires parent { IsNode tree.now parent }
    requires node { IsNode tree.now n }
    ensures { result ≡ (((is_a Fieldset tree.now parent && has_disabled tree.now parent) && not (is_number (first_legend tree.now parent) n)) || below) }
{
    below || (is_disabled_fieldset(tree, parent) && !is_first_legend(tree, n, parent))
}

/// What stands above a child: its parent, and what stands above that.
pub(crate) fn above_child(tree: &Tree, parent: NodeNo, above: &Above, n: NodeNo) -> Above
    requires tidy { IsTidy tree.now }
    requires parent_node { IsNode tree.now parent }
    requires node { IsNode tree.now n }
    requires parent { parent_at tree.now n ≡ Some parent }
    requires above { above.now ≡ above_at tree.now parent }
    ensures { result ≡ above_at tree.now n }
{
    Above {
        form: form_from(tree, parent, above.form),
        inside: inside_under(tree, parent, above.below),
        below: below_under(tree, parent, above.below, n),
        root: above.root,
    }
}
