// Whether an element is disabled, read off the tree.
ghost use Rattle.std.specs.Prelude.{◌≡◌, ◌∷◌, ◌&&◌, Some, true};
ghost use Rattle.element_names.specs.declared.natives.Native.TheVariants.{Fieldset};
ghost use Rattle.node_trees.specs.Nodes.{IsNode, IsTidy};
ghost use Rattle.node_trees.specs.Paths.{is_among};
ghost use Rattle.node_trees.specs.Spots.{parent_at};
ghost use Rattle.node_trees.specs.Trees.{is_number};
ghost use Rattle.form_controls.specs.Disabled.{disables, first_legend, has_disabled, is_in_disabled_fieldset};
ghost use Rattle.form_controls.specs.Kinds.{is_a};
ghost use Rattle.form_controls.specs.Owners.{ancestors};
ghost use Rattle.disabled_reading.specs.Disabled.{disabled_with};

use ce_base::NodeNo;
use element_names::Native;
use form_kinds::{has_disabled, is_a, is_option_disabled};
use node_arena::Tree;
use owner_reading::is_listed;

/// The first legend among the children of a fieldset.
fn first_legend(tree: &Tree, fieldset: NodeNo) -> Option<NodeNo>
    requires tidy { IsTidy tree.now }
    requires node { IsNode tree.now fieldset }
    ensures { result ≡ first_legend tree.now fieldset }
{
    let mut next = tree.first_child(fieldset);
    while let Some(child) = next {
        if is_a(tree, child, Native::Legend) {
            return Some(child);
        }
        next = tree.next_sibling(child);
    }
    None
}

/// Whether a child of a fieldset is the first legend among its children. These are gone through only where it is a legend.
pub fn is_first_legend(tree: &Tree, child: NodeNo, fieldset: NodeNo) -> bool
    requires tidy { IsTidy tree.now }
    requires child { IsNode tree.now child }
    requires fieldset { IsNode tree.now fieldset }
    ensures { result ≡ is_number (first_legend tree.now fieldset) child }
{
    is_a(tree, child, Native::Legend) && first_legend(tree, fieldset) == Some(child)
}

/// Whether a node is a fieldset with `disabled`.
pub fn is_disabled_fieldset(tree: &Tree, n: NodeNo) -> bool
    requires { IsNode tree.now n }
    ensures { result ≡ (is_a Fieldset tree.now n && has_disabled tree.now n) }
{
    is_a(tree, n, Native::Fieldset) && has_disabled(tree, n)
}

/// Whether what is above a node is a fieldset that disables it (HTML Standard, section "The fieldset element"). The way up
/// comes to it from this child: the node itself, or one above the node.
fn disables(tree: &Tree, n: NodeNo, child: NodeNo, above: NodeNo) -> bool
    requires tidy { IsTidy tree.now }
    requires node { IsNode tree.now n }
    requires child { IsNode tree.now child }
    requires above { IsNode tree.now above }
    requires way { is_among child (n ∷ ancestors tree.now n) ≡ true }
    requires parent { parent_at tree.now child ≡ Some above }
    ensures { result ≡ disables tree.now n above }
{
    if !is_disabled_fieldset(tree, above) {
        return false;
    }
    child == n || !is_first_legend(tree, child, above)
}

fn is_in_disabled_fieldset(tree: &Tree, n: NodeNo) -> bool
    requires tidy { IsTidy tree.now }
    requires node { IsNode tree.now n }
    ensures { result ≡ is_in_disabled_fieldset tree.now n }
{
    let mut at = n;
    while let Some(parent) = tree.parent(at) {
        if disables(tree, n, at, parent) {
            return true;
        }
        at = parent;
    }
    false
}

/// Whether a node is disabled, given whether it is a form-associated custom element.
pub fn disabled_of(tree: &Tree, n: NodeNo, associated: bool) -> bool
    requires tidy { IsTidy tree.now }
    requires node { IsNode tree.now n }
    ensures { result ≡ disabled_with tree.now n associated }
{
    if is_a(tree, n, Native::OptionItem) {
        return is_option_disabled(tree, n);
    }
    if !is_listed(tree, n, associated) || is_a(tree, n, Native::Fieldset) {
        return false;
    }
    has_disabled(tree, n) || is_in_disabled_fieldset(tree, n)
}
