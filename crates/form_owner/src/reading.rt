// What is above a node, read off the tree.
ghost use Rattle.std.specs.Prelude.{◌≡◌};
ghost use Rattle.node_trees.specs.Nodes.{IsNode, IsTidy};
ghost use Rattle.form_controls.specs.Barred.{is_in_datalist};

use ce_base::NodeNo;
use element_names::Native;
use form_kinds::is_a;
use node_arena::Tree;

/// Whether a node is below a datalist, in its own tree (HTML Standard, section "The datalist element").
pub fn is_in_datalist(tree: &Tree, n: NodeNo) -> bool
    requires tidy { IsTidy tree.now }
    requires node { IsNode tree.now n }
    ensures { result ≡ is_in_datalist tree.now n }
{
    let mut at = n;
    while let Some(parent) = tree.parent(at) {
        if is_a(tree, parent, Native::Datalist) {
            return true;
        }
        at = parent;
    }
    false
}
