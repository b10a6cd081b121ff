// What keeps a form from being sent before its method is looked at.
ghost use Rattle.std.specs.Prelude.{◌≡◌, IfOk};
ghost use Rattle.node_trees.specs.Nodes.{IsNode, IsNodeOrNone};
ghost use Rattle.form_controls.specs.Owners.{Forms};
ghost use Rattle.validity.specs.Stands.{Stands, StandsFor};
ghost use Rattle.form_submission.specs.Plans.{hindering, is_in_page};

use crate::attributes::is_unvalidated;
use ce_base::{NoMemory, NodeNo, Nodes};
use control_state::ControlTable;
use element_internals::InternalsTable;
use node_arena::Tree;
use std::alloc::Global;
use validity::form_owner::OwnerTable;
use validity::invalid_controls;

/// Whether a form is in the page's document, or in a shadow tree of it.
pub(crate) fn is_in_page(tree: &Tree, form: NodeNo) -> bool
    requires { IsNode tree.now form }
    ensures { result ≡ is_in_page tree.now form }
{
    tree.shadow_including_root(form) == NodeNo(1)
}

/// The controls for whose sake nothing is sent: the invalid ones, in tree order; none by a call of `submit`, or where the
/// controls are not validated.
pub(crate) fn hindering(
    alloc: Global,
    tree: &Tree,
    owners: &OwnerTable,
    controls: &ControlTable,
    inner: &InternalsTable,
    form: NodeNo,
    submitter: Option<NodeNo>,
    by_call: bool,
) -> Result<Nodes, NoMemory>
    requires stands { StandsFor owners.now tree.now }
    requires form { IsNode tree.now form }
    requires submitter { IsNodeOrNone tree.now submitter }
    ensures { (f : Forms) → f.forest ≡ tree.now → Stands owners.now f → IfOk result (λ ns. ns ≡ hindering f controls.now inner.now form submitter by_call) }
{
    if by_call || is_unvalidated(tree, form, submitter) {
        return Ok(Nodes::make(alloc));
    }
    invalid_controls(alloc, tree, owners, controls, inner, form)
}
