// Who is passed over.
ghost use Rattle.std.specs.Prelude.{◌≡◌};
ghost use Rattle.node_trees.specs.Nodes.{IsNode};
ghost use Rattle.form_controls.specs.Owners.{Forms};
ghost use Rattle.checkedness.specs.Stands.{Stands, StandsFor};
ghost use Rattle.form_submission.specs.EntryList.{is_skipped};

use ce_base::NodeNo;
use checkedness::form_owner::{OwnerTable, is_in_datalist};
use checkedness::is_checked;
use control_state::ControlTable;
use form_kinds::{is_button, is_tickable};
use node_arena::Tree;

/// Whether an element is passed over: it is below a datalist, disabled, a button that is not the submitter, or a checkbox or a
/// radio button that is not checked.
pub(crate) fn is_skipped(
    tree: &Tree,
    owners: &OwnerTable,
    controls: &ControlTable,
    submitter: Option<NodeNo>,
    n: NodeNo,
) -> bool
    requires stands { StandsFor owners.now tree.now }
    requires node { IsNode tree.now n }
    ensures { (f : Forms) → f.forest ≡ tree.now → Stands owners.now f → result ≡ is_skipped f controls.now submitter n }
{
    let _count = tree.count();
    is_in_datalist(tree, n)
        || owners.disabled(n)
        || (is_button(tree, n) && submitter != Some(n))
        || (is_tickable(tree, n) && !is_checked(tree, owners, controls, n))
}
