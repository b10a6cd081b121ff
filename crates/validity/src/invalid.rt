// The invalid controls of a form.
ghost use Rattle.std.specs.Prelude.{◌≡◌, IfOk};
ghost use Rattle.node_trees.specs.Nodes.{IsNode};
ghost use Rattle.form_controls.specs.Owners.{Forms};
ghost use Rattle.form_controls.specs.Validity.{invalid_controls, is_invalid};
ghost use Rattle.checkedness.specs.Stands.{Stands, StandsFor};

use crate::{flags, will_validate};
use ce_base::{NoMemory, NodeNo, Nodes};
use checkedness::form_owner::OwnerTable;
use control_state::ControlTable;
use element_internals::{InternalsTable, is_raised};
use node_arena::Tree;
use std::alloc::Global;

/// Whether an element is validated, and has a flag.
fn is_invalid(
    tree: &Tree,
    owners: &OwnerTable,
    controls: &ControlTable,
    inner: &InternalsTable,
    n: NodeNo,
) -> bool
    requires stands { StandsFor owners.now tree.now }
    requires node { IsNode tree.now n }
    ensures { (f : Forms) → f.forest ≡ tree.now → Stands owners.now f → result ≡ is_invalid f controls.now inner.now n }
{
    owners.submittable(tree, n)
        && will_validate(tree, owners, n)
        && is_raised(flags(tree, owners, controls, inner, n))
}

/// The invalid controls of a form, in tree order: those of its controls that are validated and have a flag (HTML Standard,
/// section "Constraint validation", "statically validate the constraints"). NoMemory: memory was refused.
pub fn invalid_controls(
    alloc: Global,
    tree: &Tree,
    owners: &OwnerTable,
    controls: &ControlTable,
    inner: &InternalsTable,
    form: NodeNo,
) -> Result<Nodes, NoMemory>
    requires stands { StandsFor owners.now tree.now }
    requires node { IsNode tree.now form }
    ensures { (f : Forms) → f.forest ≡ tree.now → Stands owners.now f → IfOk result (λ ns. ns ≡ invalid_controls f controls.now inner.now form) }
{
    let _count = tree.count();
    let mut invalid = Nodes::make(alloc);
    for n in owners.controls(form) {
        let is_kept = is_invalid(tree, owners, controls, inner, *n);
        invalid.keep_where(alloc, is_kept, *n)?;
    }
    Ok(invalid)
}
