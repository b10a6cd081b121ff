// Validity flags.
ghost use Rattle.std.specs.Prelude.{◌≡◌};
ghost use Rattle.node_trees.specs.Nodes.{IsNode};
ghost use Rattle.form_controls.specs.Internals.{kept_by};
ghost use Rattle.form_controls.specs.Owners.{Forms};
ghost use Rattle.form_controls.specs.Validity.{flags, native_flags};
ghost use Rattle.checkedness.specs.Stands.{Stands, StandsFor};

use crate::limits::{is_too_long, is_too_short};
use crate::missing::is_missing;
use ce_base::{Flags, NodeNo};
use checkedness::form_owner::OwnerTable;
use control_state::ControlTable;
use element_internals::InternalsTable;
use node_arena::Tree;

/// The validity flags of an element of HTML: it can have valueMissing, tooLong, tooShort and customError.
fn native_flags(tree: &Tree, owners: &OwnerTable, controls: &ControlTable, n: NodeNo) -> Flags
    requires stands { StandsFor owners.now tree.now }
    requires node { IsNode tree.now n }
    ensures { (f : Forms) → f.forest ≡ tree.now → Stands owners.now f → result ≡ native_flags f controls.now n }
{
    let missing = is_missing(tree, owners, controls, n);
    let too_long = is_too_long(controls, tree, n);
    let too_short = is_too_short(controls, tree, n);
    let custom = !controls.message(n).is_empty();
    Flags([
        missing, false, false, too_long, too_short, false, false, false, false, custom,
    ])
}

/// The validity flags that an element's internals keep; none without internals.
fn kept_flags(inner: &InternalsTable, n: NodeNo) -> Flags
    ensures { result ≡ (kept_by inner.now n).flags }
{
    if !inner.attached(n) {
        return Flags([false; 10]);
    }
    inner.flags_of(n)
}

/// The validity flags of a submittable element, whether it is barred from constraint validation or not (HTML Standard, section
/// "Constraints"). A form-associated custom element has those of its internals. It takes no memory.
pub fn flags(
    tree: &Tree,
    owners: &OwnerTable,
    controls: &ControlTable,
    inner: &InternalsTable,
    n: NodeNo,
) -> Flags
    requires stands { StandsFor owners.now tree.now }
    requires node { IsNode tree.now n }
    ensures { (f : Forms) → f.forest ≡ tree.now → Stands owners.now f → result ≡ flags f controls.now inner.now n }
{
    if owners.associated(n) {
        return kept_flags(inner, n);
    }
    native_flags(tree, owners, controls, n)
}
