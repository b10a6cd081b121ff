// Who is barred from constraint validation.
ghost use Rattle.std.specs.Prelude.{◌≡◌};
ghost use Rattle.node_trees.specs.Nodes.{IsNode};
ghost use Rattle.form_controls.specs.Barred.{has_barred_kind, is_kept_from_editing, will_validate};
ghost use Rattle.form_controls.specs.Owners.{Forms};
ghost use Rattle.checkedness.specs.Stands.{Stands, StandsFor};

use ce_base::NodeNo;
use checkedness::form_owner::{OwnerTable, is_in_datalist};
use element_names::InputKind;
use form_kinds::{has_attribute, has_kind, is_text_control};
use node_arena::Tree;

/// Whether an element is of a kind that is never validated.
fn has_barred_kind(tree: &Tree, n: NodeNo) -> bool
    requires { IsNode tree.now n }
    ensures { result ≡ has_barred_kind tree.now n }
{
    has_kind(tree, n, InputKind::Hidden)
        || has_kind(tree, n, InputKind::Reset)
        || has_kind(tree, n, InputKind::Button)
}

/// Whether an element on which `readonly` counts has it (HTML Standard, section "The readonly attribute").
fn is_kept_from_editing(tree: &Tree, owners: &OwnerTable, n: NodeNo) -> bool
    requires { IsNode tree.now n }
    ensures { (f : Forms) → f.forest ≡ tree.now → Stands owners.now f → result ≡ is_kept_from_editing f n }
{
    (is_text_control(tree, n) || owners.associated(n)) && has_attribute(tree, n, "readonly")
}

/// Whether a submittable element is a candidate for constraint validation: it is not barred from it (HTML Standard, section
/// "Constraints", `willValidate`). It takes no memory.
pub fn will_validate(tree: &Tree, owners: &OwnerTable, n: NodeNo) -> bool
    requires stands { StandsFor owners.now tree.now }
    requires node { IsNode tree.now n }
    ensures { (f : Forms) → f.forest ≡ tree.now → Stands owners.now f → result ≡ will_validate f n }
{
    let _count = tree.count();
    !owners.disabled(n)
        && !is_in_datalist(tree, n)
        && !has_barred_kind(tree, n)
        && !is_kept_from_editing(tree, owners, n)
}
