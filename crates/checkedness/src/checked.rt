// Checkedness, by form owners beside the tree.
ghost use Rattle.std.specs.Prelude.{◌≡◌, true};
ghost use Rattle.element_names.specs.declared.input_kinds.InputKind.TheVariants.{Radio};
ghost use Rattle.node_trees.specs.Nodes.{IsNode};
ghost use Rattle.form_controls.specs.Checkedness.{checked_of, is_checked};
ghost use Rattle.form_controls.specs.Kinds.{has_kind};
ghost use Rattle.form_controls.specs.Owners.{Forms};
ghost use Rattle.form_owner.specs.Stands.{Stands, StandsFor};

use ce_base::NodeNo;
use control_state::ControlTable;
use element_names::InputKind;
use form_kinds::has_kind;
use form_owner::OwnerTable;
use node_arena::Tree;

/// The radio button of a group that is checked: of the members the last that is flagged (HTML Standard, section "Radio Button
/// state (type=radio)"). None exactly where none is. It takes no memory.
pub fn checked_of(
    tree: &Tree,
    owners: &OwnerTable,
    controls: &ControlTable,
    radio: NodeNo,
) -> Option<NodeNo>
    requires stands { StandsFor owners.now tree.now }
    requires node { IsNode tree.now radio }
    requires radio { has_kind Radio tree.now radio ≡ true }
    ensures { (f : Forms) → f.forest ≡ tree.now → Stands owners.now f → result ≡ checked_of f controls.now radio }
{
    let _count = tree.count();
    let mut found = None;
    let mut at = None;
    while let Some(member) = owners.next_in_group(tree, radio, at) {
        if controls.is_flagged(tree, member) {
            found = Some(member);
        }
        at = Some(member);
    }
    found
}

/// Whether a checkbox or a radio button is checked (HTML Standard, section "The input element", "checkedness"). The group of
/// a radio button is gone through only where the button is flagged. It takes no memory.
pub fn is_checked(tree: &Tree, owners: &OwnerTable, controls: &ControlTable, n: NodeNo) -> bool
    requires stands { StandsFor owners.now tree.now }
    requires node { IsNode tree.now n }
    ensures { (f : Forms) → f.forest ≡ tree.now → Stands owners.now f → result ≡ is_checked f controls.now n }
{
    if !controls.is_flagged(tree, n) {
        return false;
    }
    !has_kind(tree, n, InputKind::Radio) || checked_of(tree, owners, controls, n) == Some(n)
}
