// Values, checks and choices that are missing.
ghost use Rattle.std.specs.Prelude.{◌≡◌, true};
ghost use Rattle.std.specs.List.{list_any};
ghost use Rattle.element_names.specs.declared.input_kinds.InputKind.TheVariants.{Radio};
ghost use Rattle.node_trees.specs.Nodes.{IsNode, IsNodeOrNone};
ghost use Rattle.form_controls.specs.Checkedness.{group_of};
ghost use Rattle.form_controls.specs.Kinds.{has_kind};
ghost use Rattle.form_controls.specs.Owners.{Forms};
ghost use Rattle.form_controls.specs.Validity.{is_missing, is_placeholder, is_required, lacks_check, lacks_choice};
ghost use Rattle.checkedness.specs.Stands.{Stands, StandsFor};

use ce_base::NodeNo;
use checkedness::form_owner::OwnerTable;
use checkedness::{checked_of, is_checked};
use control_state::{ControlTable, first_option, is_multiple, is_option_empty};
use element_names::{InputKind, Native};
use form_kinds::{has_attribute, has_kind, is_a, is_text_control};
use node_arena::Tree;

fn is_required(tree: &Tree, n: NodeNo) -> bool
    requires { IsNode tree.now n }
    ensures { result ≡ is_required tree.now n }
{
    has_attribute(tree, n, "required")
}

/// Whether some member of a radio button's group is required.
fn has_required_member(tree: &Tree, owners: &OwnerTable, radio: NodeNo) -> bool
    requires stands { StandsFor owners.now tree.now }
    requires node { IsNode tree.now radio }
    requires radio { has_kind Radio tree.now radio ≡ true }
    ensures { (f : Forms) → f.forest ≡ tree.now → Stands owners.now f → result ≡ list_any (is_required tree.now) (group_of f radio) }
{
    let _count = tree.count();
    let mut at = None;
    while let Some(member) = owners.next_in_group(tree, radio, at) {
        if is_required(tree, member) {
            return true;
        }
        at = Some(member);
    }
    false
}

/// Whether a radio button's group has to have a member that is checked, and has none (HTML Standard, section "Radio Button
/// state (type=radio)", "suffering from being missing").
fn lacks_check(tree: &Tree, owners: &OwnerTable, controls: &ControlTable, radio: NodeNo) -> bool
    requires stands { StandsFor owners.now tree.now }
    requires node { IsNode tree.now radio }
    requires radio { has_kind Radio tree.now radio ≡ true }
    ensures { (f : Forms) → f.forest ≡ tree.now → Stands owners.now f → result ≡ lacks_check f controls.now radio }
{
    has_required_member(tree, owners, radio) && checked_of(tree, owners, controls, radio).is_none()
}

/// Whether an option is the placeholder of a select: its first option, its child, and empty (HTML Standard, section "The
/// select element", "placeholder label option").
fn is_placeholder(tree: &Tree, select: NodeNo, option: Option<NodeNo>) -> bool
    requires select { IsNode tree.now select }
    requires option { IsNodeOrNone tree.now option }
    ensures { result ≡ is_placeholder tree.now select option }
{
    match option {
        None => false,
        Some(option) => {
            first_option(tree, select) == Some(option)
                && tree.parent(option) == Some(select)
                && is_option_empty(tree, option)
        }
    }
}

/// Whether no option of a select is chosen or, where one alone can be, the placeholder is (HTML Standard, section "The select
/// element", "suffering from being missing").
fn lacks_choice(tree: &Tree, controls: &ControlTable, select: NodeNo) -> bool
    requires { IsNode tree.now select }
    ensures { result ≡ lacks_choice controls.now tree.now select }
{
    let chosen = controls.first_chosen(tree, select);
    chosen.is_none() || (!is_multiple(tree, select) && is_placeholder(tree, select, chosen))
}

/// Whether a control suffers from being missing (HTML Standard, section "The required attribute").
pub(crate) fn is_missing(
    tree: &Tree,
    owners: &OwnerTable,
    controls: &ControlTable,
    n: NodeNo,
) -> bool
    requires stands { StandsFor owners.now tree.now }
    requires node { IsNode tree.now n }
    ensures { (f : Forms) → f.forest ≡ tree.now → Stands owners.now f → result ≡ is_missing f controls.now n }
{
    if is_text_control(tree, n) {
        is_required(tree, n) && controls.is_empty(tree, n)
    } else if has_kind(tree, n, InputKind::Checkbox) {
        is_required(tree, n) && !is_checked(tree, owners, controls, n)
    } else if has_kind(tree, n, InputKind::Radio) {
        lacks_check(tree, owners, controls, n)
    } else if is_a(tree, n, Native::Select) {
        is_required(tree, n) && lacks_choice(tree, controls, n)
    } else {
        false
    }
}
