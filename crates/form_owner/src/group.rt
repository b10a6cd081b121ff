// Radio button groups.
ghost use Rattle.std.specs.Prelude.{◌≡◌, ◌<◌, Some, true, ◌∷◌, [], find, IfSome};
ghost use Rattle.element_names.specs.declared.input_kinds.InputKind.TheVariants.{Radio};
ghost use Rattle.node_trees.specs.Nodes.{IsNode, IsNodeOrNone, IsTidy};
ghost use Rattle.node_trees.specs.Orders.{tree_order_of};
ghost use Rattle.node_trees.specs.Paths.{is_among};
ghost use Rattle.form_controls.specs.Checkedness.{next_after, next_in_group};
ghost use Rattle.form_controls.specs.Kinds.{has_kind, name_of};
ghost use Rattle.form_controls.specs.Owners.{Forms};
ghost use Rattle.form_controls.specs.Texts.{is_empty};
ghost use Rattle.form_owner.specs.Groups.{all_after, group_in, is_grouped_in, left_behind};
ghost use Rattle.form_owner.specs.Stands.{IsMemberOrNone, Stands, StandsFor};

use crate::OwnerTable;
use ce_base::NodeNo;
use element_names::InputKind;
use form_kinds::{has_kind, name_of};
use node_arena::Tree;
use owner_rows::{Row, owner_in};

/// Whether a node is a radio button with the form owner and the name of another one.
fn is_grouped_with(rows: &[Row], tree: &Tree, radio: NodeNo, n: NodeNo) -> bool
    requires radio { IsNode tree.now radio }
    requires node { IsNode tree.now n }
    ensures { result ≡ is_grouped_in rows.now tree.now radio n }
{
    has_kind(tree, n, InputKind::Radio)
        && owner_in(rows, n) == owner_in(rows, radio)
        && name_of(tree, n) == name_of(tree, radio)
}

/// The first behind a node, in tree order, that is grouped with a radio button.
fn grouped_behind(
    rows: &[Row],
    tree: &Tree,
    radio: NodeNo,
    root: NodeNo,
    behind: NodeNo,
) -> Option<NodeNo>
    requires tidy { IsTidy tree.now }
    requires radio { IsNode tree.now radio }
    requires root { IsNode tree.now root }
    requires behind { is_among behind (tree_order_of tree.now root) ≡ true }
    ensures { result ≡ find (is_grouped_in rows.now tree.now radio) (all_after behind (tree_order_of tree.now root)) }
{
    let mut at = behind;
    while let Some(next) = tree.next_in_tree(at, root) {
        if is_grouped_with(rows, tree, radio, next) {
            return Some(next);
        }
        at = next;
    }
    None
}

/// The first of a tree, in tree order, that is grouped with a radio button.
fn first_grouped(rows: &[Row], tree: &Tree, radio: NodeNo, root: NodeNo) -> Option<NodeNo>
    requires tidy { IsTidy tree.now }
    requires radio { IsNode tree.now radio }
    requires root { IsNode tree.now root }
    ensures { result ≡ find (is_grouped_in rows.now tree.now radio) (tree_order_of tree.now root) }
{
    if is_grouped_with(rows, tree, radio, root) {
        return Some(root);
    }
    grouped_behind(rows, tree, radio, root, root)
}

/// Whether a radio button has no name, so that it is alone in its group.
fn is_nameless(tree: &Tree, radio: NodeNo) -> bool
    requires { IsNode tree.now radio }
    ensures { result ≡ is_empty (name_of tree.now radio) }
{
    name_of(tree, radio).is_empty()
}

/// The member behind this one of the group of a radio button that is alone in it, or the first.
fn next_alone(radio: NodeNo, behind: Option<NodeNo>) -> Option<NodeNo>
    ensures { result ≡ next_after (radio ∷ []) behind }
{
    match behind {
        None => Some(radio),
        Some(_) => None,
    }
}

/// The member behind this one of a radio button's group, or the first.
fn next_member(rows: &[Row], tree: &Tree, radio: NodeNo, behind: Option<NodeNo>) -> Option<NodeNo>
    requires tidy { IsTidy tree.now }
    requires radio { IsNode tree.now radio }
    requires member { IfSome behind (λ n. is_among n (group_in rows.now tree.now radio) ≡ true) }
    ensures { result ≡ next_after (group_in rows.now tree.now radio) behind }
{
    if is_nameless(tree, radio) {
        return next_alone(radio, behind);
    }
    let root = tree.root(radio);
    match behind {
        None => first_grouped(rows, tree, radio, root),
        Some(member) => grouped_behind(rows, tree, radio, root, member),
    }
}

impl OwnerTable {
    /// The member of a radio button's group that comes behind this one in tree order, or the first (HTML Standard, section
    /// "Radio Button state (type=radio)", "radio button group"). None exactly behind the last. A radio button without a name
    /// is alone in its group. No memory is taken.
    pub fn next_in_group(
        &self,
        tree: &Tree,
        radio: NodeNo,
        behind: Option<NodeNo>,
    ) -> Option<NodeNo>
        requires stands { StandsFor self.now tree.now }
        requires node { IsNode tree.now radio }
        requires radio { has_kind Radio tree.now radio ≡ true }
        requires member { IsMemberOrNone self.now tree.now radio behind }
        ensures next { (f : Forms) → f.forest ≡ tree.now → Stands self.now f → result ≡ next_in_group f radio behind }

        // The caller can go on from it, and comes to an end.
        ensures member { IsMemberOrNone self.now tree.now radio result }
        ensures fewer { IfSome result (λ n. left_behind self.now tree.now radio (Some n) < left_behind self.now tree.now radio behind) }

        ensures node { IsNodeOrNone tree.now result }
        ensures radio { IfSome result (λ n. has_kind Radio tree.now n ≡ true) }
    {
        let _count = tree.count();
        next_member(&self.rows, tree, radio, behind)
    }
}
