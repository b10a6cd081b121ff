// Which forms gain controls, or lose some.
ghost use Rattle.std.specs.Prelude.{◌≡◌, [], true, IfOk, OnOk};
ghost use Rattle.node_trees.specs.Trees.{is_number};
ghost use Rattle.form_owner.specs.Candidates.{Considers};
ghost use Rattle.form_owner.specs.Writing.{is_moved, is_moved_among};

use crate::Changes;
use ce_base::{NoMemory, NodeNo};
use node_arena::Tree;
use ordered_tables::NodeSet;
use owner_rows::{Row, owner_in};
use std::alloc::Global;

/// Puts a form into a set, if there is one.
fn involve(tree: &Tree, form: Option<NodeNo>, forms: &mut NodeSet) -> Result<(), NoMemory>
    ensures { OnOk result (Considers tree.now (λ m. true) (is_number form) forms.old forms.new) }
{
    if let Some(form) = form {
        if form.0 >= 1 && form.0 <= tree.count() {
            forms.add(form)?;
        }
    }
    Ok(())
}

/// Puts the forms that a change takes a node from, and gives it to, into a set.
fn involve_both(
    tree: &Tree,
    rows: &[Row],
    node: NodeNo,
    owner: Option<Option<NodeNo>>,
    forms: &mut NodeSet,
) -> Result<(), NoMemory>
    ensures { OnOk result (Considers tree.now (λ m. true) (is_moved rows.now node owner) forms.old forms.new) }
{
    if let Some(owner) = owner {
        involve(tree, owner_in(rows, node), forms)?;
        involve(tree, owner, forms)?;
    }
    Ok(())
}

/// The forms that changes take nodes from, and give them to.
pub(crate) fn involved(
    alloc: Global,
    tree: &Tree,
    rows: &[Row],
    changes: &Changes,
) -> Result<NodeSet, NoMemory>
    ensures { IfOk result (Considers tree.now (λ m. true) (is_moved_among rows.now changes.now) []) }
{
    let mut forms = NodeSet::make(alloc);
    for i in 0..changes.len() {
        let change = changes.get(i).unwrap();
        involve_both(tree, rows, change.node, change.owner, &mut forms)?;
    }
    Ok(forms)
}
