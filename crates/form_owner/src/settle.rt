// Settling.
ghost use Rattle.std.specs.Prelude.{◌≡◌, ◌<◌, ◌≤◌, ◌-◌, All, ℕ, length, IfOk, OnOk};
ghost use Rattle.node_trees.specs.Nodes.{IsNode};
ghost use Rattle.form_controls.specs.Changes.{form_changes};
ghost use Rattle.form_controls.specs.Owners.{Forms};
ghost use Rattle.owner_rows.specs.OwnerRow.{row_in, row_of};
ghost use Rattle.form_owner.specs.Candidates.{Covers};
ghost use Rattle.form_owner.specs.Stands.{Stands, StoodBefore};
ghost use Rattle.form_owner.specs.Told.{AreOfNodes};
ghost use Rattle.form_owner.specs.Touches.{IsTouched, after_touch};
ghost use Rattle.form_owner.specs.Writing.{IsPlaced, Noted, Written};

use crate::looks::note_looks;
use crate::reach::{of_change, of_mark, of_move};
use crate::renewal::renew;
use crate::seeing::see_touched;
use crate::texts::mind_touched;
use crate::{Changes, OwnerTable, Touch};
use ce_base::{NoMemory, NodeNo};
use node_arena::Tree;
use ordered_tables::NodeSet;
use owner_rows::Row;
use std::alloc::Global;

/// Puts blank rows behind, up to a count.
fn fill(alloc: Global, rows: &mut Vec<Row>, count: u64) -> Result<(), NoMemory>
    requires { length rows.old.items ≤ count }
    ensures long { OnOk result (length rows.new.items ≡ count) }
    ensures same { OnOk result ((i : ℕ) → row_in rows.new.items i ≡ row_in rows.old.items i) }
{
    while (rows.len() as u64) < count {
        rows.push(Row::blank(alloc))?;
    }
    Ok(())
}

/// The definition of an element was set or cleared.
fn mark(rows: &mut [Row], n: NodeNo, on: bool)
    requires { n - 1 < length rows.old }
    ensures { Written rows.old rows.new (n - 1) (record (row_of rows.old n) { associated = on }) }
{
    let row = &mut rows[n.place()];
    row.set_associated(on);
}

/// What a touch says of form-associated custom elements.
fn note(rows: &mut [Row], touch: Touch)
    requires { IsPlaced touch (length rows.old) }
    ensures { Noted touch rows.old rows.new }
{
    match touch {
        Touch::Inserted(_) => {}
        Touch::Removed { .. } => {}
        Touch::Attr(_) => {}
        Touch::Associated(n, on) => mark(rows, n, on),
    }
}

impl OwnerTable {
    /// The nodes whose form owner or disabled state a touch may have changed.
    fn candidates(&self, alloc: Global, tree: &Tree, touch: Touch) -> Result<NodeSet, NoMemory>
        requires stood { StoodBefore self.now touch tree.now }
        ensures nodes { IfOk result (All (IsNode tree.now)) }
        ensures covers { (before : Forms) → Stands self.now before → IsTouched touch before.forest tree.now →
            IfOk result (λ set. Covers set before (after_touch touch before tree.now)) }
    {
        let _count = tree.count();
        match touch {
            Touch::Inserted(node) => match tree.parent(node) {
                None => Ok(NodeSet::make(alloc)),
                Some(parent) => of_move(
                    alloc,
                    tree,
                    &self.rows,
                    &self.named,
                    &self.looks,
                    node,
                    parent,
                ),
            },
            Touch::Removed { node, parent } => of_move(
                alloc,
                tree,
                &self.rows,
                &self.named,
                &self.looks,
                node,
                parent,
            ),
            Touch::Attr(node) => of_change(alloc, tree, &self.rows, &self.named, node),
            Touch::Associated(node, _) => of_mark(alloc, tree, node),
        }
    }

    /// Makes the table stand for the tree as it is now, and says what has changed of form owners and disabled states, in
    /// the order of the nodes' numbers. The table stood for the tree before this touch. `NoMemory` comes only where memory
    /// was refused, and then the table is only dropped.
    pub fn settle(&mut self, alloc: Global, tree: &Tree, touch: Touch) -> Result<Changes, NoMemory>
        requires stood { StoodBefore self.old touch tree.now }
        ensures stands { (before : Forms) → Stands self.old before → IsTouched touch before.forest tree.now →
            OnOk result (Stands self.new (after_touch touch before tree.now)) }
        ensures changes { (before : Forms) → Stands self.old before → IsTouched touch before.forest tree.now →
            IfOk result (λ cs. cs ≡ form_changes before (after_touch touch before tree.now)) }
        ensures nodes { IfOk result (AreOfNodes tree.now) }
    {
        let candidates = self.candidates(alloc, tree, touch)?.list(alloc)?;
        fill(alloc, &mut self.rows, tree.count())?;
        note(&mut self.rows, touch);
        let changes = renew(alloc, tree, &mut self.rows, &candidates)?;
        mind_touched(tree, &self.rows, &self.named, &mut self.looks, touch);
        see_touched(alloc, tree, &mut self.rows, &mut self.named, touch)?;
        note_looks(tree, &self.rows, &self.named, &mut self.looks, touch)?;
        Ok(changes)
    }
}
