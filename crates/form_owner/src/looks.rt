// Notes of what a move looks at in each node, so that it passes over most.
ghost use Rattle.std.specs.Prelude.{◌≡◌, ◌≢◌, ◌+◌, ◌-◌, ◌<◌, ◌++◌, ◌∷◌, [], ℕ, length, true, OnOk};
ghost use Rattle.node_trees.specs.Nodes.{IsNode};
ghost use Rattle.ordered_tables.specs.Held.{is_known};
ghost use Rattle.form_owner.specs.declared.looks.Look.TheVariants.{Nothing, Whole};
ghost use Rattle.form_owner.specs.Looks.{AreNotedBy, IsRight, IsRightAt, IsTouching, IsUnnamed, SaysNoMore, look_at};

use crate::Touch;
use crate::candidates::is_concerned;
use crate::seeing::is_known;
use ce_base::{NoMemory, NodeNo};
use node_arena::{NodeKind, Tree};
use ordered_tables::IdIndex;
use owner_rows::Row;
use std::alloc::Global;
use std::marker::Model;

/// What a move looks at in a node.
#[derive(Clone, Copy, Debug, PartialEq, Eq)]
pub(crate) enum Look {
    /// The node, and its ID.
    Whole,
    /// Its ID alone: forms are not about the node.
    Id,
    /// Nothing: forms are not about it, and its ID never was anybody's `form` attribute.
    Nothing,
}

/// Of each node what a move looks at in it. A contract sees a list, that of node 1 first.
#[derive(Drop)]
pub(crate) struct Looks {
    items: Vec<Look>,
    careful: u64,
}

impl Model for Looks {
    ghost use Rattle.std.specs.Prelude.{List};
    ghost use Rattle.form_owner.specs.declared.looks.Look.{Look};

    ghost Value = { List Look };

    ghost view = { λ l. l.items.items };
}

impl Looks {
    /// Nothing is noted.
    pub(crate) fn make(alloc: Global) -> Looks
        ensures { result ≡ [] }
    {
        Looks {
            items: Vec::new(alloc),
            careful: 0,
        }
    }

    /// What is noted of a node. All of it is looked at where nothing is.
    pub(crate) fn at(&self, n: NodeNo) -> Look
        ensures { result ≡ look_at self.now (n - 1) }
    {
        match self.items.get(n.place()) {
            None => Look::Whole,
            Some(look) => *look,
        }
    }

    fn len(&self) -> usize
        ensures { result ≡ length self.now }
    {
        self.items.len()
    }

    fn push(&mut self, look: Look) -> Result<(), NoMemory>
        ensures { OnOk result (self.new ≡ self.old ++ look ∷ []) }
    {
        self.items.push(look)?;
        self.recount(Look::Nothing, look);
        Ok(())
    }

    /// Keeps count of the nodes at which a move looks.
    fn recount(&mut self, old: Look, new: Look)
        ensures { self.new ≡ self.old }
    {
        if old != Look::Nothing {
            self.careful = self.careful.saturating_sub(1);
        }
        if new != Look::Nothing {
            self.careful = self.careful.saturating_add(1);
        }
    }

    /// How many steps along links cost about as much as to go through all notes, and to consider each node at which a move
    /// looks, in the moved tree or not.
    pub(crate) fn steps(&self) -> u64 {
        let notes = self.items.len() as u64 / 16;
        notes.max(self.careful.saturating_mul(16))
    }

    /// Notes this of a node that has a note; of the others the notes stay.
    fn set(&mut self, n: NodeNo, look: Look)
        ensures here { look_at self.new (n - 1) ≢ Whole → look_at self.new (n - 1) ≡ look }
        ensures others { (i : ℕ) → i ≢ n - 1 → look_at self.new i ≡ look_at self.old i }
    {
        let place = n.place();
        if place < self.items.len() {
            let old = self.items[place];
            self.items[place] = look;
            self.recount(old, look);
        }
    }

    /// From now on the ID of a node is looked at.
    pub(crate) fn mind(&mut self, n: NodeNo)
        ensures here { look_at self.new (n - 1) ≢ Nothing }
        ensures less { (i : ℕ) → SaysNoMore (look_at self.old i) (look_at self.new i) }
    {
        if self.at(n) == Look::Nothing {
            self.set(n, Look::Id);
        }
    }
}

/// Whether a node's ID never was anybody's `form` attribute, by what was seen, or it has no `id` attribute. Where the text of
/// that is no ID, since it is empty or no element has it, it is not told.
fn is_unnamed(tree: &Tree, named: &IdIndex, n: NodeNo) -> bool
    requires { IsNode tree.now n }
    ensures { result ≡ true → IsUnnamed tree.now (is_known named.now) n }
{
    match tree.attr(n, "id") {
        None => true,
        Some(id) => !id.is_empty() && tree.kind(n) == NodeKind::Element && !is_known(named, id),
    }
}

/// What a move looks at in a node.
fn look_of(tree: &Tree, rows: &[Row], named: &IdIndex, n: NodeNo) -> Look
    requires { IsNode tree.now n }
    ensures { IsRight tree.now rows.now (is_known named.now) result n }
{
    if is_concerned(tree, rows, n) {
        return Look::Whole;
    }
    if is_unnamed(tree, named, n) {
        return Look::Nothing;
    }
    Look::Id
}

/// Notes the nodes that have no note yet.
fn note_new(tree: &Tree, rows: &[Row], named: &IdIndex, looks: &mut Looks) -> Result<(), NoMemory>
    ensures { OnOk result ((i : ℕ) →
        IsRightAt tree.now rows.now (is_known named.now) looks.old i → IsRightAt tree.now rows.now (is_known named.now) looks.new i) }
{
    let count = tree.count();
    while (looks.len() as u64) < count {
        let n = NodeNo(looks.len() as u64 + 1);
        looks.push(look_of(tree, rows, named, n))?;
    }
    Ok(())
}

/// Notes a node anew.
fn note_again(tree: &Tree, rows: &[Row], named: &IdIndex, looks: &mut Looks, n: NodeNo)
    requires { IsNode tree.now n }
    ensures { (i : ℕ) → (i ≢ n - 1 → IsRightAt tree.now rows.now (is_known named.now) looks.old i) →
        IsRightAt tree.now rows.now (is_known named.now) looks.new i }
{
    looks.set(n, look_of(tree, rows, named, n));
}

/// Notes anew the node of which a touch says something, if it is of one.
fn note_touched(tree: &Tree, rows: &[Row], named: &IdIndex, looks: &mut Looks, touch: Touch)
    requires { IsTouching touch tree.now }
    ensures { AreNotedBy touch tree.now rows.now (is_known named.now) looks.old looks.new }
{
    match touch {
        Touch::Inserted(_) => {}
        Touch::Removed { .. } => {}
        Touch::Attr(node) => note_again(tree, rows, named, looks, node),
        Touch::Associated(node, _) => note_again(tree, rows, named, looks, node),
    }
}

/// Notes what a move looks at after a touch.
pub(crate) fn note_looks(
    tree: &Tree,
    rows: &[Row],
    named: &IdIndex,
    looks: &mut Looks,
    touch: Touch,
) -> Result<(), NoMemory>
    requires { IsTouching touch tree.now }
    ensures { OnOk result (AreNotedBy touch tree.now rows.now (is_known named.now) looks.old looks.new) }
{
    note_touched(tree, rows, named, looks, touch);
    note_new(tree, rows, named, looks)?;
    Ok(())
}
