// Notes of whether nodes are connected, so that no question climbs to a root.
ghost use Rattle.std.specs.Prelude.{◌≡◌, ◌≢◌, ◌+◌, ◌<◌, ℕ, Bool, Some, true, false, ◌||◌};
ghost use Rattle.node_trees.specs.Nodes.{IsNode};
ghost use Rattle.node_trees.specs.Paths.{connected};
ghost use Rattle.node_arena.specs.Marks.{mark_at, Allows, AreNoted, SaysLess};

use crate::Tree;
use crate::siblings::index_of;
use ce_base::{NoMemory, NodeNo};

/// What is noted of a node.
#[derive(Clone, Copy, Debug, PartialEq, Eq)]
pub(crate) enum Mark {
    /// Nothing.
    Unknown,
    /// It is connected.
    Connected,
    /// It is not connected.
    Apart,
}

impl Mark {
    /// The note of a node that is connected, or is not.
    pub(crate) fn of(is: bool) -> Mark
        ensures { Allows (Some result) is }
    {
        if is { Mark::Connected } else { Mark::Apart }
    }
}

/// The note of a node.
fn mark_of(marks: &[Mark], n: NodeNo) -> Mark
    requires { 0 < n }
    ensures { (is : Bool) → Allows (mark_at marks.now n) is → Allows (Some result) is }
{
    match marks.get(index_of(n)) {
        Some(mark) => *mark,
        None => Mark::Unknown,
    }
}

/// Notes this of a node.
fn set_mark(marks: &mut Vec<Mark>, n: NodeNo, mark: Mark)
    requires { 0 < n }
    ensures here { (is : Bool) → Allows (Some mark) is → Allows (mark_at marks.new.items n) is }
    ensures others { (m : ℕ) → 0 < m → m ≢ n → SaysLess marks.old.items marks.new.items m }
{
    let at = index_of(n);
    if at < marks.len() {
        marks[at] = mark;
    }
}

/// Makes room for the note of the node behind so many. Nothing is noted of it.
pub(crate) fn make_room(marks: &mut Vec<Mark>, count: usize) -> Result<(), NoMemory>
    ensures blank { (is : Bool) → Allows (mark_at marks.new.items (count + 1)) is }
    ensures others { (m : ℕ) → 0 < m → SaysLess marks.old.items marks.new.items m }
{
    marks.truncate(count);
    marks.push(Mark::Unknown)?;
    Ok(())
}

impl Tree {
    /// What is noted of a node.
    pub(crate) fn mark(&self, n: NodeNo) -> Mark
        requires { IsNode self.now n }
        ensures { Allows (Some result) (connected self.now n) }
    {
        mark_of(&self.marks, n)
    }

    /// Notes whether this node is connected.
    pub(crate) fn note(&mut self, n: NodeNo)
        requires { IsNode self.old n }
        ensures { self.new ≡ self.old }
    {
        let mark = Mark::of(self.is_connected(n));
        set_mark(&mut self.marks, n, mark);
    }

    /// Notes of a node and of all below it whether they are connected, where they were or are.
    pub(crate) fn noted(&self, mut marks: Vec<Mark>, n: NodeNo, was: bool, is: bool) -> Vec<Mark>
        requires { IsNode self.now n }
        ensures same { (was || is) ≡ false → result.items ≡ marks.items }
        ensures noted { (was || is) ≡ true → AreNoted self.now n is marks.items result.items }
    {
        if !was && !is {
            return marks;
        }
        let _count = self.count();
        let mark = Mark::of(is);
        let mut at = n;
        loop {
            set_mark(&mut marks, at, mark);
            match self.next_in_shadow_order(at, n) {
                Some(next) => at = next,
                None => return marks,
            }
        }
    }
}
