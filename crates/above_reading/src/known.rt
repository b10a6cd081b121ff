// What was read of the ways up.
ghost use Rattle.std.specs.Prelude.{◌≡◌, [], IfSome, IfOk, OnOk};
ghost use Rattle.node_trees.specs.Nodes.{IsNode, IsTidy};
ghost use Rattle.node_trees.specs.Trees.{Trees};
ghost use Rattle.above_reading.specs.Above.{above_at};
ghost use Rattle.above_reading.specs.Ways.{AreRight, IsUpward, first_or};

use crate::above::{Above, above_child, above_root};
use ce_base::{NoMemory, NodeNo};
use node_arena::Tree;
use std::alloc::Global;
use std::collections::BTreeMap;

/// What stands above some nodes, by their numbers.
#[derive(Drop)]
pub(crate) struct Known {
    items: BTreeMap<u64, Above>,
}

impl Known {
    /// Nothing is known.
    pub(crate) fn make(alloc: Global) -> Known
        ensures { (f : Trees) → AreRight f result }
    {
        Known {
            items: BTreeMap::new(alloc),
        }
    }

    /// What stands above a node, where it is known.
    fn get(&self, n: NodeNo) -> Option<Above>
        ensures { (f : Trees) → AreRight f self.now → IfSome result (λ a. a ≡ above_at f n) }
    {
        self.items.get(&n.0).copied()
    }

    /// What stands above a node is known from now on.
    fn put(&mut self, n: NodeNo, above: &Above) -> Result<(), NoMemory>
        ensures { OnOk result ((f : Trees) → AreRight f self.old → above.now ≡ above_at f n → AreRight f self.new) }
    {
        self.items.insert(n.0, *above)?;
        Ok(())
    }

    /// Up from a node to the first of which it is known what stands above it, or to the root: that one, and what stands above
    /// it. The nodes before it are put behind the way.
    fn climb(
        &self,
        tree: &Tree,
        n: NodeNo,
        way: &mut Vec<NodeNo>,
    ) -> Result<(NodeNo, Above), NoMemory>
        requires tidy { IsTidy tree.now }
        requires node { IsNode tree.now n }
        requires known { AreRight tree.now self.now }
        requires start { way.old.items ≡ [] }
        ensures node { IfOk result (λ top. IsNode tree.now top.0) }
        ensures above { IfOk result (λ top. top.1 ≡ above_at tree.now top.0) }
        ensures first { IfOk result (λ top. first_or way.new.items top.0 ≡ n) }
        ensures way { IfOk result (λ top. IsUpward tree.now way.new.items top.0) }
    {
        let mut at = n;
        loop {
            if let Some(above) = self.get(at) {
                return Ok((at, above));
            }
            match tree.parent(at) {
                None => return Ok((at, above_root(tree, at))),
                Some(parent) => {
                    way.push(at)?;
                    at = parent;
                }
            }
        }
    }

    /// Down the way again: what stands above each of its nodes is known then. Says what stands above the last.
    fn come_down(
        &mut self,
        tree: &Tree,
        top: NodeNo,
        above: Above,
        way: &mut Vec<NodeNo>,
    ) -> Result<Above, NoMemory>
        requires tidy { IsTidy tree.now }
        requires node { IsNode tree.now top }
        requires known { AreRight tree.now self.old }
        requires above { above ≡ above_at tree.now top }
        requires way { IsUpward tree.now way.old.items top }
        ensures is { IfOk result (λ a. a ≡ above_at tree.now (first_or way.old.items top)) }
        ensures known { OnOk result (AreRight tree.now self.new) }
    {
        let mut at = top;
        let mut found = above;
        self.put(at, &found)?;
        while let Some(child) = way.pop() {
            let next = above_child(tree, at, &found, child);
            self.put(child, &next)?;
            found = next;
            at = child;
        }
        Ok(found)
    }

    /// What stands above a node. It is known then, and so it is of each node above.
    pub(crate) fn above(&mut self, alloc: Global, tree: &Tree, n: NodeNo) -> Result<Above, NoMemory>
        requires tidy { IsTidy tree.now }
        requires node { IsNode tree.now n }
        requires known { AreRight tree.now self.old }
        ensures is { IfOk result (λ a. a ≡ above_at tree.now n) }
        ensures known { OnOk result (AreRight tree.now self.new) }
    {
        if let Some(above) = self.get(n) {
            return Ok(above);
        }
        let mut way = Vec::new(alloc);
        let (top, above) = self.climb(tree, n, &mut way)?;
        self.come_down(tree, top, above, &mut way)
    }
}
