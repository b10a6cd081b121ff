// A set of nodes.
ghost use Rattle.std.specs.Prelude.{◌≡◌, ◌||◌, ◌==◌, ℕ, [], IfOk, OnOk};
ghost use Rattle.std.specs.List.Sorted.{IsStrictlyIncreasing};
ghost use Rattle.node_trees.specs.Paths.{is_among};

use ce_base::{NoMemory, NodeNo, Nodes};
use std::alloc::Global;
use std::collections::BTreeSet;
use std::marker::Model;

/// A set of nodes. A contract sees their numbers.
#[derive(Drop)]
pub struct NodeSet {
    items: BTreeSet<u64>,
}

impl Model for NodeSet {
    ghost use Rattle.std.specs.Prelude.{ℕ, List};

    ghost Value = { List ℕ };

    ghost view = { λ s. s.items.keys };
}

impl NodeSet {
    /// The set of no node.
    pub fn make(alloc: Global) -> NodeSet
        ensures { result ≡ [] }
    {
        NodeSet {
            items: BTreeSet::new(alloc),
        }
    }

    /// Puts a node in. NoMemory: memory was refused.
    pub fn add(&mut self, n: NodeNo) -> Result<(), NoMemory>
        ensures { OnOk result ((m : ℕ) → is_among m self.new ≡ (is_among m self.old || n == m)) }
    {
        self.items.insert(n.0)?;
        Ok(())
    }

    /// The nodes, in the order of their numbers. NoMemory: memory was refused.
    pub fn list(&self, alloc: Global) -> Result<Nodes, NoMemory>
        ensures list { IfOk result (λ ns. ns ≡ self.now) }
        ensures rising { IfOk result IsStrictlyIncreasing }
    {
        let mut list = Nodes::make(alloc);
        for n in &self.items {
            list.push(alloc, NodeNo(*n))?;
        }
        Ok(list)
    }
}
