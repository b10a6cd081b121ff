// A list of nodes.
ghost use Rattle.std.specs.Prelude.{◌≡◌, ◌++◌, ◌∷◌, [], if◌then◌else◌, length, IfOk, OnOk, slice_get};

use crate::{NoMemory, NodeNo};
use std::alloc::Global;
use std::marker::Model;

/// A list of nodes.
#[derive(Drop)]
pub struct Nodes {
    items: Vec<NodeNo>,
}

impl Model for Nodes {
    ghost use Rattle.std.specs.Prelude.{ℕ, List};

    ghost Value = { List ℕ };

    ghost view = { λ n. n.items.items };
}

impl Nodes {
    /// No nodes.
    pub fn make(alloc: Global) -> Nodes
        ensures { result ≡ [] }
    {
        Nodes {
            items: Vec::new(alloc),
        }
    }

    /// Puts a node at the end. NoMemory: memory was refused, and the list is only dropped.
    pub fn push(&mut self, alloc: Global, n: NodeNo) -> Result<(), NoMemory>
        ensures { OnOk result (self.new ≡ self.old ++ n ∷ []) }
    {
        self.items.push(n)?;
        Ok(())
    }

    /// Puts a node at the end, where it is one to keep. NoMemory: memory was refused, and the list is only dropped.
    pub fn keep_where(&mut self, alloc: Global, is_kept: bool, n: NodeNo) -> Result<(), NoMemory>
        ensures { OnOk result (self.new ≡ self.old ++ (if is_kept then n ∷ [] else [])) }
    {
        if is_kept {
            return self.push(alloc, n);
        }
        Ok(())
    }

    /// How many nodes there are.
    pub fn len(&self) -> usize
        ensures { result ≡ length self.now }
    {
        self.items.len()
    }

    /// The node at a place, from 0. None exactly where the list ends before it.
    pub fn get(&self, i: usize) -> Option<NodeNo>
        ensures { result ≡ slice_get self.now i }
    {
        self.items.get(i).copied()
    }

    /// A second list with the same nodes. NoMemory: memory was refused.
    pub fn copy(&self, alloc: Global) -> Result<Nodes, NoMemory>
        ensures { IfOk result (λ n. n ≡ self.now) }
    {
        let mut items = Vec::new(alloc);
        for n in &self.items {
            items.push(*n)?;
        }
        Ok(Nodes { items })
    }
}
