// The reaction queues of all nodes.
ghost use Rattle.std.specs.Prelude.{◌≡◌, ◌-◌, ◌<◌, ◌++◌, ◌∷◌, [], ℕ, None, vec_len, IfNone, MatchOption, OnOk, OnErr};
ghost use Rattle.reaction_queue.specs.Queues.{list_at, with_list};
ghost use Rattle.reaction_queue.specs.Chains.{padded};

use crate::Reaction;
use crate::chain::{Cell, Ends, put_last, take_first};
use ce_base::{NoMemory, NodeNo, ReactionNo};
use slab::Slab;
use std::alloc::Global;
use std::marker::Model;

/// The reaction queues of all nodes, as chains of cells of one slab; the ends of the chain of node 1 stand first. A
/// contract sees them as far as reactions wait.
#[derive(Drop)]
pub(crate) struct Waiting {
    cells: Slab<Cell>,
    ends: Vec<Option<Ends>>,
}

impl Model for Waiting {
    ghost use Rattle.std.specs.Prelude.{ℕ, List, map};
    ghost use Rattle.reaction_queue.specs.declared.reaction.Reaction.{Reaction};
    ghost use Rattle.reaction_queue.specs.Trimmed.{trimmed};
    ghost use Rattle.reaction_queue.specs.Chains.{AreChains, links_of, waiting_in};

    ghost Value = { List (List (ℕ × Reaction)) };

    ghost view = { λ w. trimmed (map waiting_in (links_of w.cells w.ends.items)) };

    ghost invariant = { λ w. AreChains w.cells w.ends.items (links_of w.cells w.ends.items) };
}

impl Waiting {
    /// Nothing waits.
    pub(crate) fn make(alloc: Global) -> Waiting
        ensures { result ≡ [] }
    {
        Waiting {
            cells: Slab::new(alloc),
            ends: Vec::new(alloc),
        }
    }

    /// Appends a reaction to a node's reaction queue.
    pub(crate) fn append(
        &mut self,
        node: NodeNo,
        number: ReactionNo,
        r: Reaction,
    ) -> Result<(), NoMemory>
        ensures ok { OnOk result (self.new ≡ with_list (node - 1) (list_at (node - 1) self.old ++ (number, r) ∷ []) self.old) }
        ensures err { OnErr result (self.new ≡ self.old) }
    {
        let i = node.place();
        if let Err(refused) = grow(&mut self.ends, i) {
            drop(r);
            return Err(refused);
        }
        let ends = put_last(&mut self.cells, i, self.ends[i], number, r)?;
        self.ends[i] = Some(ends);
        Ok(())
    }

    /// Takes the first reaction of a node's reaction queue. None exactly where none waits there.
    pub(crate) fn take(&mut self, node: NodeNo) -> Option<(ReactionNo, Reaction)>
        ensures first { MatchOption result (list_at (node - 1) self.old ≡ []) (λ w. list_at (node - 1) self.old ≡ w ∷ list_at (node - 1) self.new) }
        ensures others { MatchOption result (self.new ≡ self.old) (λ w. self.new ≡ with_list (node - 1) (list_at (node - 1) self.new) self.old) }
        ensures empty { IfNone result (with_list (node - 1) [] self.old ≡ self.old) }
    {
        let i = node.place();
        if i >= self.ends.len() {
            return None;
        }
        let Some(ends) = self.ends[i] else {
            return None;
        };
        let (first, rest) = take_first(&mut self.cells, ends);
        self.ends[i] = rest;
        Some(first)
    }
}

// Adds ends of empty chains until there are some in the place.
fn grow(ends: &mut Vec<Option<Ends>>, place: usize) -> Result<(), NoMemory>
    ensures within { OnOk result (place < vec_len ends.new) }
    ensures empty { (n : ℕ) × (ends.new.items ≡ padded None ends.old.items n) }
{
    while ends.len() <= place {
        ends.push(None)?;
    }
    Ok(())
}
