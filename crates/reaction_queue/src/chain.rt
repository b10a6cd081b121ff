// The reactions that wait at one node, as a chain of cells.
ghost use Rattle.std.specs.Prelude.{◌≡◌, ◌≢◌, ℕ, ◌+◌, List, ◌∷◌, OnOk, IfOk, OnErr, Some};
ghost use Rattle.slab.specs.Slab.{ContainsKey, slab_len};
ghost use Rattle.reaction_queue.specs.Chains.{IsChain, Link, SameFor, ends_behind, with_last};

use crate::Reaction;
use ce_base::{NoMemory, ReactionNo};
use slab::Slab;

/// A waiting reaction: the place of its node, its number, and the key of the cell that comes next in the chain.
#[derive(Drop)]
pub(crate) struct Cell {
    pub(crate) place: usize,
    pub(crate) number: ReactionNo,
    pub(crate) reaction: Reaction,
    pub(crate) next: Option<usize>,
}

/// The keys of the first cell of a chain and of the last.
#[derive(Clone, Copy, Drop)]
pub(crate) struct Ends {
    pub(crate) first: usize,
    pub(crate) last: usize,
}

/// Puts a reaction behind the last cell of a chain, and gives the ends of the longer chain.
pub(crate) fn put_last(
    cells: &mut Slab<Cell>,
    place: usize,
    ends: Option<Ends>,
    number: ReactionNo,
    reaction: Reaction,
) -> Result<Ends, NoMemory>
    ensures chain { IfOk result (λ e. (links : List Link) → IsChain cells.old place ends links
        → IsChain cells.new place (Some e) (with_last links e.last (number, reaction))) }
    ensures others { OnOk result ((links : List Link) (j : ℕ) → IsChain cells.old place ends links → j ≢ place → SameFor j cells.old cells.new) }
    ensures count { OnOk result (slab_len cells.new ≡ slab_len cells.old + 1) }
    ensures err { OnErr result (cells.new ≡ record cells.old { capacity = cells.new.capacity }) }
{
    let key = cells.insert(Cell {
        place,
        number,
        reaction,
        next: None,
    })?;
    match ends {
        None => Ok(Ends {
            first: key,
            last: key,
        }),
        Some(e) => {
            if let Some(last) = cells.get_mut(e.last) {
                last.next = Some(key);
            }
            Ok(Ends {
                first: e.first,
                last: key,
            })
        }
    }
}

/// Takes the first cell of a chain: its reaction, and the ends of the chain that is left.
pub(crate) fn take_first(
    cells: &mut Slab<Cell>,
    ends: Ends,
) -> ((ReactionNo, Reaction), Option<Ends>)
    requires { ContainsKey cells.old ends.first }
    ensures first { (i : ℕ) (l : Link) (ls : List Link) → IsChain cells.old i (Some ends) (l ∷ ls) → result.0 ≡ l.waits }
    ensures rest { (i : ℕ) (l : Link) (ls : List Link) → IsChain cells.old i (Some ends) (l ∷ ls) → IsChain cells.new i result.1 ls }
    ensures others { (i j : ℕ) (l : Link) (ls : List Link) → IsChain cells.old i (Some ends) (l ∷ ls) → j ≢ i → SameFor j cells.old cells.new }
    ensures count { slab_len cells.new + 1 ≡ slab_len cells.old }
{
    let cell = cells.remove(ends.first);
    let rest = rest_of(cell.next, ends.last);
    ((cell.number, cell.reaction), rest)
}

// The ends of a chain without its first cell, which has the key of the next.
fn rest_of(next: Option<usize>, last: usize) -> Option<Ends>
    ensures { result ≡ ends_behind next last }
{
    match next {
        None => None,
        Some(first) => Some(Ends { first, last }),
    }
}
