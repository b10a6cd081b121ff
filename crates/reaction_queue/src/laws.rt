// What the form of the waiting reactions says of each cell, as the contract of a function that does nothing.
ghost use Rattle.std.specs.Prelude.{◌≡◌, ◌≢◌, ℕ, List, [], Option, None, Some, slice_index_or};
ghost use Rattle.slab.specs.Slab.{Slab, get};
ghost use Rattle.reaction_queue.specs.Chains.{AreChains, Link, times};
ghost use Rattle.reaction_queue.specs.declared.chain.Cell.{Cell};
ghost use Rattle.reaction_queue.specs.declared.chain.Ends.{Ends};

/// Each cell is in the chain of its node, there once, and in no other chain; and no chain has a key without a cell.
pub(crate) fn each_cell_is_in_one_chain()
    ensures own { (s : Slab Cell) (ends : List (Option Ends)) (links : List (List Link)) (key : ℕ) (c : Cell) → AreChains s ends links
        → get s key ≡ Some c → times key (slice_index_or links c.place []) ≡ 1 }
    ensures others { (s : Slab Cell) (ends : List (Option Ends)) (links : List (List Link)) (key i : ℕ) (c : Cell) → AreChains s ends links
        → get s key ≡ Some c → i ≢ c.place → times key (slice_index_or links i []) ≡ 0 }
    ensures none { (s : Slab Cell) (ends : List (Option Ends)) (links : List (List Link)) (key i : ℕ) → AreChains s ends links
        → get s key ≡ None → times key (slice_index_or links i []) ≡ 0 }
{}
