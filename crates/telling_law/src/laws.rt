// The law of telling: statements, each proved as the contract of a function that does nothing. They hold from any page whose
// forest is tidy, also from one that no session comes to; what is told of an attribute, from any page.
ghost use Rattle.std.specs.Prelude.{◌≡◌, ℕ, List, Option, false};
ghost use Rattle.node_trees.specs.Nodes.{IsNode, IsTidy};
ghost use Rattle.node_trees.specs.Paths.{is_among, path};
ghost use Rattle.ce_algorithms.specs.Steps.{Goes, Spent};
ghost use Rattle.ce_algorithms.specs.Page.{Work};
ghost use Rattle.ce_algorithms.specs.Mutation.{put_in, remove};
ghost use Rattle.ce_algorithms.specs.Attributes.{remove_attribute, set_attribute};
ghost use Rattle.telling_law.specs.Told.{TellsExactly, TellsPart};

/// Where a node is removed, each node of the page is told what of its change is due to it, once; the callbacks of
/// form-associated elements tell it nothing else. Where the fuel is spent, each was told a first part of that.
pub fn a_removal_tells_exactly()
    ensures all { (node : ℕ) (w v : Work) → IsTidy w.page.forest → remove node w ≡ Goes tt v → TellsExactly w.page v.page }
    ensures part { (node : ℕ) (w v : Work) → IsTidy w.page.forest → remove node w ≡ Spent v → TellsPart w.page v.page }
{}

/// So it is where a node is put among the children of a parent that is neither the node nor below it.
pub fn an_insertion_tells_exactly()
    ensures all { (parent node : ℕ) (before : Option ℕ) (w v : Work) → IsTidy w.page.forest → IsNode w.page.forest parent →
        is_among node (path parent w.page.forest) ≡ false → put_in parent node before w ≡ Goes tt v → TellsExactly w.page v.page }
    ensures part { (parent node : ℕ) (before : Option ℕ) (w v : Work) → IsTidy w.page.forest → IsNode w.page.forest parent →
        is_among node (path parent w.page.forest) ≡ false → put_in parent node before w ≡ Spent v → TellsPart w.page v.page }
{}

/// So it is where an attribute is set, or taken away.
pub fn an_attribute_that_changes_tells_exactly()
    ensures set_all { (n : ℕ) (name value : List ℕ) (w v : Work) → set_attribute n name value w ≡ Goes tt v → TellsExactly w.page v.page }
    ensures set_part { (n : ℕ) (name value : List ℕ) (w v : Work) → set_attribute n name value w ≡ Spent v → TellsPart w.page v.page }
    ensures removed_all { (n : ℕ) (name : List ℕ) (w v : Work) → remove_attribute n name w ≡ Goes tt v → TellsExactly w.page v.page }
    ensures removed_part { (n : ℕ) (name : List ℕ) (w v : Work) → remove_attribute n name w ≡ Spent v → TellsPart w.page v.page }
{}
