// Statements about the definitions, each proved as the contract of a function that does nothing.
ghost use Rattle.std.specs.Prelude.{◌≡◌, ℕ, List, Option, Some, None};
ghost use Rattle.node_trees.specs.Insertion.{may_insert};
ghost use Rattle.node_trees.specs.Kinds.{IsElement};
ghost use Rattle.node_trees.specs.Nodes.{IsNode, IsNodeOrNone, IsTidy};
ghost use Rattle.node_trees.specs.Paths.{is_among};
ghost use Rattle.node_trees.specs.Spots.{parent_at};
ghost use Rattle.node_trees.specs.Trees.{cut, graft, with_attribute, without_attribute};
ghost use Rattle.form_controls.specs.Owners.{Forms};
ghost use Rattle.above_reading.specs.Locality.{IsAsideOfAttribute, IsAsideOfMove, IsUnchanged};

/// What changes neither the form owner nor the disabled state of a node: a tree that is put in or taken out beside it, an
/// attribute of another that is set or gone beside it, and other form-associated custom elements.
pub fn what_a_touch_leaves()
    ensures graft { (f : Forms) (p n : ℕ) (b : Option ℕ) → IsTidy f.forest → IsNode f.forest p → IsNode f.forest n → IsNodeOrNone f.forest b →
        may_insert f.forest p n b ≡ None → parent_at f.forest n ≡ None →
        (m : ℕ) → IsNode f.forest m → IsAsideOfMove (graft f.forest p n b) n p m →
        IsUnchanged f (record f { forest = graft f.forest p n b }) m }
    ensures cut { (f : Forms) (n p : ℕ) → IsTidy f.forest → IsNode f.forest n → parent_at f.forest n ≡ Some p →
        (m : ℕ) → IsNode f.forest m → IsAsideOfMove (cut f.forest n) n p m → IsUnchanged f (record f { forest = cut f.forest n }) m }
    ensures set { (f : Forms) (n : ℕ) (name value : List ℕ) → IsTidy f.forest → IsElement f.forest n →
        (m : ℕ) → IsNode f.forest m → IsAsideOfAttribute f.forest (with_attribute n name value f.forest) n m →
        IsUnchanged f (record f { forest = with_attribute n name value f.forest }) m }
    ensures gone { (f : Forms) (n : ℕ) (name : List ℕ) → IsTidy f.forest → IsElement f.forest n →
        (m : ℕ) → IsNode f.forest m → IsAsideOfAttribute f.forest (without_attribute n name f.forest) n m →
        IsUnchanged f (record f { forest = without_attribute n name f.forest }) m }
    ensures marked { (f : Forms) (other : List ℕ) (m : ℕ) → is_among m other ≡ is_among m f.associated →
        IsUnchanged f (record f { associated = other }) m }
{}
