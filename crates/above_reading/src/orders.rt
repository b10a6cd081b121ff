// Statements about the definitions, each proved as the contract of a function that does nothing.
ghost use Rattle.std.specs.Prelude.{◌≡◌, ℕ, Bool, List, Option, Some, None, [], filter, true, false};
ghost use Rattle.node_trees.specs.Ids.{first_with_id, has_id};
ghost use Rattle.node_trees.specs.Insertion.{may_insert};
ghost use Rattle.node_trees.specs.Nodes.{IsNode, IsNodeOrNone, IsTidy};
ghost use Rattle.node_trees.specs.Orders.{order_of, tree_order_of};
ghost use Rattle.node_trees.specs.Paths.{is_among, root_at};
ghost use Rattle.node_trees.specs.Spots.{facts_at, parent_at};
ghost use Rattle.node_trees.specs.Trees.{Trees, cut, graft, with_attribute, without_attribute};
ghost use Rattle.form_controls.specs.Owners.{Forms, form_owner};

/// A node stands in the order of its tree; and whoever stands in the order of a root's tree has that root.
pub fn the_order_of_a_tree_has_its_nodes()
    ensures has { (f : Trees) (m : ℕ) → IsTidy f → IsNode f m → is_among m (tree_order_of f (root_at f m)) ≡ true }
    ensures no_other { (f : Trees) (r m : ℕ) → IsTidy f → root_at f r ≡ r → is_among m (tree_order_of f r) ≡ true → root_at f m ≡ r }
{}

/// What a test finds in the order of r's tree stays in its order, where another tree is put in or taken out, in which r does
/// not stand and in whose order each fails the test. So does the first element with an ID.
pub fn what_is_found_stays_where_another_tree_moves()
    ensures graft { (f : Trees) (p n : ℕ) (b : Option ℕ) → IsTidy f → IsNode f p → IsNode f n → may_insert f p n b ≡ None →
        parent_at f n ≡ None → (q : ℕ → Bool) (r : ℕ) → is_among r (order_of f n) ≡ false →
        ((i : ℕ) → is_among i (tree_order_of f n) ≡ true → q i ≡ false) →
        filter q (tree_order_of (graft f p n b) r) ≡ filter q (tree_order_of f r) }
    ensures cut { (f : Trees) (n p : ℕ) → IsTidy f → IsNode f n → parent_at f n ≡ Some p →
        (q : ℕ → Bool) (r : ℕ) → is_among r (order_of f n) ≡ false → ((i : ℕ) → is_among i (tree_order_of f n) ≡ true → q i ≡ false) →
        filter q (tree_order_of (cut f n) r) ≡ filter q (tree_order_of f r) }
    ensures named_graft { (f : Trees) (p n : ℕ) (b : Option ℕ) → IsTidy f → IsNode f p → IsNode f n → may_insert f p n b ≡ None →
        parent_at f n ≡ None → (id : List ℕ) (r : ℕ) → is_among r (order_of f n) ≡ false →
        ((i : ℕ) → is_among i (tree_order_of f n) ≡ true → has_id id (facts_at f i) ≡ false) →
        first_with_id (graft f p n b) r id ≡ first_with_id f r id }
    ensures named_cut { (f : Trees) (n p : ℕ) → IsTidy f → IsNode f n → parent_at f n ≡ Some p → (id : List ℕ) (r : ℕ) →
        is_among r (order_of f n) ≡ false → ((i : ℕ) → is_among i (tree_order_of f n) ≡ true → has_id id (facts_at f i) ≡ false) →
        first_with_id (cut f n) r id ≡ first_with_id f r id }
{}

/// What a test finds of those that stay together in one tree stays in its order, where a tree is taken out or put in.
pub fn what_stays_together_stays_in_order()
    ensures graft { (f : Trees) (p n : ℕ) (b : Option ℕ) → IsTidy f → IsNode f p → IsNode f n → IsNodeOrNone f b → may_insert f p n b ≡ None →
        parent_at f n ≡ None → (g : ℕ) → IsNode f g → (q : ℕ → Bool) →
        ((m : ℕ) → q m ≡ true → IsNode f m × ((root_at f m ≡ root_at f g) × (root_at (graft f p n b) m ≡ root_at (graft f p n b) g))) →
        filter q (tree_order_of (graft f p n b) (root_at (graft f p n b) g)) ≡ filter q (tree_order_of f (root_at f g)) }
    ensures cut { (f : Trees) (n p : ℕ) → IsTidy f → IsNode f n → parent_at f n ≡ Some p → (g : ℕ) → IsNode f g → (q : ℕ → Bool) →
        ((m : ℕ) → q m ≡ true → IsNode f m × ((root_at f m ≡ root_at f g) × (root_at (cut f n) m ≡ root_at (cut f n) g))) →
        filter q (tree_order_of (cut f n) (root_at (cut f n) g)) ≡ filter q (tree_order_of f (root_at f g)) }
{}

/// An attribute that is set or gone leaves the order of each tree, and the root of each node's tree.
pub fn an_attribute_leaves_the_orders()
    ensures set_order { (f : Trees) (n : ℕ) (name value : List ℕ) (r : ℕ) → tree_order_of (with_attribute n name value f) r ≡ tree_order_of f r }
    ensures set_root { (f : Trees) (n : ℕ) (name value : List ℕ) (m : ℕ) → root_at (with_attribute n name value f) m ≡ root_at f m }
    ensures gone_order { (f : Trees) (n : ℕ) (name : List ℕ) (r : ℕ) → tree_order_of (without_attribute n name f) r ≡ tree_order_of f r }
    ensures gone_root { (f : Trees) (n : ℕ) (name : List ℕ) (m : ℕ) → root_at (without_attribute n name f) m ≡ root_at f m }
{}

/// A form owner stands in the same tree, so its control is in the order of the owner's tree.
pub fn an_owner_stands_in_the_same_tree()
    ensures together { (f : Forms) (m g : ℕ) → IsTidy f.forest → IsNode f.forest m → form_owner f m ≡ Some g →
        root_at f.forest m ≡ root_at f.forest g }
    ensures in_order { (f : Forms) (m g : ℕ) → IsTidy f.forest → IsNode f.forest m → form_owner f m ≡ Some g →
        is_among m (tree_order_of f.forest (root_at f.forest g)) ≡ true }
{}
