// Statements about the definitions, each proved as the contract of a function that does nothing.
ghost use Rattle.std.specs.Prelude.{◌≡◌, ℕ, [], true};
ghost use Rattle.node_trees.specs.Facts.{Facts};
ghost use Rattle.node_trees.specs.Nodes.{IsNode, IsTidy, times};
ghost use Rattle.node_trees.specs.Orders.{tree_order_of};
ghost use Rattle.node_trees.specs.Paths.{is_among, root_at};
ghost use Rattle.node_trees.specs.Trees.{Trees, single, with_node, with_shadow};
ghost use Rattle.tree_laws.specs.Alike.{AreAlike};

/// The root of a node's tree is a node, and so is what stands in tree order.
#[tactic(auto, using(crate::proofs::InOrder::member_is_node, crate::proofs::Rooted::root_is_node))]
pub fn what_is_read_is_a_node()
    ensures root { (f : Trees) (n : ℕ) → IsTidy f → IsNode f n → IsNode f (root_at f n) }
    ensures order { (f : Trees) (root n : ℕ) → IsTidy f → is_among n (tree_order_of f root) ≡ true → IsNode f n }
{}

/// A node without attributes that is made, among the roots or as the root of a shadow tree, changes no other node's local name,
/// kind, attributes, parent, children, path and tree order.
pub fn making_a_node_changes_no_other()
    ensures root { (f : Trees) (n : ℕ) (x : Facts) → times n f ≡ 0 → x.attributes ≡ [] → AreAlike n f (with_node n x f) }
    ensures shadow_root { (f : Trees) (n host : ℕ) (x : Facts) → times n f ≡ 0 → x.attributes ≡ [] → AreAlike n f (with_shadow host (single n x) f) }
{}
