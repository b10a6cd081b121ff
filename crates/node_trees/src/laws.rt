// Statements about the definitions, each proved as the contract of a function that does nothing.
ghost use Rattle.std.specs.Prelude.{◌≡◌, ◌∷◌, [], Some, None, true, false, codes};
ghost use Rattle.ce_base.specs.declared.fault.Fault.TheVariants.{HierarchyRequestError, NotFoundError};
ghost use Rattle.node_trees.specs.Ids.{first_with_id};
ghost use Rattle.node_trees.specs.Insertion.{may_insert};
ghost use Rattle.node_trees.specs.Nodes.{AtTop, misfits, size, surplus};
ghost use Rattle.node_trees.specs.Orders.{order_of, tree_order_of};
ghost use Rattle.node_trees.specs.Paths.{connected, path, root_at};
ghost use Rattle.node_trees.specs.Spots.{children_at, host_at, next_sibling_at, parent_at, shadow_at};
ghost use Rattle.node_trees.specs.Trees.{cut, graft};
ghost use Rattle.node_trees.specs.Worked.{page, page_cut, page_grafted, page_named};

/// The definitions compute: the trees of a page, worked through.
pub fn worked_trees()
    ensures order { order_of page 1 ≡ 1 ∷ 2 ∷ 3 ∷ 5 ∷ 6 ∷ 4 ∷ [] }
    ensures tree_order { tree_order_of page 1 ≡ 1 ∷ 2 ∷ 3 ∷ 4 ∷ [] }
    ensures above { path 6 page ≡ 1 ∷ 2 ∷ 3 ∷ 5 ∷ 6 ∷ [] }
    ensures root { root_at page 6 ≡ 5 }
    ensures parent { parent_at page 5 ≡ None }
    ensures host { host_at page 5 ≡ Some 3 }
    ensures shadow { shadow_at page 3 ≡ Some 5 }
    ensures connected { connected page 6 ≡ true }
    ensures apart { connected page 7 ≡ false }
    ensures cut { cut page 3 ≡ page_cut }
    ensures put_back { graft page_cut 2 3 None ≡ page }
    ensures grafted { graft page 3 7 (Some 4) ≡ page_grafted }
    ensures next { next_sibling_at page_grafted 7 ≡ Some 4 }
    ensures children { children_at page_grafted 3 ≡ 7 ∷ 4 ∷ [] }
    ensures into_itself { may_insert page 6 2 None ≡ Some HierarchyRequestError }
    ensures stranger { may_insert page 3 7 (Some 6) ≡ Some NotFoundError }
    ensures into_text { may_insert page 7 4 None ≡ Some HierarchyRequestError }
    ensures root_as_node { may_insert page 4 5 None ≡ Some HierarchyRequestError }
    ensures text_at_top { may_insert page 1 7 None ≡ Some HierarchyRequestError }
    ensures second { may_insert page 1 4 None ≡ Some HierarchyRequestError }
    ensures may { may_insert page 5 7 (Some 6) ≡ None }
    ensures first_id { first_with_id page_named 1 (codes "a") ≡ Some 4 }
    ensures shadow_id { first_with_id page_named 5 (codes "a") ≡ Some 6 }
    ensures no_id { first_with_id page_named 1 [] ≡ None }
    ensures size { size page ≡ 7 }
    ensures kinds { misfits AtTop page ≡ 0 }
    ensures parts { surplus page ≡ 0 }
{}
