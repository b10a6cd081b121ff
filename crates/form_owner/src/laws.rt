// What holds of `Stands`, and of groups: statements, each proved as the contract of a function that does nothing.
ghost use Rattle.std.specs.Prelude.{◌≡◌, ◌+◌, ◌++◌, ◌∷◌, ℕ, [], List, None, Option, Some};
ghost use Rattle.node_trees.specs.Facts.{Facts};
ghost use Rattle.node_trees.specs.Nodes.{IsTidy, size};
ghost use Rattle.node_trees.specs.Paths.{is_among};
ghost use Rattle.node_trees.specs.Spots.{first_of};
ghost use Rattle.node_trees.specs.Trees.{single, with_document, with_node, with_shadow};
ghost use Rattle.form_controls.specs.Checkedness.{group_of, next_in_group};
ghost use Rattle.form_controls.specs.Owners.{Forms};
ghost use Rattle.form_owner.specs.Groups.{members_behind};
ghost use Rattle.form_owner.specs.OwnerRows.{OwnerRows};
ghost use Rattle.form_owner.specs.Stands.{Stands};

/// How the form-associated custom elements are listed does not matter, only which they are.
#[tactic(auto, using(crate::proofs::Staying::stands_renamed))]
pub fn only_members_count()
    ensures { (table : OwnerRows) (f : Forms) (other : List ℕ) → ((n : ℕ) → is_among n other ≡ is_among n f.associated) →
        Stands table f → Stands table (record f { associated = other }) }
{}

/// Where a node without attributes is made, among the roots or as the root of a shadow tree, no form owner, no disabled state
/// and no list of controls changes, and the new node has none. So nothing is to be settled there.
pub fn making_a_node_changes_nothing()
    ensures root { (table : OwnerRows) (f : Forms) (x : Facts) → IsTidy f.forest → x.attributes ≡ [] → Stands table f →
        Stands table (record f { forest = with_node (size f.forest + 1) x f.forest }) }
    ensures shadow_root { (table : OwnerRows) (f : Forms) (host : ℕ) (x : Facts) → IsTidy f.forest → x.attributes ≡ [] → Stands table f →
        Stands table (record f { forest = with_shadow host (single (size f.forest + 1) x) f.forest }) }
{}

/// Where the node document of a node is set, nothing changes either.
pub fn a_node_document_changes_nothing()
    ensures { (table : OwnerRows) (f : Forms) (n document : ℕ) → IsTidy f.forest → Stands table f →
        Stands table (record f { forest = with_document n document f.forest }) }
{}

/// Going from member to member of a radio button's group by what comes next gives each member once, in the order of the
/// group: at first all are left, each step takes off the next, and where none comes next none is left.
pub fn a_group_is_gone_through()
    ensures first { (f : Forms) (radio : ℕ) → members_behind f radio None ≡ group_of f radio }
    ensures next { (f : Forms) (radio m : ℕ) (behind : Option ℕ) → IsTidy f.forest → Some m ≡ next_in_group f radio behind →
        members_behind f radio behind ≡ m ∷ members_behind f radio (Some m) }
    ensures last { (f : Forms) (radio : ℕ) (behind : Option ℕ) → None ≡ next_in_group f radio behind → members_behind f radio behind ≡ [] }
    ensures split { (f : Forms) (radio m : ℕ) (front back : List ℕ) → IsTidy f.forest → group_of f radio ≡ front ++ (m ∷ back) →
        next_in_group f radio (Some m) ≡ first_of back }
{}
