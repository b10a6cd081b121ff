// What holds of the definitions: statements, each proved as the contract of a function that does nothing.
ghost use Rattle.std.specs.Prelude.{◌≡◌, ℕ, map};
ghost use Rattle.std.specs.List.{Contains};
ghost use Rattle.std.specs.List.Sorted.{IsStrictlyIncreasing};
ghost use Rattle.node_trees.specs.Nodes.{IsNode};
ghost use Rattle.form_controls.specs.declared.change.Change.{Change};
ghost use Rattle.form_controls.specs.Owners.{Forms};
ghost use Rattle.form_controls.specs.Changes.{form_changes};
ghost use Rattle.form_controls.specs.Differences.{Differs, IsDifference};

/// The changes from one state of the trees to another are the differences of form owners and disabled states,
/// and nothing else: each change is what differs for one node, each node for which something differs has one,
/// and they come in the order of the nodes' numbers.
#[tactic(auto, using(crate::proofs::Differ::changes_increase))]
pub fn changes_are_the_differences()
    ensures told { (old new : Forms) (c : Change) → Contains (form_changes old new) c → IsDifference old new c }
    ensures all { (old new : Forms) (n : ℕ) → IsNode new.forest n → Differs old new n → (c : Change) × Contains (form_changes old new) c × (c.node ≡ n) }
    ensures in_order { (old new : Forms) → IsStrictlyIncreasing (map (λ (c : Change). c.node) (form_changes old new)) }
{}
