// The table.
ghost use Rattle.std.specs.Prelude.{◌≡◌, All, []};
ghost use Rattle.node_trees.specs.declared.kind.NodeKind.TheVariants.{Document};
ghost use Rattle.node_trees.specs.Facts.{blank};
ghost use Rattle.node_trees.specs.Nodes.{IsNode, IsNodeOrNone, IsTidy};
ghost use Rattle.node_trees.specs.Trees.{single};
ghost use Rattle.form_controls.specs.Disabled.{is_disabled};
ghost use Rattle.form_controls.specs.Owners.{Forms, controls_of, form_owner, is_associated, is_submittable};
ghost use Rattle.form_owner.specs.Stands.{Stands};

use crate::looks::Looks;
use ce_base::NodeNo;
use element_names::Native;
use form_kinds::is_a;
use node_arena::Tree;
use ordered_tables::IdIndex;
use owner_reading::is_listed;
use owner_rows::{Row, associated_in, controls_in, disabled_in, owner_in};
use std::alloc::Global;
use std::marker::Model;

/// The form owner and the disabled state of each node, and the controls of each form. A contract sees a row and a note for
/// each node, those of node 1 first.
#[derive(Drop)]
pub struct OwnerTable {
    pub(crate) rows: Vec<Row>,
    pub(crate) named: IdIndex,
    pub(crate) looks: Looks,
}

impl Model for OwnerTable {
    ghost use Rattle.form_owner.specs.OwnerRows.{OwnerRows};

    ghost Value = { OwnerRows };

    ghost use Rattle.ordered_tables.specs.contracts.id_index.IdIndex as index;
    ghost use Rattle.std.specs.Coded.{codes};

    ghost coded = { Prim.hlevel (codes, index.the_row.coded) };

    ghost view = { λ t. record { rows = t.rows.items; named = t.named; looks = t.looks } };
}

impl OwnerTable {
    /// The table of a document alone.
    pub fn make(alloc: Global) -> OwnerTable
        ensures stands { Stands result (record { forest = single 1 (blank Document 1); associated = [] }) }
    {
        OwnerTable {
            rows: Vec::new(alloc),
            named: IdIndex::make(alloc),
            looks: Looks::make(alloc),
        }
    }

    /// The form owner of a node (HTML Standard, section "Association of controls and forms", "form owner"). None exactly
    /// where it has none.
    pub fn owner(&self, n: NodeNo) -> Option<NodeNo>
        ensures owner { (f : Forms) → Stands self.now f → IsNode f.forest n → result ≡ form_owner f n }
        ensures node { (f : Forms) → Stands self.now f → IsTidy f.forest → IsNode f.forest n → IsNodeOrNone f.forest result }
    {
        owner_in(&self.rows, n)
    }

    /// Whether a node is disabled (HTML Standard, section "Enabling and disabling form controls: the disabled attribute").
    pub fn disabled(&self, n: NodeNo) -> bool
        ensures { (f : Forms) → Stands self.now f → IsNode f.forest n → result ≡ is_disabled f n }
    {
        disabled_in(&self.rows, n)
    }

    /// Whether a node is a form-associated custom element (HTML Standard, section "Core concepts").
    pub fn associated(&self, n: NodeNo) -> bool
        ensures { (f : Forms) → Stands self.now f → IsNode f.forest n → result ≡ is_associated f n }
    {
        associated_in(&self.rows, n)
    }

    /// Whether a node is a submittable element (HTML Standard, section "Categories").
    pub fn submittable(&self, tree: &Tree, n: NodeNo) -> bool
        requires { IsNode tree.now n }
        ensures { (f : Forms) → f.forest ≡ tree.now → Stands self.now f → result ≡ is_submittable f n }
    {
        is_listed(tree, n, self.associated(n)) && !is_a(tree, n, Native::Fieldset)
    }

    /// The controls of a form, in tree order: the listed elements whose form owner it is (HTML Standard, section "The form
    /// element"). Another node has none.
    pub fn controls(&self, form: NodeNo) -> &[NodeNo]
        ensures list { (f : Forms) → Stands self.now f → IsNode f.forest form → result.now ≡ controls_of f form }
        ensures nodes { (f : Forms) → Stands self.now f → IsTidy f.forest → IsNode f.forest form → All (IsNode f.forest) result.now }
    {
        controls_in(&self.rows, form)
    }
}
