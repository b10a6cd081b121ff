// The form owner and the disabled state of nodes, one after the other.
ghost use Rattle.std.specs.Prelude.{◌≡◌, Some, None, true, codes, IfOk, OnOk};
ghost use Rattle.node_trees.specs.Ids.{first_with_id};
ghost use Rattle.node_trees.specs.Nodes.{IsNode, IsTidy};
ghost use Rattle.node_trees.specs.Spots.{attribute_at, parent_at};
ghost use Rattle.node_trees.specs.Trees.{Trees};
ghost use Rattle.form_controls.specs.Owners.{owner_by, where_form};
ghost use Rattle.owner_reading.specs.Owners.{listed_by};
ghost use Rattle.disabled_reading.specs.Disabled.{disabled_with};
ghost use Rattle.above_reading.specs.Above.{above_at};
ghost use Rattle.above_reading.specs.Ways.{AreRight, reading_of};

use crate::above::{Above, above_child, above_root};
use crate::holder::only_holder;
use crate::known::Known;
use ce_base::{NoMemory, NodeNo};
use disabled_reading::disabled_of;
use element_names::Native;
use form_kinds::{has_disabled, is_a, is_option_disabled};
use node_arena::Tree;
use owner_reading::{is_listed, named_form, owner_of, where_form};
use std::alloc::Global;

/// What is read of a node.
#[derive(Clone, Copy)]
pub struct Reading {
    /// Its form owner.
    pub owner: Option<NodeNo>,
    /// Whether it is disabled.
    pub disabled: bool,
}

/// What is read of some nodes of a tree, while that stays as it is. Of few nodes each is read alone; of many what stands above
/// them is kept.
#[derive(Drop)]
pub struct Readings {
    known: Known,
    few: bool,
}

/// A node that is read alone.
fn read_alone(tree: &Tree, n: NodeNo, associated: bool) -> Reading
    requires tidy { IsTidy tree.now }
    requires node { IsNode tree.now n }
    ensures { result ≡ reading_of tree.now n associated }
{
    Reading {
        owner: owner_of(tree, n, associated),
        disabled: disabled_of(tree, n, associated),
    }
}

/// Whether a listed element is disabled, given what stands above it.
fn disabled_under(tree: &Tree, n: NodeNo, associated: bool, above: &Above) -> bool
    requires node { IsNode tree.now n }
    requires listed { listed_by tree.now n associated ≡ true }
    requires above { above.now ≡ above_at tree.now n }
    ensures { result ≡ disabled_with tree.now n associated }
{
    if is_a(tree, n, Native::OptionItem) {
        return is_option_disabled(tree, n);
    }
    !is_a(tree, n, Native::Fieldset) && (has_disabled(tree, n) || above.inside)
}

impl Readings {
    /// Nothing was read. The nodes to come are few, or many.
    pub fn make(alloc: Global, few: bool) -> Readings
        ensures { (f : Trees) → AreRight f result.known }
    {
        Readings {
            known: Known::make(alloc),
            few,
        }
    }

    /// What stands above a node.
    fn above(&mut self, alloc: Global, tree: &Tree, n: NodeNo) -> Result<Above, NoMemory>
        requires tidy { IsTidy tree.now }
        requires node { IsNode tree.now n }
        requires known { AreRight tree.now self.old.known }
        ensures is { IfOk result (λ a. a ≡ above_at tree.now n) }
        ensures known { OnOk result (AreRight tree.now self.new.known) }
    {
        match tree.parent(n) {
            None => Ok(above_root(tree, n)),
            Some(parent) => {
                let above = self.known.above(alloc, tree, parent)?;
                Ok(above_child(tree, parent, &above, n))
            }
        }
    }

    /// The first element with an ID in the tree of a root, where that is a form. Where one element alone has the ID, its root is
    /// among what is kept.
    fn named(
        &mut self,
        alloc: Global,
        tree: &Tree,
        root: NodeNo,
        id: &str,
    ) -> Result<Option<NodeNo>, NoMemory>
        requires tidy { IsTidy tree.now }
        requires root { IsNode tree.now root }
        requires top { parent_at tree.now root ≡ None }
        requires known { AreRight tree.now self.old.known }
        ensures is { IfOk result (λ o. o ≡ where_form tree.now (first_with_id tree.now root id.now)) }
        ensures known { OnOk result (AreRight tree.now self.new.known) }
    {
        let Some(holder) = only_holder(tree, id) else {
            return Ok(named_form(tree, root, id));
        };
        let above = self.known.above(alloc, tree, holder)?;
        if above.root != root {
            return Ok(None);
        }
        Ok(where_form(tree, Some(holder)))
    }

    /// The form owner of a listed element, given what stands above it.
    fn owner(
        &mut self,
        alloc: Global,
        tree: &Tree,
        n: NodeNo,
        above: &Above,
    ) -> Result<Option<NodeNo>, NoMemory>
        requires tidy { IsTidy tree.now }
        requires node { IsNode tree.now n }
        requires above { above.now ≡ above_at tree.now n }
        requires known { AreRight tree.now self.old.known }
        ensures is { IfOk result (λ o. o ≡ owner_by tree.now n (attribute_at tree.now n (codes "form"))) }
        ensures known { OnOk result (AreRight tree.now self.new.known) }
    {
        match tree.attr(n, "form") {
            None => Ok(above.form),
            Some(id) => {
                if tree.is_connected(n) {
                    self.named(alloc, tree, above.root, id)
                } else {
                    Ok(above.form)
                }
            }
        }
    }

    /// The form owner and the disabled state of a node, given whether it is a form-associated custom element. NoMemory: memory was
    /// refused.
    pub fn read(
        &mut self,
        alloc: Global,
        tree: &Tree,
        n: NodeNo,
        associated: bool,
    ) -> Result<Reading, NoMemory>
        requires tidy { IsTidy tree.now }
        requires node { IsNode tree.now n }
        requires known { AreRight tree.now self.old.known }
        ensures is { IfOk result (λ r. r ≡ reading_of tree.now n associated) }
        ensures known { OnOk result (AreRight tree.now self.new.known) }
    {
        if self.few || !is_listed(tree, n, associated) {
            return Ok(read_alone(tree, n, associated));
        }
        let above = self.above(alloc, tree, n)?;
        let owner = self.owner(alloc, tree, n, &above)?;
        Ok(Reading {
            owner,
            disabled: disabled_under(tree, n, associated, &above),
        })
    }
}
