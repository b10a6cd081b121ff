// What is kept of a node.
ghost use Rattle.std.specs.Prelude.{◌≡◌, filter, unwrap_or, OnOk};
ghost use Rattle.tree_laws.specs.Numbers.{insert_number};
ghost use Rattle.tree_laws.proofs.Counts.{AreApart};
ghost use Rattle.owner_rows.specs.OwnerRow.{blank_row, is_other};

use crate::control_list::{put_in, take_out};
use crate::seen::Seen;
use ce_base::{NoMemory, NodeNo};
use std::alloc::Global;
use std::marker::Model;

/// What is kept of a node: its form owner, whether it is disabled and whether it is a form-associated custom element; the
/// controls of a form, in tree order; and what was last seen of its attributes.
#[derive(Drop)]
pub struct Row {
    owner: Option<NodeNo>,
    disabled: bool,
    associated: bool,
    controls: Vec<NodeNo>,
    seen: Seen,
}

impl Model for Row {
    ghost use Rattle.owner_rows.specs.OwnerRow.{OwnerRow};

    ghost Value = { OwnerRow };

    ghost view = { λ r. record { owner = r.owner; disabled = r.disabled; associated = r.associated; controls = r.controls.items; seen = r.seen } };
}

impl Row {
    /// The row of a node that forms are not about.
    pub fn blank(alloc: Global) -> Row
        ensures { result ≡ blank_row }
    {
        Row {
            owner: None,
            disabled: false,
            associated: false,
            controls: Vec::new(alloc),
            seen: Seen::blank(),
        }
    }

    pub(crate) fn owner(&self) -> Option<NodeNo>
        ensures { result ≡ self.now.owner }
    {
        self.owner
    }

    pub(crate) fn disabled(&self) -> bool
        ensures { result ≡ self.now.disabled }
    {
        self.disabled
    }

    pub(crate) fn associated(&self) -> bool
        ensures { result ≡ self.now.associated }
    {
        self.associated
    }

    pub(crate) fn controls(&self) -> &[NodeNo]
        ensures { result.now ≡ self.now.controls }
    {
        &self.controls
    }

    pub(crate) fn seen(&self) -> &Seen
        ensures { result.now ≡ self.now.seen }
    {
        &self.seen
    }

    /// Sets whether it is a form-associated custom element; the rest stays.
    pub fn set_associated(&mut self, on: bool)
        ensures { self.new ≡ record self.old { associated = on } }
    {
        self.associated = on;
    }

    /// Sets the list of controls; the rest stays.
    pub fn set_controls(&mut self, controls: Vec<NodeNo>)
        ensures { self.new ≡ record self.old { controls = controls.items } }
    {
        self.controls = controls;
    }

    /// Takes a node out of the list of controls. The others stay in their order.
    pub fn take_out(&mut self, n: NodeNo)
        ensures { self.new ≡ record self.old { controls = filter (is_other n) self.old.controls } }
    {
        take_out(&mut self.controls, n);
    }

    /// Puts a node into the list of controls: before another, or at the end where there is none or it is not in the list.
    /// NoMemory: memory was refused.
    pub fn put_in(&mut self, n: NodeNo, before: Option<NodeNo>) -> Result<(), NoMemory>
        requires apart { AreApart self.old.controls }
        ensures { OnOk result (self.new ≡ record self.old { controls = insert_number before n self.old.controls }) }
    {
        put_in(&mut self.controls, n, before)
    }

    /// Sets what was seen of the attributes; the rest stays.
    pub fn set_seen(&mut self, seen: Seen)
        ensures { self.new ≡ record self.old { seen = seen } }
    {
        self.seen = seen;
    }

    /// Takes over what is told of the form owner and of the disabled state; the rest stays.
    pub fn take_over(&mut self, owner: Option<Option<NodeNo>>, disabled: Option<bool>)
        ensures { self.new ≡ record self.old { owner = unwrap_or owner self.old.owner; disabled = unwrap_or disabled self.old.disabled } }
    {
        if let Some(owner) = owner {
            self.owner = owner;
        }
        if let Some(disabled) = disabled {
            self.disabled = disabled;
        }
    }
}
