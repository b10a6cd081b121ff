// What controls keep.
ghost use Rattle.std.specs.Prelude.{◌≡◌, OnOk};
ghost use Rattle.node_trees.specs.Nodes.{IsNode};
ghost use Rattle.form_controls.specs.Controls.{copy_state, set_flag, set_message, set_value};
ghost use Rattle.form_controls.specs.Resetting.{clone_state, reset};
ghost use Rattle.ce_algorithms.specs.Page.{with_controls};

use crate::Page;
use ce_base::{NoMemory, NodeNo, Text};
use control_state::ControlTable;
use element_names::Native;
use form_kinds::is_a;
use std::alloc::Global;

impl Page {
    /// What the controls of the page keep of what was set (HTML Standard, section "A form control's value").
    pub fn controls(&self) -> &ControlTable
        ensures { result.now ≡ self.now.controls }
    {
        &self.controls
    }

    /// Sets the raw value of a control, by the user or by a script (HTML Standard, section "A form control's value"). Nothing
    /// else of the page changes. NoMemory: memory was refused, and the page is only dropped.
    pub fn set_value(
        &mut self,
        alloc: Global,
        n: NodeNo,
        v: Text,
        by_user: bool,
    ) -> Result<(), NoMemory>
        ensures page { OnOk result (self.new ≡ with_controls (λ cs. set_value cs n v by_user) self.old) }
        ensures rest { self.new ≡ with_controls (λ cs. self.new.controls) self.old }
    {
        self.controls.set_value(alloc, &self.tree, n, v, by_user)
    }

    /// Sets the checkedness of an input, or the selectedness of an option (HTML Standard, sections "The input element",
    /// "The option element"). Nothing else of the page changes. NoMemory: memory was refused, and the page is only dropped.
    pub fn set_flag(&mut self, alloc: Global, n: NodeNo, on: bool) -> Result<(), NoMemory>
        ensures page { OnOk result (self.new ≡ with_controls (λ cs. set_flag cs n on) self.old) }
        ensures rest { self.new ≡ with_controls (λ cs. self.new.controls) self.old }
    {
        self.controls.set_flag(alloc, n, on)
    }

    /// Sets the custom validity error message of a control (HTML Standard, section "The constraint validation API",
    /// `setCustomValidity`). Nothing else of the page changes. NoMemory: memory was refused, and the page is only dropped.
    pub fn set_message(&mut self, alloc: Global, n: NodeNo, m: Text) -> Result<(), NoMemory>
        ensures page { OnOk result (self.new ≡ with_controls (λ cs. set_message cs n m) self.old) }
        ensures rest { self.new ≡ with_controls (λ cs. self.new.controls) self.old }
    {
        self.controls.set_message(alloc, n, m)
    }

    /// Resets a control: what was set on it is cleared (HTML Standard, section "Resetting a form", "reset algorithm"). Nothing
    /// else of the page changes. It takes no memory.
    pub fn reset(&mut self, n: NodeNo)
        requires { IsNode self.old.forest n }
        ensures { self.new ≡ with_controls (λ cs. reset cs self.old.forest n) self.old }
    {
        self.controls.reset(&self.tree, n);
    }

    /// Hands what a control keeps of its value and its checkedness on to another one. Nothing else of the page changes.
    /// NoMemory: memory was refused, and the page is only dropped.
    pub fn copy_state(&mut self, alloc: Global, from: NodeNo, to: NodeNo) -> Result<(), NoMemory>
        ensures page { OnOk result (self.new ≡ with_controls (λ cs. copy_state cs from to) self.old) }
        ensures rest { self.new ≡ with_controls (λ cs. self.new.controls) self.old }
    {
        self.controls.copy_state(alloc, from, to)
    }

    /// The cloning steps of an input or a textarea (HTML Standard, sections "The input element", "The textarea element",
    /// "cloning steps"). Other controls have none.
    pub(crate) fn copy_control(
        &mut self,
        alloc: Global,
        from: NodeNo,
        to: NodeNo,
    ) -> Result<(), NoMemory>
        requires { IsNode self.old.forest from }
        ensures page { OnOk result (self.new ≡ with_controls (λ cs. clone_state cs self.old.forest from to) self.old) }
        ensures rest { self.new ≡ with_controls (λ cs. self.new.controls) self.old }
    {
        if is_a(&self.tree, from, Native::Input) || is_a(&self.tree, from, Native::Textarea) {
            return self.copy_state(alloc, from, to);
        }
        Ok(())
    }
}
