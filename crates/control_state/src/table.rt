// The table.
ghost use Rattle.std.specs.Prelude.{◌≡◌, [], OnOk, option_copied};
ghost use Rattle.form_controls.specs.Controls.{control_at, copy_state, is_edited, message_at, set_flag, set_message, set_value};

use crate::setting::{fill, write_flag, write_message, write_state, write_value};
use ce_base::{NoMemory, NodeNo, Text, owned};
use form_controls::Control;
use node_arena::Tree;
use std::alloc::Global;
use std::marker::Model;

/// What controls and options keep of what was set. A contract sees a row for each node, that of node 1 first. Past its
/// end nothing was set.
#[derive(Drop)]
pub struct ControlTable {
    pub(crate) rows: Vec<Control>,
}

impl Model for ControlTable {
    ghost use Rattle.std.specs.Prelude.{List};
    ghost use Rattle.form_controls.specs.declared.control.Control.{Control};

    ghost Value = { List Control };

    ghost view = { λ t. t.rows.items };
}

impl ControlTable {
    /// The table where nothing was set.
    pub fn make(alloc: Global) -> ControlTable
        ensures { result ≡ [] }
    {
        ControlTable {
            rows: Vec::new(alloc),
        }
    }

    /// The user set the control's value last.
    pub fn edited(&self, n: NodeNo) -> bool
        ensures { result ≡ is_edited self.now n }
    {
        match self.rows.get(n.place()) {
            None => false,
            Some(row) => row.edited,
        }
    }

    /// The custom validity error message, or the empty text where none was set (HTML Standard, section "The constraint
    /// validation API").
    pub fn message(&self, n: NodeNo) -> &str
        ensures { result.now ≡ message_at self.now n }
    {
        match self.rows.get(n.place()) {
            None => "",
            Some(row) => row.message.as_str(),
        }
    }

    /// The raw value, where one was set.
    pub(crate) fn raw(&self, n: NodeNo) -> Option<&str>
        ensures { option_copied result ≡ (control_at self.now n).value }
    {
        match self.rows.get(n.place()) {
            None => None,
            Some(row) => match &row.value {
                None => None,
                Some(text) => Some(text.as_str()),
            },
        }
    }

    /// The checkedness or the selectedness, where it was set.
    pub(crate) fn flag(&self, n: NodeNo) -> Option<bool>
        ensures { result ≡ (control_at self.now n).flag }
    {
        match self.rows.get(n.place()) {
            None => None,
            Some(row) => row.flag,
        }
    }

    /// Sets the raw value, by the user or by a script (HTML Standard, section "A form control's value").
    /// `NoMemory` comes only where memory was refused, and then the table is only dropped.
    pub fn set_value(
        &mut self,
        alloc: Global,
        _tree: &Tree,
        n: NodeNo,
        v: Text,
        by_user: bool,
    ) -> Result<(), NoMemory>
        ensures { OnOk result (self.new ≡ set_value self.old n v by_user) }
    {
        fill(alloc, &mut self.rows, n.place())?;
        write_value(&mut self.rows, n, v, by_user);
        Ok(())
    }

    /// Sets the checkedness of an input, or the selectedness of an option (HTML Standard, sections "The input element",
    /// "The option element"). `NoMemory` comes only where memory was refused, and then the table is only dropped.
    pub fn set_flag(&mut self, alloc: Global, n: NodeNo, on: bool) -> Result<(), NoMemory>
        ensures { OnOk result (self.new ≡ set_flag self.old n on) }
    {
        fill(alloc, &mut self.rows, n.place())?;
        write_flag(&mut self.rows, n, on);
        Ok(())
    }

    /// Sets the custom validity error message; the empty one takes it away (HTML Standard, section "The constraint validation
    /// API", `setCustomValidity`). `NoMemory` comes only where memory was refused, and then the table is only dropped.
    pub fn set_message(&mut self, alloc: Global, n: NodeNo, m: Text) -> Result<(), NoMemory>
        ensures { OnOk result (self.new ≡ set_message self.old n m) }
    {
        fill(alloc, &mut self.rows, n.place())?;
        write_message(&mut self.rows, n, m);
        Ok(())
    }

    /// Hands the raw value and the checkedness of a control on to another one, with their dirty flags (HTML Standard,
    /// section "The input element", "cloning steps"). `NoMemory` comes only where memory was refused, and then the table
    /// is only dropped.
    pub fn copy_state(&mut self, alloc: Global, from: NodeNo, to: NodeNo) -> Result<(), NoMemory>
        ensures { OnOk result (self.new ≡ copy_state self.old from to) }
    {
        let value = owned(alloc, self.raw(from))?;
        let flag = self.flag(from);
        fill(alloc, &mut self.rows, to.place())?;
        write_state(&mut self.rows, to, value, flag);
        Ok(())
    }
}
