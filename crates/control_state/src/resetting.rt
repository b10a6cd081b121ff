// Resetting.
ghost use Rattle.std.specs.Prelude.{◌≡◌};
ghost use Rattle.node_trees.specs.Nodes.{IsNode};
ghost use Rattle.form_controls.specs.Controls.{clear};
ghost use Rattle.form_controls.specs.Options.{option_children, options_at, options_of};
ghost use Rattle.form_controls.specs.Resetting.{clear_all, reset};

use crate::ControlTable;
use ce_base::NodeNo;
use element_names::Native;
use form_kinds::{is_a, native_at};
use node_arena::Tree;

impl ControlTable {
    /// Nothing was set but the message.
    fn clear(&mut self, n: NodeNo)
        ensures { self.new ≡ clear self.old n }
    {
        let place = n.place();
        if place < self.rows.len() {
            let row = &mut self.rows[place];
            row.value = None;
            row.flag = None;
            row.edited = false;
        }
    }

    /// Clears the options among the children of an optgroup.
    fn clear_children(&mut self, tree: &Tree, group: NodeNo)
        requires { IsNode tree.now group }
        ensures { self.new ≡ clear_all self.old (option_children tree.now group) }
    {
        let _count = tree.count();
        let mut next = tree.first_child(group);
        while let Some(child) = next {
            if is_a(tree, child, Native::OptionItem) {
                self.clear(child);
            }
            next = tree.next_sibling(child);
        }
    }

    /// Clears an option, or the options of an optgroup.
    fn clear_at(&mut self, tree: &Tree, child: NodeNo)
        requires { IsNode tree.now child }
        ensures { self.new ≡ clear_all self.old (options_at tree.now child) }
    {
        if is_a(tree, child, Native::OptionItem) {
            self.clear(child);
        } else if is_a(tree, child, Native::Optgroup) {
            self.clear_children(tree, child);
        }
    }

    /// Clears the options of a select.
    fn clear_options(&mut self, tree: &Tree, select: NodeNo)
        requires { IsNode tree.now select }
        ensures { self.new ≡ clear_all self.old (options_of tree.now select) }
    {
        let _count = tree.count();
        let mut next = tree.first_child(select);
        while let Some(child) = next {
            self.clear_at(tree, child);
            next = tree.next_sibling(child);
        }
    }

    /// An input, a textarea, or the options of a select keep nothing of what was set but the message (HTML Standard,
    /// section "Resetting a form", "reset algorithm").
    pub fn reset(&mut self, tree: &Tree, n: NodeNo)
        requires { IsNode tree.now n }
        ensures { self.new ≡ reset self.old tree.now n }
    {
        match native_at(tree, n) {
            Native::Input => self.clear(n),
            Native::Textarea => self.clear(n),
            Native::Select => self.clear_options(tree, n),
            _ => {}
        }
    }
}
