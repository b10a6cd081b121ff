// Flags of checkboxes, radio buttons and options.
ghost use Rattle.std.specs.Prelude.{◌≡◌};
ghost use Rattle.node_trees.specs.Nodes.{IsNode};
ghost use Rattle.form_controls.specs.Checkedness.{flagged, is_flagged};
ghost use Rattle.form_controls.specs.Options.{is_selected};

use crate::ControlTable;
use ce_base::NodeNo;
use element_names::Native;
use form_kinds::{has_attribute, is_a};
use node_arena::Tree;

impl ControlTable {
    /// Whether an option is selected, by itself (HTML Standard, section "The option element", "selectedness").
    pub(crate) fn is_selected(&self, tree: &Tree, option: NodeNo) -> bool
        requires { IsNode tree.now option }
        ensures { result ≡ is_selected self.now tree.now option }
    {
        match self.flag(option) {
            None => has_attribute(tree, option, "selected"),
            Some(on) => on,
        }
    }

    /// The flag of a checkbox or a radio button: as it was set, or as its attribute says. A radio button that is flagged is
    /// checked only where no later one of its group is (HTML Standard, section "The input element", "checkedness").
    pub fn is_flagged(&self, tree: &Tree, n: NodeNo) -> bool
        requires { IsNode tree.now n }
        ensures { result ≡ is_flagged self.now tree.now n }
    {
        match self.flag(n) {
            None => has_attribute(tree, n, "checked"),
            Some(on) => on,
        }
    }

    /// The flag of a checkbox, a radio button or an option: as it was set, or as its attribute says (HTML Standard,
    /// section "The input element", "checkedness"; section "The option element", "selectedness").
    pub fn flagged(&self, tree: &Tree, n: NodeNo) -> bool
        requires { IsNode tree.now n }
        ensures { result ≡ flagged self.now tree.now n }
    {
        if is_a(tree, n, Native::OptionItem) {
            self.is_selected(tree, n)
        } else {
            self.is_flagged(tree, n)
        }
    }
}
