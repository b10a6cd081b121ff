// Values that are too long or too short.
ghost use Rattle.std.specs.Prelude.{◌≡◌, option_copied};
ghost use Rattle.node_trees.specs.Nodes.{IsNode};
ghost use Rattle.form_controls.specs.Texts.{units_of};
ghost use Rattle.form_controls.specs.Validity.{is_above, is_below, is_edited_text, is_too_long, is_too_short, limit_in};
ghost use Rattle.form_controls.specs.Values.{value};

use ce_base::{NodeNo, number_in};
use control_state::ControlTable;
use form_kinds::is_text_control;
use node_arena::Tree;

// The limit that an attribute names: one to nine ASCII digits name one.
fn limit_in(text: Option<&str>) -> Option<u32>
    ensures { result ≡ limit_in (option_copied text.entry) }
{
    match text {
        None => None,
        Some(digits) => number_in(digits),
    }
}

/// Whether a text control has a value that the user set last.
fn is_edited_text(controls: &ControlTable, tree: &Tree, n: NodeNo) -> bool
    requires { IsNode tree.now n }
    ensures { result ≡ is_edited_text controls.now tree.now n }
{
    is_text_control(tree, n) && controls.edited(n)
}

// Whether a value is longer than a limit, where there is one.
fn is_above(controls: &ControlTable, tree: &Tree, n: NodeNo, limit: Option<u32>) -> bool
    requires { IsNode tree.now n }
    ensures { result ≡ is_above (units_of (value controls.now tree.now n)) limit }
{
    match limit {
        None => false,
        Some(most) => controls.units(tree, n) > u64::from(most),
    }
}

// Whether a value is shorter than a limit, where there is one.
fn is_below(controls: &ControlTable, tree: &Tree, n: NodeNo, limit: Option<u32>) -> bool
    requires { IsNode tree.now n }
    ensures { result ≡ is_below (units_of (value controls.now tree.now n)) limit }
{
    match limit {
        None => false,
        Some(least) => controls.units(tree, n) < u64::from(least),
    }
}

/// Whether a value is longer than `maxlength` says (HTML Standard, section "Limiting user input length: the maxlength
/// attribute", "suffering from being too long").
pub(crate) fn is_too_long(controls: &ControlTable, tree: &Tree, n: NodeNo) -> bool
    requires { IsNode tree.now n }
    ensures { result ≡ is_too_long controls.now tree.now n }
{
    is_edited_text(controls, tree, n)
        && is_above(controls, tree, n, limit_in(tree.attr(n, "maxlength")))
}

/// Whether a value that is not empty is shorter than `minlength` says (HTML Standard, section "Setting minimum input length
/// requirements: the minlength attribute", "suffering from being too short").
pub(crate) fn is_too_short(controls: &ControlTable, tree: &Tree, n: NodeNo) -> bool
    requires { IsNode tree.now n }
    ensures { result ≡ is_too_short controls.now tree.now n }
{
    is_edited_text(controls, tree, n)
        && !controls.is_empty(tree, n)
        && is_below(controls, tree, n, limit_in(tree.attr(n, "minlength")))
}
