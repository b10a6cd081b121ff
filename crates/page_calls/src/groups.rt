// Radio button groups.
ghost use Rattle.std.specs.Prelude.{◌≡◌, false, true, IfErr, IfOk, OnOk};
ghost use Rattle.node_trees.specs.Nodes.{IsNode};
ghost use Rattle.element_names.specs.declared.input_kinds.InputKind.TheVariants.{Radio};
ghost use Rattle.form_controls.specs.Checkedness.{group_of, is_checked};
ghost use Rattle.form_controls.specs.Kinds.{has_kind};
ghost use Rattle.form_controls.specs.Setting.{set_checked};
ghost use Rattle.ce_algorithms.specs.Forms.{forms_of};
ghost use Rattle.ce_algorithms.specs.Page.{with_controls};
ghost use Rattle.ce_page.specs.Settled.{IsSettled};

use crate::rivals::set_others_off;
use ce_base::{NoMemory, NodeNo, Nodes};
use ce_page::Page;
use element_names::InputKind;
use form_kinds::has_kind;
use std::alloc::Global;

/// Sets a checkbox or a radio button on or off. A radio button that is set on sets the others of its group off: NoMemory
/// comes for it too where the page is not settled, which then has no groups.
pub(crate) fn set_checked(
    alloc: Global,
    page: &mut Page,
    n: NodeNo,
    on: bool,
) -> Result<(), NoMemory>
    requires { IsNode page.old.forest n }
    ensures page { OnOk result (page.new ≡ with_controls (λ cs. set_checked (forms_of page.old) cs n on) page.old) }
    ensures rest { page.new ≡ with_controls (λ cs. page.new.controls) page.old }
{
    page.set_flag(alloc, n, on)?;
    if !on || !has_kind(page.tree(), n, InputKind::Radio) {
        return Ok(());
    }
    if !page.is_settled() {
        return Err(NoMemory);
    }
    let group = group_of(alloc, page, n)?;
    set_others_off(alloc, page, n, &group)
}

// The members of a radio button's group, in tree order.
fn group_of(alloc: Global, page: &Page, radio: NodeNo) -> Result<Nodes, NoMemory>
    requires node { IsNode page.now.forest radio }
    requires radio { has_kind Radio page.now.forest radio ≡ true }
    requires settled { IsSettled page.now }
    ensures { IfOk result (λ ns. ns ≡ group_of (forms_of page.now) radio) }
{
    let owners = page.owners();
    let tree = page.tree();
    let _count = tree.count();
    let mut members = Nodes::make(alloc);
    let mut at = None;
    while let Some(member) = owners.next_in_group(tree, radio, at) {
        members.push(alloc, member)?;
        at = Some(member);
    }
    Ok(members)
}

/// Whether a checkbox or a radio button is checked (HTML Standard, section "The input element", "checkedness"). A page that
/// is not settled has no answer.
pub(crate) fn is_checked(page: &Page, n: NodeNo) -> Result<bool, NoMemory>
    requires { IsNode page.now.forest n }
    ensures checked { IfOk result (λ b. b ≡ is_checked (forms_of page.now) page.now.controls n) }
    ensures memory { IfErr result (λ e. page.now.settled ≡ false) }
{
    if !page.is_settled() {
        return Err(NoMemory);
    }
    Ok(validity::checkedness::is_checked(page.tree(), page.owners(), page.controls(), n))
}
