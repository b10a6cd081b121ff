// Controls that are set off where another one is set on.
ghost use Rattle.std.specs.Prelude.{◌≡◌, ◌==◌, if◌then◌else◌, false, OnOk};
ghost use Rattle.form_controls.specs.Controls.{set_flag};
ghost use Rattle.form_controls.specs.Setting.{set_all_off, without};
ghost use Rattle.ce_algorithms.specs.Page.{with_controls};

use ce_base::{NoMemory, NodeNo, Nodes};
use ce_page::Page;
use std::alloc::Global;

// Sets a control off, unless it is this one.
fn set_off_unless(alloc: Global, page: &mut Page, n: NodeNo, other: NodeNo) -> Result<(), NoMemory>
    ensures page { OnOk result (page.new ≡ with_controls (λ cs. if other == n then cs else set_flag cs other false) page.old) }
    ensures rest { page.new ≡ with_controls (λ cs. page.new.controls) page.old }
{
    if other == n {
        return Ok(());
    }
    page.set_flag(alloc, other, false)
}

/// Sets each of some controls off, but one.
pub(crate) fn set_others_off(
    alloc: Global,
    page: &mut Page,
    n: NodeNo,
    controls: &Nodes,
) -> Result<(), NoMemory>
    ensures page { OnOk result (page.new ≡ with_controls (λ cs. set_all_off cs (without n controls.now)) page.old) }
    ensures rest { page.new ≡ with_controls (λ cs. page.new.controls) page.old }
{
    for i in 0..controls.len() {
        let other = controls.get(i).unwrap();
        set_off_unless(alloc, page, n, other)?;
    }
    Ok(())
}
