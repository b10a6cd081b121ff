// Options that are set.
ghost use Rattle.std.specs.Prelude.{◌≡◌, OnOk};
ghost use Rattle.node_trees.specs.Nodes.{IsNode};
ghost use Rattle.form_controls.specs.Setting.{rivals_in_select, set_all_off, set_chosen};
ghost use Rattle.ce_algorithms.specs.Page.{with_controls};

use crate::rivals::set_others_off;
use ce_base::{NoMemory, NodeNo};
use ce_page::Page;
use control_state::{is_multiple, options_of, select_of};
use std::alloc::Global;

/// Sets an option on or off. One that is set on in a select without `multiple` sets the select's other options off.
pub(crate) fn set_chosen(
    alloc: Global,
    page: &mut Page,
    option: NodeNo,
    on: bool,
) -> Result<(), NoMemory>
    requires { IsNode page.old.forest option }
    ensures page { OnOk result (page.new ≡ with_controls (λ cs. set_chosen cs page.old.forest option on) page.old) }
    ensures rest { page.new ≡ with_controls (λ cs. page.new.controls) page.old }
{
    page.set_flag(alloc, option, on)?;
    if on {
        return set_rivals_off(alloc, page, option);
    }
    Ok(())
}

// Sets off whom an option that is chosen sets off.
fn set_rivals_off(alloc: Global, page: &mut Page, option: NodeNo) -> Result<(), NoMemory>
    requires { IsNode page.old.forest option }
    ensures page { OnOk result (page.new ≡ with_controls (λ cs. set_all_off cs (rivals_in_select page.old.forest option)) page.old) }
    ensures rest { page.new ≡ with_controls (λ cs. page.new.controls) page.old }
{
    match select_of(page.tree(), option) {
        None => Ok(()),
        Some(select) => {
            if is_multiple(page.tree(), select) {
                return Ok(());
            }
            let options = options_of(alloc, page.tree(), select)?;
            set_others_off(alloc, page, option, &options)
        }
    }
}
