// Deeds on the page.
ghost use Rattle.std.specs.Prelude.{◌≡◌, ◌+◌, ◌<◌, ◌^◌, IfOk};
ghost use Rattle.ce_algorithms.specs.Perform.{page_steps};
ghost use Rattle.ce_page.specs.Ends.{Ends, Keeps, work};
ghost use Rattle.ce_page.specs.Numbers.{GrowsWithin};
ghost use Rattle.page_calls.specs.Given.{IsThere, node_of, nothing_of};
ghost use Rattle.page_calls.specs.Ready.{IsReadyOnPage};

use crate::attributes::{remove_named, set_named};
use crate::shadow::attach_shadow;
use crate::tree::{adopt, detach, remove_child};
use ce_algorithms::{Given, PageDeed};
use ce_base::{Fuel, NodeNo};
use ce_page::{Page, PageStop};
use std::alloc::Global;

/// Does the steps of a deed on the page, and gives what the deed gives. Each variant of `PageDeed` names its section of
/// the Standard.
///
/// Refused: the deed throws this fault, and the page is as it was. A text node, a node that is detached, an attribute
/// that is removed and an upgrade refuse nothing. A shadow root: NotSupportedError, where the element may have none, the
/// look-up gives it a definition that disables shadow, or it has one. An insertion: as `Page::insert_node` says. A child
/// that is removed: NotFoundError, where it is no child of the parent. An attribute that is set: InvalidCharacterError,
/// where the name is no attribute's name. A clone: as `Page::clone_node` says. An adoption: NotSupportedError of a
/// document, HierarchyRequestError of a shadow root.
///
/// FuelSpent: a unit of fuel was wanted, and none was left; what was done before that stays. NoMemory: memory was
/// refused, or the page is not settled; it is only dropped.
pub fn run(
    alloc: Global,
    page: &mut Page,
    fuel: &mut Fuel,
    what: PageDeed,
) -> Result<Given, PageStop>
    requires ready { IsReadyOnPage page.old.forest what }
    requires room { page.old.queues.reactions + fuel.old < 2 ^ 64 }
    ensures step { Ends (λ g. g) result (work page.new fuel.new) (page_steps what (work page.old fuel.old)) }
    ensures within { GrowsWithin page.old page.new fuel.old fuel.new }
    ensures there { IfOk result (IsThere page.new.forest) }
    ensures refused { Keeps result page.old page.new }
{
    match what {
        PageDeed::MakeText { chars, document } => {
            gives_node(page.create_text(alloc, chars, document, fuel))
        }
        PageDeed::Shadow { host } => gives_node(attach_shadow(alloc, page, fuel, host)),
        PageDeed::Insert {
            parent,
            node,
            before,
        } => gives_nothing(page.insert_node(alloc, parent, node, before, fuel)),
        PageDeed::Remove { parent, node } => {
            gives_nothing(remove_child(alloc, page, fuel, parent, node))
        }
        PageDeed::Detach { node } => gives_nothing(detach(alloc, page, fuel, node)),
        PageDeed::SetAttr { node, name, value } => {
            gives_nothing(set_named(alloc, page, fuel, node, name.as_str(), value))
        }
        PageDeed::DelAttr { node, name } => {
            gives_nothing(remove_named(alloc, page, fuel, node, name.as_str()))
        }
        PageDeed::Clone { node, deep } => gives_node(page.clone_node(alloc, deep, node, fuel)),
        PageDeed::Adopt { document, node } => {
            gives_nothing(adopt(alloc, page, fuel, document, node))
        }
        PageDeed::Upgrade { node } => gives_nothing(page.upgrade_all(alloc, node, fuel)),
    }
}

/// What steps that give nothing come to.
pub fn gives_nothing(done: Result<(), PageStop>) -> Result<Given, PageStop>
    ensures { result ≡ nothing_of done }
{
    match done {
        Ok(()) => Ok(Given::Nothing),
        Err(stop) => Err(stop),
    }
}

/// What steps that give a node come to.
pub fn gives_node(made: Result<NodeNo, PageStop>) -> Result<Given, PageStop>
    ensures { result ≡ node_of made }
{
    match made {
        Ok(n) => Ok(Given::Node(n)),
        Err(stop) => Err(stop),
    }
}
