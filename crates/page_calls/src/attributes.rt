// What deeds on attributes test first.
ghost use Rattle.std.specs.Prelude.{◌≡◌, ◌+◌, ◌<◌, ◌^◌, IfOk};
ghost use Rattle.std.specs.Str.{str_to_ascii_lowercase};
ghost use Rattle.node_trees.specs.declared.kind.NodeKind.TheVariants.{Element as ElementKind};
ghost use Rattle.node_trees.specs.Nodes.{IsNode};
ghost use Rattle.node_trees.specs.Spots.{kind_at};
ghost use Rattle.ce_algorithms.specs.Attributes.{remove_attribute};
ghost use Rattle.ce_algorithms.specs.Perform.{set_named};
ghost use Rattle.ce_page.specs.Ends.{Does, Keeps, work};
ghost use Rattle.ce_page.specs.Numbers.{StaysWithin};

use ce_base::{Fault, Fuel, NoMemory, NodeNo, Text};
use ce_page::{Page, PageStop};
use element_names::is_attr_name;
use std::alloc::Global;

/// Sets an attribute of an element by a name that is tested and lowercased (DOM Standard, section "Interface Element",
/// `setAttribute`). InvalidCharacterError: the name is no attribute's name.
pub(crate) fn set_named(
    alloc: Global,
    page: &mut Page,
    fuel: &mut Fuel,
    n: NodeNo,
    name: &str,
    value: Text,
) -> Result<(), PageStop>
    requires node { IsNode page.old.forest n }
    requires element { kind_at page.old.forest n ≡ ElementKind }
    requires room { page.old.queues.reactions + fuel.old < 2 ^ 64 }
    ensures step { Does result (work page.new fuel.new) (set_named n name.now value (work page.old fuel.old)) }
    ensures within { StaysWithin page.old page.new fuel.old fuel.new }
    ensures refused { Keeps result page.old page.new }
{
    if !is_attr_name(name) {
        return Err(PageStop::Refused(Fault::InvalidCharacterError));
    }
    let name = lowercased(alloc, name)?;
    page.set_attribute(alloc, n, name, value, fuel)
}

/// Removes an attribute of an element by a name that is lowercased (DOM Standard, section "Interface Element",
/// `removeAttribute`). It refuses nothing.
pub(crate) fn remove_named(
    alloc: Global,
    page: &mut Page,
    fuel: &mut Fuel,
    n: NodeNo,
    name: &str,
) -> Result<(), PageStop>
    requires node { IsNode page.old.forest n }
    requires element { kind_at page.old.forest n ≡ ElementKind }
    requires room { page.old.queues.reactions + fuel.old < 2 ^ 64 }
    ensures step { Does result (work page.new fuel.new) (remove_attribute n (str_to_ascii_lowercase name.now) (work page.old fuel.old)) }
    ensures within { StaysWithin page.old page.new fuel.old fuel.new }
    ensures refused { Keeps result page.old page.new }
{
    let name = lowercased(alloc, name)?;
    page.remove_attribute(alloc, n, name.as_str(), fuel)
}

/// A name in ASCII lowercase (Infra Standard, section "Strings"). NoMemory: memory was refused.
pub fn lowercased(alloc: Global, name: &str) -> Result<Text, NoMemory>
    ensures { IfOk result (λ t. t ≡ str_to_ascii_lowercase name.now) }
{
    let lower = name.to_ascii_lowercase(alloc)?;
    Ok(Text::from(lower))
}
