// What attaching a shadow root tests first.
ghost use Rattle.std.specs.Prelude.{◌≡◌, None, IfOk};
ghost use Rattle.node_trees.specs.declared.kind.NodeKind.TheVariants.{Element as ElementKind};
ghost use Rattle.node_trees.specs.Nodes.{IsNode};
ghost use Rattle.node_trees.specs.Spots.{kind_at, shadow_at};
ghost use Rattle.ce_algorithms.specs.Making.{make_shadow_root};
ghost use Rattle.ce_algorithms.specs.Perform.{attach_shadow, disables_shadow, is_shadow_disabled};
ghost use Rattle.ce_page.specs.Ends.{Ends, Keeps, work};
ghost use Rattle.ce_page.specs.Numbers.{GrowsWithin};

use ce_base::{DefNo, Fault, Fuel, NodeNo};
use ce_page::{Page, PageStop};
use element_names::{is_custom_name, is_shadow_host};
use std::alloc::Global;

/// Attaches a shadow root to an element (DOM Standard, section "Interface Element", "attach a shadow root").
/// NotSupportedError: the local name is none of an element that may have a shadow tree, or the look-up gives a definition
/// that disables shadow, or there is a shadow root already.
pub(crate) fn attach_shadow(
    alloc: Global,
    page: &mut Page,
    fuel: &mut Fuel,
    n: NodeNo,
) -> Result<NodeNo, PageStop>
    requires node { IsNode page.old.forest n }
    requires element { kind_at page.old.forest n ≡ ElementKind }
    ensures step { Ends (λ n. n) result (work page.new fuel.new) (attach_shadow n (work page.old fuel.old)) }
    ensures within { GrowsWithin page.old page.new fuel.old fuel.new }
    ensures refused { Keeps result page.old page.new }
    ensures made { IfOk result (IsNode page.new.forest) }
{
    if !is_shadow_host(page.tree().local(n)) {
        return Err(PageStop::Refused(Fault::NotSupportedError));
    }
    if is_shadow_disabled(page, n) {
        return Err(PageStop::Refused(Fault::NotSupportedError));
    }
    if page.tree().shadow(n).is_some() {
        return Err(PageStop::Refused(Fault::NotSupportedError));
    }
    make_shadow_root(alloc, page, fuel, n)
}

// The look-up for a custom element's name or an `is` value gives a definition that disables shadow.
fn is_shadow_disabled(page: &Page, n: NodeNo) -> bool
    requires { IsNode page.now.forest n }
    ensures { result ≡ is_shadow_disabled page.now n }
{
    if is_custom_name(page.tree().local(n)) || page.tree().is_value(n).is_some() {
        return disables_shadow(page, page.lookup_for(n));
    }
    false
}

/// Whether a definition disables shadow (HTML Standard, section "Core concepts", "disable shadow"). None does not, and
/// neither does a number that was not given.
pub fn disables_shadow(page: &Page, d: Option<DefNo>) -> bool
    ensures { result ≡ disables_shadow page.now d }
{
    match d {
        None => false,
        Some(d) => match page.registry().at(d) {
            None => false,
            Some(x) => x.facts.no_shadow,
        },
    }
}

// Spends one unit of fuel, and makes the shadow root.
fn make_shadow_root(
    alloc: Global,
    page: &mut Page,
    fuel: &mut Fuel,
    host: NodeNo,
) -> Result<NodeNo, PageStop>
    requires node { IsNode page.old.forest host }
    requires element { kind_at page.old.forest host ≡ ElementKind }
    requires free { shadow_at page.old.forest host ≡ None }
    ensures step { Ends (λ n. n) result (work page.new fuel.new) (make_shadow_root host (work page.old fuel.old)) }
    ensures within { GrowsWithin page.old page.new fuel.old fuel.new }
    ensures refused { Keeps result page.old page.new }
    ensures made { IfOk result (IsNode page.new.forest) }
{
    if !fuel.spend() {
        return Err(PageStop::FuelSpent);
    }
    let n = page.attach_root(alloc, host)?;
    Ok(n)
}
