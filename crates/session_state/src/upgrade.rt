// Upgrading an element.
ghost use Rattle.std.specs.Prelude.{◌≡◌, ◌+◌, ◌<◌, ◌^◌, true, IfNone, IfSome, OnOk};
ghost use Rattle.ce_base.specs.declared.fault.Fault.{Fault};
ghost use Rattle.node_trees.specs.Kinds.{IsElement};
ghost use Rattle.node_trees.specs.Nodes.{IsNode};
ghost use Rattle.node_trees.specs.Spots.{facts_at};
ghost use Rattle.reaction_queue.specs.declared.reaction.Reaction.TheVariants.{Connected, FormDisabled};
ghost use Rattle.ce_algorithms.specs.Construction.{pop_construction};
ghost use Rattle.ce_algorithms.specs.Enqueue.{enqueue_callback};
ghost use Rattle.ce_algorithms.specs.FormChanges.{tell_first, tell_first_owner, tell_form};
ghost use Rattle.ce_algorithms.specs.Forms.{form_owner, is_disabled};
ghost use Rattle.ce_algorithms.specs.Mutation.{is_connected};
ghost use Rattle.ce_algorithms.specs.Page.{state_of, with_state};
ghost use Rattle.ce_algorithms.specs.State.{change_page, on_page};
ghost use Rattle.ce_algorithms.specs.Steps.{Goes, Throws, for_each, where_is};
ghost use Rattle.ce_algorithms.specs.Upgrade.{begin_upgrade, drop_reactions, enqueue_attribute, is_shadow_refused, upgrade_ends, upgrade_threw};
ghost use Rattle.ce_page.specs.Ends.{Does, work};
ghost use Rattle.ce_page.specs.Numbers.{GrowsWithin};
ghost use Rattle.session_state.specs.Steps.{DropsReaction};

use crate::State;
use crate::state::is_out_of_fuel;
use ce_base::{CustomState, DefNo, Fuel, NoMemory, NodeNo, ReactionNo, Text};
use ce_events::Event;
use ce_page::{Page, PageStop};
use page_calls::disables_shadow;
use reaction_queue::Reaction;
use std::alloc::Global;

// The parts of "upgrade an element" (HTML Standard, section "Upgrades"), between which the class is constructed.
impl State {
    /// The custom element state of a node (DOM Standard, section "Interface Element", "custom element state"), by which
    /// an upgrade goes (HTML Standard, section "Upgrades"): that of the node's making, until `set_state` or an upgrade
    /// gives it another.
    pub fn custom_state(&self, n: NodeNo) -> CustomState
        ensures { result ≡ state_of self.now.page n }
    {
        self.page.state(n)
    }

    /// Sets the custom element state of an element: it is precustomized while its class is constructed, and failed
    /// where the upgrade of one that is created threw (HTML Standard, section "Upgrades"; DOM Standard, section
    /// "Interface Element", "create an element").
    pub fn set_state(&mut self, n: NodeNo, state: CustomState)
        ensures step { Goes tt self.new ≡ change_page (with_state n state) self.old }
        ensures forest { self.new.page.forest ≡ self.old.page.forest }
    {
        self.page.set_state(n, state);
    }

    /// The upgrade of an element by a definition begins (HTML Standard, section "Upgrades", "upgrade an element"): it
    /// has the definition, and is failed for now; its attributes, in the order in which they came in, and then that it is
    /// connected, are enqueued; it comes last on the definition's construction stack. FuelSpent exactly where no fuel
    /// is left for what is enqueued; it refuses nothing. What stands then, and NoMemory: see `State`.
    pub fn begin_upgrade(&mut self, alloc: Global, n: NodeNo, d: DefNo) -> Result<(), PageStop>
        requires element { IsElement self.old.page.forest n }
        ensures step { Does result self.new (on_page (begin_upgrade n d) self.old) }
        ensures forest { self.new.page.forest ≡ self.old.page.forest }
    {
        let outcome = begin_upgrade(alloc, &mut self.page, &mut self.fuel, n, d);
        self.after_call(is_out_of_fuel(&outcome))?;
        outcome
    }

    /// Whether an upgrade is refused, before the class is constructed (HTML Standard, section "Upgrades", "upgrade an
    /// element"): the definition disables shadow, and the element has a shadow root.
    pub fn is_shadow_refused(&self, n: NodeNo, d: DefNo) -> bool
        requires { IsNode self.now.page.forest n }
        ensures { result ≡ is_shadow_refused self.now.page n d }
    {
        disables_shadow(&self.page, Some(d)) && self.page.tree().shadow(n).is_some()
    }

    /// The construction for an upgrade has ended, in whatever way: the definition's construction stack loses its last
    /// entry (HTML Standard, section "Upgrades", "upgrade an element"). NoMemory: see `State`.
    pub fn pop_construction(&mut self, d: DefNo) -> Result<(), NoMemory>
        ensures step { OnOk result (Goes tt self.new ≡ on_page (pop_construction d) self.old) }
        ensures forest { self.new.page.forest ≡ self.old.page.forest }
    {
        self.page.pop(d);
        self.after_call(false)
    }

    /// An upgrade threw, and its fault is thrown on (HTML Standard, section "Upgrades", "upgrade an element"): the
    /// element has no definition any more, and its reaction queue is emptied. Its state stays. NoMemory: see `State`.
    pub fn upgrade_threw(&mut self, alloc: Global, n: NodeNo) -> Result<(), NoMemory>
        ensures step { OnOk result ((f : Fault) → Throws f self.new ≡ upgrade_threw n f self.old) }
        ensures forest { self.new.page.forest ≡ self.old.page.forest }
    {
        self.page.set_definition(alloc, n, None)?;
        self.drop_reactions(n)?;
        self.log(Event::UpgradeThrew(n))?;
        Ok(())
    }

    /// An upgrade has gone well (HTML Standard, section "Upgrades", "upgrade an element"): a form-associated element
    /// is told of its form owner, where it has one, and that it is disabled, where it is; and the element is custom.
    /// FuelSpent exactly where no fuel is left for what is enqueued; it refuses nothing. NoMemory: see `State`.
    pub fn upgrade_ends(&mut self, alloc: Global, n: NodeNo) -> Result<(), PageStop>
        ensures step { Does result self.new (upgrade_ends n self.old) }
        ensures forest { self.new.page.forest ≡ self.old.page.forest }
    {
        let outcome = tell_form(alloc, &mut self.page, &mut self.fuel, n);
        self.after_call(is_out_of_fuel(&outcome))?;
        outcome?;
        self.page.set_state(n, CustomState::Custom);
        self.log(Event::UpgradeDone(n))?;
        Ok(())
    }
}

// What waits at an element whose upgrade threw.
impl State {
    // The element's reaction queue is emptied, the oldest reaction first.
    fn drop_reactions(&mut self, n: NodeNo) -> Result<(), NoMemory>
        ensures step { OnOk result (Goes tt self.new ≡ drop_reactions n self.old) }
        ensures forest { self.new.page.forest ≡ self.old.page.forest }
    {
        while let Some(number) = self.drop_first(n) {
            self.log(Event::Dropped(number))?;
        }
        Ok(())
    }

    // Drops the first reaction that waits at an element, and gives its number. None exactly where none waits.
    fn drop_first(&mut self, n: NodeNo) -> Option<ReactionNo>
        ensures none { IfNone result (Goes tt self.new ≡ drop_reactions n self.old) }
        ensures first { IfSome result (λ number. DropsReaction self.old self.new n number) }
        ensures forest { self.new.page.forest ≡ self.old.page.forest }
    {
        self.page.drop_first(n)
    }
}

// What begins on the page.
fn begin_upgrade(
    alloc: Global,
    page: &mut Page,
    fuel: &mut Fuel,
    n: NodeNo,
    d: DefNo,
) -> Result<(), PageStop>
    requires element { IsElement page.old.forest n }
    requires room { page.old.queues.reactions + fuel.old < 2 ^ 64 }
    ensures step { Does result (work page.new fuel.new) (begin_upgrade n d (work page.old fuel.old)) }
    ensures within { GrowsWithin page.old page.new fuel.old fuel.new }
    ensures forest { page.new.forest ≡ page.old.forest }
{
    page.set_definition(alloc, n, Some(d))?;
    page.set_state(n, CustomState::Failed);
    tell_attributes(alloc, page, fuel, n)?;
    tell_connected(alloc, page, fuel, n)?;
    page.push(alloc, d, n)?;
    Ok(())
}

// The attributes that are there already are enqueued, in the order in which they came in.
fn tell_attributes(
    alloc: Global,
    page: &mut Page,
    fuel: &mut Fuel,
    n: NodeNo,
) -> Result<(), PageStop>
    requires node { IsNode page.old.forest n }
    requires room { page.old.queues.reactions + fuel.old < 2 ^ 64 }
    ensures step { Does result (work page.new fuel.new) (for_each (facts_at page.old.forest n).attributes (enqueue_attribute n) (work page.old fuel.old)) }
    ensures within { GrowsWithin page.old page.new fuel.old fuel.new }
    ensures forest { page.new.forest ≡ page.old.forest }
{
    let attributes = page.tree().attributes(alloc, n)?;
    tell_each(alloc, page, fuel, n, &attributes)
}

// These attributes are enqueued, in their order.
fn tell_each(
    alloc: Global,
    page: &mut Page,
    fuel: &mut Fuel,
    n: NodeNo,
    attributes: &[(Text, Text)],
) -> Result<(), PageStop>
    requires node { IsNode page.old.forest n }
    requires room { page.old.queues.reactions + fuel.old < 2 ^ 64 }
    ensures step { Does result (work page.new fuel.new) (for_each attributes.now (enqueue_attribute n) (work page.old fuel.old)) }
    ensures within { GrowsWithin page.old page.new fuel.old fuel.new }
    ensures forest { page.new.forest ≡ page.old.forest }
{
    for attribute in attributes {
        tell_attribute(alloc, page, fuel, n, attribute)?;
    }
    Ok(())
}

// That an attribute is there is enqueued, as a change from none to its value.
fn tell_attribute(
    alloc: Global,
    page: &mut Page,
    fuel: &mut Fuel,
    n: NodeNo,
    attribute: &(Text, Text),
) -> Result<(), PageStop>
    requires room { page.old.queues.reactions + fuel.old < 2 ^ 64 }
    ensures step { Does result (work page.new fuel.new) (enqueue_attribute n attribute.now (work page.old fuel.old)) }
    ensures within { GrowsWithin page.old page.new fuel.old fuel.new }
    ensures forest { page.new.forest ≡ page.old.forest }
{
    let name = attribute.0.copy(alloc)?;
    let value = attribute.1.copy(alloc)?;
    page.enqueue_call(alloc, n, Reaction::Attribute(name, None, Some(value)), fuel)
}

// That the element is connected is enqueued, where it is.
fn tell_connected(
    alloc: Global,
    page: &mut Page,
    fuel: &mut Fuel,
    n: NodeNo,
) -> Result<(), PageStop>
    requires node { IsNode page.old.forest n }
    requires room { page.old.queues.reactions + fuel.old < 2 ^ 64 }
    ensures step { Does result (work page.new fuel.new) (where_is (λ w. is_connected w.page n) (enqueue_callback n Connected) (work page.old fuel.old)) }
    ensures within { GrowsWithin page.old page.new fuel.old fuel.new }
    ensures forest { page.new.forest ≡ page.old.forest }
{
    if !page.tree().is_connected(n) {
        return Ok(());
    }
    page.enqueue_call(alloc, n, Reaction::Connected, fuel)
}

// A form-associated element is told of its form owner, where it has one, and that it is disabled, where it is.
fn tell_form(alloc: Global, page: &mut Page, fuel: &mut Fuel, n: NodeNo) -> Result<(), PageStop>
    requires room { page.old.queues.reactions + fuel.old < 2 ^ 64 }
    ensures step { Does result (work page.new fuel.new) (tell_form n (work page.old fuel.old)) }
    ensures within { GrowsWithin page.old page.new fuel.old fuel.new }
    ensures forest { page.new.forest ≡ page.old.forest }
{
    if !page.is_form_associated(n) {
        return Ok(());
    }
    tell_first(alloc, page, fuel, n)
}

fn tell_first(alloc: Global, page: &mut Page, fuel: &mut Fuel, n: NodeNo) -> Result<(), PageStop>
    requires node { IsNode page.old.forest n }
    requires room { page.old.queues.reactions + fuel.old < 2 ^ 64 }
    ensures step { Does result (work page.new fuel.new) (tell_first n (work page.old fuel.old)) }
    ensures within { GrowsWithin page.old page.new fuel.old fuel.new }
    ensures forest { page.new.forest ≡ page.old.forest }
{
    tell_first_owner(alloc, page, fuel, n)?;
    tell_first_disabled(alloc, page, fuel, n)
}

// A page that is not settled lacks memory: its form owners are not known.
fn tell_first_owner(
    alloc: Global,
    page: &mut Page,
    fuel: &mut Fuel,
    n: NodeNo,
) -> Result<(), PageStop>
    requires node { IsNode page.old.forest n }
    requires room { page.old.queues.reactions + fuel.old < 2 ^ 64 }
    ensures step { Does result (work page.new fuel.new) (tell_first_owner n (form_owner page.old n) (work page.old fuel.old)) }
    ensures within { GrowsWithin page.old page.new fuel.old fuel.new }
    ensures forest { page.new.forest ≡ page.old.forest }
{
    if !page.is_settled() {
        return Err(PageStop::NoMemory);
    }
    match page.owners().owner(n) {
        None => Ok(()),
        Some(form) => page.enqueue_call(alloc, n, Reaction::FormAssociated(Some(form)), fuel),
    }
}

fn tell_first_disabled(
    alloc: Global,
    page: &mut Page,
    fuel: &mut Fuel,
    n: NodeNo,
) -> Result<(), PageStop>
    requires node { IsNode page.old.forest n }
    requires room { page.old.queues.reactions + fuel.old < 2 ^ 64 }
    ensures step { Does result (work page.new fuel.new)
        (where_is (λ w. is_disabled w.page n) (enqueue_callback n (FormDisabled true)) (work page.old fuel.old)) }
    ensures within { GrowsWithin page.old page.new fuel.old fuel.new }
    ensures forest { page.new.forest ≡ page.old.forest }
{
    if !page.is_settled() {
        return Err(PageStop::NoMemory);
    }
    if !page.owners().disabled(n) {
        return Ok(());
    }
    page.enqueue_call(alloc, n, Reaction::FormDisabled(true), fuel)
}
