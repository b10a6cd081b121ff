// Enqueuing reactions.
ghost use Rattle.std.specs.Prelude.{◌≡◌, ◌+◌, ◌<◌, ◌^◌, true, slice_get, IfSome, OnOk};
ghost use Rattle.node_trees.specs.Kinds.{IsElement};
ghost use Rattle.reaction_queue.specs.Queues.{enqueued};
ghost use Rattle.ce_algorithms.specs.Steps.{where_is};
ghost use Rattle.ce_algorithms.specs.Page.{definition_of, is_custom, with_queues};
ghost use Rattle.ce_algorithms.specs.Enqueue.{has_callback, is_observed, gives_reaction, noted, enqueue, enqueue_callback};
ghost use Rattle.ce_page.specs.Ends.{Does, NeverRefuses, work};
ghost use Rattle.ce_page.specs.Numbers.{StaysWithin, OnlyEnqueues};

use crate::{Page, PageStop};
use ce_algorithms::Note;
use ce_base::{DefNo, Fuel, NoMemory, NodeNo};
use ce_registry::{Definition, Registry};
use reaction_queue::Reaction;
use rule_tokens::CallOrUpgrade;
use std::alloc::Global;

impl Page {
    /// Enqueues a callback (HTML Standard, section "Custom element reactions", "enqueue a custom element
    /// callback reaction"): where the element's definition has the callback and, for an attribute, observes
    /// its name, one unit of fuel is spent, the reaction gets the next number and waits at the element, and
    /// the element is appended to the current element queue, or to the backup element queue where no queue
    /// is pushed. An upgrade is no callback, and gives nothing.
    pub fn enqueue_call(
        &mut self,
        alloc: Global,
        n: NodeNo,
        r: Reaction,
        fuel: &mut Fuel,
    ) -> Result<(), PageStop>
        requires { self.old.queues.reactions + fuel.old < 2 ^ 64 }
        ensures step { Does result (work self.new fuel.new) (enqueue_callback n r (work self.old fuel.old)) }
        ensures within { StaysWithin self.old self.new fuel.old fuel.new }
        ensures rest { OnlyEnqueues self.old self.new }
        ensures refused { NeverRefuses result }
    {
        if self.gives_reaction(n, &r) {
            self.enqueue(alloc, n, r, fuel)
        } else {
            drop(r);
            Ok(())
        }
    }

    /// Whether the element's definition gives a reaction. An upgrade it does not, and what is no element has none.
    fn gives_reaction(&self, n: NodeNo, r: &Reaction) -> bool
        ensures gives { result ≡ gives_reaction (definition_of self.now n) r.now }
        ensures element { result ≡ true → IsElement self.now.forest n }
    {
        match self.definition(n) {
            None => false,
            Some(d) => gives(&self.registry, d, r),
        }
    }

    /// One unit of fuel for a reaction that is enqueued.
    pub(crate) fn enqueue(
        &mut self,
        alloc: Global,
        n: NodeNo,
        r: Reaction,
        fuel: &mut Fuel,
    ) -> Result<(), PageStop>
        requires room { self.old.queues.reactions + fuel.old < 2 ^ 64 }
        requires element { IsElement self.old.forest n }
        ensures step { Does result (work self.new fuel.new) (enqueue n r (work self.old fuel.old)) }
        ensures within { StaysWithin self.old self.new fuel.old fuel.new }
        ensures rest { OnlyEnqueues self.old self.new }
        ensures refused { NeverRefuses result }
    {
        if !fuel.spend() {
            drop(r);
            return Err(PageStop::FuelSpent);
        }
        self.record(alloc, n, r)?;
        Ok(())
    }

    /// The reaction is enqueued, and noted.
    fn record(&mut self, alloc: Global, n: NodeNo, r: Reaction) -> Result<(), NoMemory>
        requires room { self.old.queues.reactions + 1 < 2 ^ 64 }
        requires element { IsElement self.old.forest n }
        ensures page { OnOk result (self.new ≡ noted n r (with_queues (enqueued n r) self.old)) }
        ensures within { StaysWithin self.old self.new 1 0 }
        ensures rest { OnlyEnqueues self.old self.new }
    {
        let what = r.what();
        let (number, queue) = self.queues.enqueue(alloc, n, r)?;
        self.notes.push_back(Note {
            number,
            node: n,
            what,
            queue,
        })?;
        Ok(())
    }

    /// Enqueues a callback, where the element is custom.
    pub(crate) fn tell(
        &mut self,
        alloc: Global,
        n: NodeNo,
        r: Reaction,
        fuel: &mut Fuel,
    ) -> Result<(), PageStop>
        requires { self.old.queues.reactions + fuel.old < 2 ^ 64 }
        ensures step { Does result (work self.new fuel.new) (where_is (λ w. is_custom w.page n) (enqueue_callback n r) (work self.old fuel.old)) }
        ensures within { StaysWithin self.old self.new fuel.old fuel.new }
        ensures rest { OnlyEnqueues self.old self.new }
        ensures refused { NeverRefuses result }
    {
        if self.is_custom(n) {
            self.enqueue_call(alloc, n, r, fuel)
        } else {
            drop(r);
            Ok(())
        }
    }
}

/// Whether the definition has the callback. An upgrade is none.
fn has_callback(what: CallOrUpgrade, d: &Definition) -> bool
    ensures { result ≡ has_callback what d.now }
{
    match what {
        CallOrUpgrade::Call(name) => d.facts.calls.has(name),
        CallOrUpgrade::Upgrade => false,
    }
}

/// An attribute callback wants the attribute's name observed.
fn is_observed(registry: &Registry, d: DefNo, r: &Reaction) -> bool
    ensures { IfSome (slice_get registry.now d) (λ found. result ≡ is_observed r.now found) }
{
    match r {
        Reaction::Attribute(name, _, _) => registry.observes(d, name.as_str()),
        _ => true,
    }
}

/// Whether a definition gives a reaction. An upgrade it does not.
fn gives(registry: &Registry, d: DefNo, r: &Reaction) -> bool
    ensures { result ≡ gives_reaction (slice_get registry.now d) r.now }
{
    match registry.at(d) {
        None => false,
        Some(found) => has_callback(r.what(), found) && is_observed(registry, d, r),
    }
}
