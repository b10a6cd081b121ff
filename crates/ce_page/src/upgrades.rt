// Enqueuing upgrades.
ghost use Rattle.std.specs.Prelude.{◌≡◌, ◌+◌, ◌<◌, ◌^◌, All, IfOk, length};
ghost use Rattle.node_trees.specs.Candidates.{candidates, elements};
ghost use Rattle.node_trees.specs.Kinds.{IsElement};
ghost use Rattle.node_trees.specs.Nodes.{IsNode};
ghost use Rattle.ce_registry.specs.Registry.{is_value_of};
ghost use Rattle.ce_algorithms.specs.Define.{upgrade_candidates};
ghost use Rattle.ce_algorithms.specs.Enqueue.{enqueue_upgrade, lookup_for, try_upgrade};
ghost use Rattle.ce_algorithms.specs.Page.{definition_at};
ghost use Rattle.ce_algorithms.specs.Perform.{upgrade_all};
ghost use Rattle.ce_algorithms.specs.Steps.{for_each};
ghost use Rattle.ce_page.specs.Ends.{Does, NeverRefuses, work};
ghost use Rattle.ce_page.specs.Numbers.{StaysWithin, OnlyEnqueues};

use crate::walk::node_at;
use crate::{Page, PageStop};
use ce_base::{DefNo, Fuel, NoMemory, NodeNo, Nodes};
use reaction_queue::Reaction;
use std::alloc::Global;

impl Page {
    /// Tries to upgrade an element (HTML Standard, section "Upgrades", "try to upgrade an element"): where the
    /// look-up for its node document, local name and `is` value gives a definition, an upgrade is enqueued,
    /// which spends one unit of fuel.
    pub fn try_upgrade(&mut self, alloc: Global, n: NodeNo, fuel: &mut Fuel) -> Result<(), PageStop>
        requires element { IsElement self.old.forest n }
        requires room { self.old.queues.reactions + fuel.old < 2 ^ 64 }
        ensures step { Does result (work self.new fuel.new) (try_upgrade n (work self.old fuel.old)) }
        ensures within { StaysWithin self.old self.new fuel.old fuel.new }
        ensures rest { OnlyEnqueues self.old self.new }
        ensures refused { NeverRefuses result }
    {
        match self.lookup_for(n) {
            None => Ok(()),
            Some(d) => self.enqueue(alloc, n, Reaction::Upgrade(d), fuel),
        }
    }

    /// The definition that is looked up for an element (HTML Standard, section "Core concepts", "look up a custom
    /// element definition"). None exactly where there is none.
    pub fn lookup_for(&self, n: NodeNo) -> Option<DefNo>
        requires { IsNode self.now.forest n }
        ensures { result ≡ lookup_for self.now n }
    {
        self.registry.lookup(
            self.tree.document(n) == NodeNo(1),
            self.tree.local(n),
            self.tree.is_value(n),
        )
    }

    /// Tries to upgrade each element among a node's shadow-including inclusive descendants, in shadow-including
    /// tree order (HTML Standard, section "The CustomElementRegistry interface", `upgrade`).
    pub fn upgrade_all(&mut self, alloc: Global, n: NodeNo, fuel: &mut Fuel) -> Result<(), PageStop>
        requires node { IsNode self.old.forest n }
        requires room { self.old.queues.reactions + fuel.old < 2 ^ 64 }
        ensures step { Does result (work self.new fuel.new) (upgrade_all n (work self.old fuel.old)) }
        ensures within { StaysWithin self.old self.new fuel.old fuel.new }
        ensures rest { OnlyEnqueues self.old self.new }
        ensures refused { NeverRefuses result }
    {
        let walk = upgrade_walk::walk(alloc, &self.tree, n)?;
        self.try_upgrades(alloc, &walk, fuel)
    }

    /// Each of these elements is tried to upgrade.
    fn try_upgrades(&mut self, alloc: Global, walk: &Nodes, fuel: &mut Fuel) -> Result<(), PageStop>
        requires elements { All (IsElement self.old.forest) walk.now }
        requires room { self.old.queues.reactions + fuel.old < 2 ^ 64 }
        ensures step { Does result (work self.new fuel.new) (for_each walk.now try_upgrade (work self.old fuel.old)) }
        ensures within { StaysWithin self.old self.new fuel.old fuel.new }
        ensures rest { OnlyEnqueues self.old self.new }
        ensures refused { NeverRefuses result }
    {
        for i in 0..walk.len() {
            let n = node_at(walk, i);
            self.try_upgrade(alloc, n, fuel)?;
        }
        Ok(())
    }

    /// Upgrades of the elements that a definition is for are enqueued.
    pub(crate) fn upgrade_candidates(
        &mut self,
        alloc: Global,
        d: DefNo,
        fuel: &mut Fuel,
    ) -> Result<(), PageStop>
        requires given { d < length self.old.definitions }
        requires room { self.old.queues.reactions + fuel.old < 2 ^ 64 }
        ensures step { Does result (work self.new fuel.new) (upgrade_candidates d (definition_at self.old d) (work self.old fuel.old)) }
        ensures within { StaysWithin self.old self.new fuel.old fuel.new }
        ensures refused { NeverRefuses result }
    {
        let found = self.candidates(alloc, d)?;
        self.enqueue_upgrades(alloc, &found, d, fuel)
    }

    /// The elements that a definition is for.
    fn candidates(&self, alloc: Global, d: DefNo) -> Result<Nodes, NoMemory>
        requires { d < length self.now.definitions }
        ensures found { IfOk result (λ ns. ns ≡ candidates (definition_at self.now d).local (is_value_of (definition_at self.now d)) self.now.forest 1) }
        ensures elements { IfOk result (All (IsElement self.now.forest)) }
    {
        let x = self.registry.definition(d);
        upgrade_walk::candidates(alloc, &self.tree, NodeNo(1), x.local.as_str(), x.is_value())
    }

    /// An upgrade of each of these elements is enqueued.
    fn enqueue_upgrades(
        &mut self,
        alloc: Global,
        found: &Nodes,
        d: DefNo,
        fuel: &mut Fuel,
    ) -> Result<(), PageStop>
        requires elements { All (IsElement self.old.forest) found.now }
        requires room { self.old.queues.reactions + fuel.old < 2 ^ 64 }
        ensures step { Does result (work self.new fuel.new) (for_each found.now (enqueue_upgrade d) (work self.old fuel.old)) }
        ensures within { StaysWithin self.old self.new fuel.old fuel.new }
        ensures rest { OnlyEnqueues self.old self.new }
        ensures refused { NeverRefuses result }
    {
        for i in 0..found.len() {
            let n = node_at(found, i);
            self.enqueue(alloc, n, Reaction::Upgrade(d), fuel)?;
        }
        Ok(())
    }
}
