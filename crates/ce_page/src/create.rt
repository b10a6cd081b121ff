// New nodes, each for one unit of fuel.
ghost use Rattle.std.specs.Prelude.{◌+◌, ◌<◌, ◌^◌, IfOk, OnOk};
ghost use Rattle.node_trees.specs.Kinds.{IsElement};
ghost use Rattle.node_trees.specs.Nodes.{IsNode};
ghost use Rattle.node_trees.specs.declared.kind.NodeKind.TheVariants.{Element as ElementKind, TextNode};
ghost use Rattle.ce_algorithms.specs.CreateLater.{make_in_state, make_later};
ghost use Rattle.ce_algorithms.specs.Making.{make_text};
ghost use Rattle.ce_page.specs.Ends.{Ends, NeverRefuses, work};
ghost use Rattle.ce_page.specs.Numbers.{GrowsWithin};
ghost use Rattle.ce_page.specs.Copies.{IsFresh};

use crate::{Page, PageStop};
use ce_algorithms::first_state;
use ce_base::{CustomState, DefNo, Fuel, NodeNo, Text};
use reaction_queue::Reaction;
use std::alloc::Global;

impl Page {
    /// Makes a text node for one unit of fuel (DOM Standard, section "Interface Document", `createTextNode`).
    /// It stands nowhere. FuelSpent: none is left, and nothing has changed.
    pub fn create_text(
        &mut self,
        alloc: Global,
        chars: Text,
        document: NodeNo,
        fuel: &mut Fuel,
    ) -> Result<NodeNo, PageStop>
        ensures step { Ends (λ n. n) result (work self.new fuel.new) (make_text chars document (work self.old fuel.old)) }
        ensures within { GrowsWithin self.old self.new fuel.old fuel.new }
        ensures spends { OnOk result (fuel.new < fuel.old) }
        ensures made { IfOk result (IsNode self.new.forest) }
        ensures fresh { IfOk result (IsFresh self.old.forest self.new.forest TextNode) }
        ensures refused { NeverRefuses result }
    {
        if !fuel.spend() {
            return Err(PageStop::FuelSpent);
        }
        let n = self.make_text(alloc, chars, document)?;
        Ok(n)
    }

    /// Makes an element in a state for one unit of fuel (DOM Standard, section "Interface Element", "create an
    /// element internal"). It has no definition, and stands nowhere. FuelSpent: none is left, and nothing has
    /// changed.
    pub fn create_in_state(
        &mut self,
        alloc: Global,
        local: Text,
        is: Option<Text>,
        document: NodeNo,
        state: CustomState,
        fuel: &mut Fuel,
    ) -> Result<NodeNo, PageStop>
        ensures step { Ends (λ n. n) result (work self.new fuel.new) (make_in_state local is document state (work self.old fuel.old)) }
        ensures within { GrowsWithin self.old self.new fuel.old fuel.new }
        ensures spends { OnOk result (fuel.new < fuel.old) }
        ensures made { IfOk result (IsNode self.new.forest) }
        ensures element { IfOk result (IsElement self.new.forest) }
        ensures fresh { IfOk result (IsFresh self.old.forest self.new.forest ElementKind) }
        ensures refused { NeverRefuses result }
    {
        if !fuel.spend() {
            return Err(PageStop::FuelSpent);
        }
        let n = self.make_element(alloc, local, is, document)?;
        self.set_state(n, state);
        Ok(n)
    }

    /// An element that is not created synchronously (DOM Standard, section "Interface Element", "create an
    /// element"): where there is a definition, it is undefined, and its upgrade is enqueued.
    pub(crate) fn create_later(
        &mut self,
        alloc: Global,
        local: Text,
        is: Option<Text>,
        document: NodeNo,
        d: Option<DefNo>,
        fuel: &mut Fuel,
    ) -> Result<NodeNo, PageStop>
        requires { self.old.queues.reactions + fuel.old < 2 ^ 64 }
        ensures step { Ends (λ n. n) result (work self.new fuel.new) (make_later local is document d (work self.old fuel.old)) }
        ensures within { GrowsWithin self.old self.new fuel.old fuel.new }
        ensures spends { OnOk result (fuel.new < fuel.old) }
        ensures fresh { IfOk result (IsFresh self.old.forest self.new.forest ElementKind) }
        ensures refused { NeverRefuses result }
    {
        match d {
            None => {
                let state = first_state(local.as_str(), &is);
                self.create_in_state(alloc, local, is, document, state, fuel)
            }
            Some(d) => {
                let n = self.create_in_state(
                    alloc,
                    local,
                    is,
                    document,
                    CustomState::Undefined,
                    fuel,
                )?;
                self.enqueue(alloc, n, Reaction::Upgrade(d), fuel)?;
                Ok(n)
            }
        }
    }
}
