// New nodes.
ghost use Rattle.std.specs.Prelude.{◌≡◌, ◌≤◌, IfOk};
ghost use Rattle.node_trees.specs.Kinds.{IsElement};
ghost use Rattle.node_trees.specs.Nodes.{IsNode, size};
ghost use Rattle.ce_algorithms.specs.CreateLater.{make_in_state};
ghost use Rattle.ce_algorithms.specs.Making.{make_document};
ghost use Rattle.ce_algorithms.specs.State.{on_page};
ghost use Rattle.ce_page.specs.Ends.{Ends, work};
ghost use Rattle.ce_page.specs.Numbers.{GrowsWithin};

use crate::State;
use crate::state::is_out_of_fuel;
use ce_base::{CustomState, Fuel, NodeNo, Text};
use ce_page::{Page, PageStop};
use std::alloc::Global;

impl State {
    /// Makes an inert document (DOM Standard, section "Interface DOMImplementation", `createHTMLDocument`). It refuses
    /// nothing. FuelSpent, NoMemory: see `State`.
    pub fn make_document(&mut self, alloc: Global) -> Result<NodeNo, PageStop>
        ensures step { Ends (λ n. n) result self.new (on_page make_document self.old) }
        ensures made { IfOk result (IsNode self.new.page.forest) }
        ensures grows { size self.old.page.forest ≤ size self.new.page.forest }
    {
        let outcome = make_document(alloc, &mut self.page, &mut self.fuel);
        self.after_call(is_out_of_fuel(&outcome))?;
        outcome
    }

    /// Makes an element in a state (DOM Standard, section "Interface Element", "create an element
    /// internal"). It refuses nothing. FuelSpent, NoMemory: see `State`.
    pub fn make_in_state(
        &mut self,
        alloc: Global,
        local: Text,
        is: Option<Text>,
        document: NodeNo,
        state: CustomState,
    ) -> Result<NodeNo, PageStop>
        ensures step { Ends (λ n. n) result self.new (on_page (make_in_state local is document state) self.old) }
        ensures made { IfOk result (IsNode self.new.page.forest) }
        ensures element { IfOk result (IsElement self.new.page.forest) }
        ensures grows { size self.old.page.forest ≤ size self.new.page.forest }
    {
        let outcome = self
            .page
            .create_in_state(alloc, local, is, document, state, &mut self.fuel);
        self.after_call(is_out_of_fuel(&outcome))?;
        outcome
    }
}

fn make_document(alloc: Global, page: &mut Page, fuel: &mut Fuel) -> Result<NodeNo, PageStop>
    ensures step { Ends (λ n. n) result (work page.new fuel.new) (make_document (work page.old fuel.old)) }
    ensures within { GrowsWithin page.old page.new fuel.old fuel.new }
    ensures made { IfOk result (IsNode page.new.forest) }
{
    if !fuel.spend() {
        return Err(PageStop::FuelSpent);
    }
    let n = page.make_document(alloc)?;
    Ok(n)
}
