// Defining a custom element.
ghost use Rattle.std.specs.Prelude.{◌+◌, ◌<◌, ◌^◌, length, IfOk};
ghost use Rattle.ce_algorithms.specs.Define.{define_name};
ghost use Rattle.ce_page.specs.Adding.{AddsDefinition};
ghost use Rattle.ce_page.specs.Ends.{Ends, Keeps, work};
ghost use Rattle.ce_page.specs.Numbers.{StaysWithin};

use crate::{Page, PageStop};
use ce_base::{ClassNo, DefNo, Fuel, Refused, Text};
use ce_registry::ClassFacts;
use std::alloc::Global;

impl Page {
    /// Adds a definition, and gives its number (HTML Standard, section "The CustomElementRegistry
    /// interface", `define`). It is refused with the fault that `Registry::define` gives, and then nothing
    /// has changed. Else upgrades of the elements that it is for are enqueued: those among the document's
    /// shadow-including descendants that have its local name and, where it extends an element, its name as
    /// their `is` value, in shadow-including tree order. Each spends one unit of fuel.
    pub fn define_name(
        &mut self,
        alloc: Global,
        name: Text,
        class: ClassNo,
        facts: ClassFacts,
        base: Option<Text>,
        fuel: &mut Fuel,
    ) -> Result<DefNo, PageStop>
        requires { self.old.queues.reactions + fuel.old < 2 ^ 64 }
        ensures step { Ends (λ d. d) result (work self.new fuel.new) (define_name name class facts base (work self.old fuel.old)) }
        ensures within { StaysWithin self.old self.new fuel.old fuel.new }
        ensures refused { Keeps result self.old self.new }
    {
        let d = self.add_definition(alloc, name, class, facts, base)?;
        self.upgrade_candidates(alloc, d, fuel)?;
        Ok(d)
    }

    /// Adds a definition, which no element has yet. So no form owner changes.
    fn add_definition(
        &mut self,
        alloc: Global,
        name: Text,
        class: ClassNo,
        facts: ClassFacts,
        base: Option<Text>,
    ) -> Result<DefNo, Refused>
        ensures added { AddsDefinition result name class facts base self.old self.new }
        ensures within { StaysWithin self.old self.new 0 0 }
        ensures given { IfOk result (λ d. d < length self.new.definitions) }
    {
        let settled = self.settled;
        self.settled = false;
        match self.registry.define(alloc, name, class, facts, base) {
            Err(Refused::NoMemory) => Err(Refused::NoMemory),
            Err(Refused::Fault(f)) => {
                self.settled = settled;
                Err(Refused::Fault(f))
            }
            Ok(d) => {
                self.settled = settled;
                Ok(d)
            }
        }
    }
}
