// The state of a session, and its least steps.
ghost use Rattle.std.specs.Prelude.{◌≡◌, ◌+◌, ◌<◌, ◌^◌, ◌∷◌, [], false, MatchOption, IfOk, IfSome, OnOk};
ghost use Rattle.node_trees.specs.Nodes.{IsNode};
ghost use Rattle.ce_algorithms.specs.Session.{start};
ghost use Rattle.ce_algorithms.specs.State.{class_named, logged, set_variable, spend, value_of, with_work, work_of};
ghost use Rattle.ce_algorithms.specs.Steps.{Goes};
ghost use Rattle.ce_page.specs.Ends.{Does};
ghost use Rattle.ce_page.specs.Sound.{IsSoundPage};
ghost use Rattle.session_state.specs.Steps.{after_call, is_out_of_fuel};

use crate::variables::Variables;
use ce_algorithms::{Note, Settings};
use ce_base::{ClassNo, Fuel, NoMemory, NodeNo, Text};
use ce_events::Event;
use ce_page::{Page, PageStop};
use ce_registry::Registry;
use class_table::Classes;
use form_submission::Site;
use node_arena::Tree;
use std::alloc::Global;
use std::marker::Model;

/// The state of a session: where it stands, the page and its fuel, the classes, the variables, and what was logged and not
/// written out yet. Each variable holds a node of the page, and the fuel bounds what still gets a number.
///
/// A step wants one unit of fuel for each node that it makes, each attribute that it clones, and each reaction that
/// it enqueues. Where it has not gone, its answer is one of these.
///
/// Refused: the step throws this fault; its own lines say when. What the page had noted is logged, and else nothing
/// has changed.
///
/// FuelSpent: a unit of fuel was wanted, and none was left. What was done before that stays; what the page noted is
/// logged, and then the line `fuel`. The session has ended.
///
/// NoMemory: memory was refused, and the state is only dropped.
#[derive(Drop)]
pub struct State {
    pub(crate) site: Site,
    pub(crate) page: Page,
    pub(crate) fuel: Fuel,
    pub(crate) classes: Classes,
    pub(crate) variables: Variables,
    pub(crate) log: Vec<Event>,
}

impl Model for State {
    ghost use Rattle.std.specs.Coded.{codes};
    ghost use Rattle.rule_lines.specs.ActCode.{act_code};
    ghost use Rattle.node_trees.specs.TreesCode.{trees_code};
    ghost use Rattle.ce_algorithms.specs.State.{State as IsState};
    ghost use Rattle.session_state.specs.Steps.{AreBounded};

    ghost Value = { IsState };

    ghost coded = { Prim.hlevel (codes, act_code, trees_code) };

    ghost view = { λ s. record {
      site = s.site;
      page = s.page;
      fuel = s.fuel;
      classes = s.classes;
      variables = s.variables;
      log = s.log.items;
    } };

    ghost invariant = { λ s. AreBounded s.page s.fuel s.variables };
}

impl State {
    /// The state before the first line. NoMemory: memory was refused.
    pub fn make(alloc: Global, settings: Settings) -> Result<State, NoMemory>
        ensures { IfOk result (λ s. s ≡ start settings) }
    {
        let page = Page::make(alloc)?;
        Ok(State {
            site: settings.site,
            page,
            fuel: Fuel::make(settings.fuel),
            classes: Classes::make(alloc),
            variables: Variables::make(alloc),
            log: Vec::new(alloc),
        })
    }

    /// The page.
    pub fn page(&self) -> &Page
        ensures { result.now ≡ self.now.page }
    {
        &self.page
    }

    /// The page's nodes. Node 1 is the page's document.
    pub fn tree(&self) -> &Tree
        ensures tree { result.now ≡ self.now.page.forest }
        ensures sound { IsSoundPage self.now.page }
        ensures first { IsNode self.now.page.forest 1 }
    {
        self.page.tree()
    }

    /// The page's definitions.
    pub fn registry(&self) -> &Registry
        ensures { result.now ≡ self.now.page.definitions }
    {
        self.page.registry()
    }

    /// The node that a variable holds. None exactly where it was not set.
    pub fn variable(&self, name: &str) -> Option<NodeNo>
        ensures value { result ≡ value_of self.now.variables name.now }
        ensures made { IfSome result (IsNode self.now.page.forest) }
    {
        self.variables.get(name)
    }

    /// Sets a variable to a node. NoMemory: see `State`.
    pub fn set_variable(&mut self, var: Text, n: NodeNo) -> Result<(), NoMemory>
        requires { IsNode self.old.page.forest n }
        ensures set { OnOk result (Goes tt self.new ≡ set_variable var n self.old) }
        ensures page { self.new.page ≡ self.old.page }
    {
        self.variables.set(var, n)?;
        Ok(())
    }

    /// The class with this name. None exactly where there is none.
    pub fn class_named(&self, name: &str) -> Option<ClassNo>
        ensures { result ≡ class_named self.now.classes name.now }
    {
        self.classes.named(name)
    }

    /// How many units of fuel are left.
    pub fn fuel_left(&self) -> u32
        ensures { result ≡ self.now.fuel }
    {
        self.fuel.left()
    }

    /// Logs an event. NoMemory: see `State`.
    pub fn log(&mut self, e: Event) -> Result<(), NoMemory>
        ensures logged { OnOk result (self.new ≡ logged e self.old) }
        ensures page { self.new.page ≡ self.old.page }
        ensures fuel { self.new.fuel ≡ self.old.fuel }
    {
        self.log.push(e)?;
        Ok(())
    }

    /// Spends one unit of fuel, or ends the session. FuelSpent exactly where none is left: then the line `fuel` is
    /// logged, and else nothing has changed. It refuses nothing. NoMemory: see `State`.
    pub fn spend(&mut self) -> Result<(), PageStop>
        ensures step { Does result self.new (spend self.old) }
        ensures room { OnOk result (self.new.page.queues.pushed + self.new.fuel + 1 < 2 ^ 64) }
        ensures page { self.new.page ≡ self.old.page }
    {
        if self.fuel.spend() {
            return Ok(());
        }
        self.log(Event::FuelLine)?;
        Err(PageStop::FuelSpent)
    }

    /// After a call of the page: logs its notes, and that the fuel is spent where it found none.
    pub(crate) fn after_call(&mut self, spent: bool) -> Result<(), NoMemory>
        ensures logged { OnOk result (self.new ≡ after_call spent self.old) }
        ensures queues { self.new.page.queues ≡ self.old.page.queues }
        ensures forest { self.new.page.forest ≡ self.old.page.forest }
        ensures fuel { self.new.fuel ≡ self.old.fuel }
    {
        self.log_notes()?;
        if spent {
            return self.log(Event::FuelLine);
        }
        Ok(())
    }

    // Logs the enqueues that the page has noted.
    fn log_notes(&mut self) -> Result<(), NoMemory>
        ensures logged { OnOk result (self.new ≡ with_work (work_of self.old) self.old) }
        ensures queues { self.new.page.queues ≡ self.old.page.queues }
        ensures forest { self.new.page.forest ≡ self.old.page.forest }
        ensures fuel { self.new.fuel ≡ self.old.fuel }
    {
        while let Some(note) = self.next_note() {
            self.log(Event::Enqueued(note.number, note.node, note.what, note.queue))?;
        }
        Ok(())
    }

    fn next_note(&mut self) -> Option<Note>
        ensures first { MatchOption result ((self.old.page.notes ≡ []) × (self.new ≡ self.old)) (λ n. (self.old.page.notes ≡ n ∷ self.new.page.notes)
            × (self.new ≡ record self.old { page = record (self.old.page) { notes = self.new.page.notes } })) }
        ensures queues { self.new.page.queues ≡ self.old.page.queues }
        ensures forest { self.new.page.forest ≡ self.old.page.forest }
        ensures fuel { self.new.fuel ≡ self.old.fuel }
    {
        self.page.take_note()
    }
}

/// Whether a call of the page found no fuel.
pub(crate) fn is_out_of_fuel<A>(outcome: &Result<A, PageStop>) -> bool
    ensures { result ≡ is_out_of_fuel outcome.now }
{
    match outcome {
        Ok(_) => false,
        Err(PageStop::Refused(_)) => false,
        Err(PageStop::FuelSpent) => true,
        Err(PageStop::NoMemory) => false,
    }
}
