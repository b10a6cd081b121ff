// Deeds on the page, as steps of a session.
ghost use Rattle.std.specs.Prelude.{◌≡◌, ◌≤◌, IfOk, OnOk, OnErr, IsErrOf};
ghost use Rattle.node_trees.specs.Nodes.{size};
ghost use Rattle.ce_algorithms.specs.Controls.{control_steps};
ghost use Rattle.ce_algorithms.specs.Perform.{form_steps, internals_steps, page_steps};
ghost use Rattle.ce_algorithms.specs.State.{on_page};
ghost use Rattle.ce_page.specs.Ends.{Ends};
ghost use Rattle.page_calls.specs.Commands.{IsReadyOnControls, given_by};
ghost use Rattle.page_calls.specs.Given.{IsThere};
ghost use Rattle.page_calls.specs.Ready.{IsReadyOnForms, IsReadyOnInternals, IsReadyOnPage};

use crate::State;
use crate::state::is_out_of_fuel;
use ce_algorithms::{ControlDeed, FormDeed, Given, InternalsDeed, PageDeed};
use ce_base::NoMemory;
use ce_page::PageStop;
use page_calls::{Outcome, run, run_on_controls, run_on_forms, run_on_internals};
use std::alloc::Global;

impl State {
    /// Does the steps of a deed on the page, and gives what the deed gives. Each variant of `PageDeed` names its section
    /// of the Standard. Refused exactly as `page_calls::run` says; FuelSpent, NoMemory: see `State`.
    pub fn on_page(&mut self, alloc: Global, what: PageDeed) -> Result<Given, PageStop>
        requires { IsReadyOnPage self.old.page.forest what }
        ensures step { Ends (λ g. g) result self.new (on_page (page_steps what) self.old) }
        ensures there { IfOk result (IsThere self.new.page.forest) }
        ensures grows { size self.old.page.forest ≤ size self.new.page.forest }
    {
        let outcome = run(alloc, &mut self.page, &mut self.fuel, what);
        let logged = self.after_call(is_out_of_fuel(&outcome));
        once_logged(logged, outcome)
    }

    /// Does the steps of a deed on controls, and gives what the deed gives. Each variant of `ControlDeed` names its section of
    /// the Standard. It refuses nothing, and wants no fuel. NoMemory: see `State`.
    pub fn on_controls(&mut self, alloc: Global, what: ControlDeed) -> Result<Given, PageStop>
        requires { IsReadyOnControls self.old.page.forest what }
        ensures step { Ends (λ g. g) result self.new (on_page (control_steps what) self.old) }
        ensures there { IfOk result (IsThere self.new.page.forest) }
        ensures grows { size self.old.page.forest ≤ size self.new.page.forest }
    {
        let outcome = run_on_controls(alloc, &mut self.page, what)?;
        self.after_call(false)?;
        Ok(given_by(outcome))
    }
}

impl State {
    /// Does the steps of a deed on internals, and gives what the deed gives. Each variant of `InternalsDeed` names its section
    /// of the Standard. Refused exactly as `page_calls::run_on_internals` says. It wants no fuel. NoMemory: see `State`.
    pub fn on_internals(&mut self, alloc: Global, what: InternalsDeed) -> Result<Given, PageStop>
        requires { IsReadyOnInternals self.old.page.forest what }
        ensures step { Ends (λ g. g) result self.new (on_page (internals_steps what) self.old) }
        ensures there { IfOk result (IsThere self.new.page.forest) }
        ensures grows { size self.old.page.forest ≤ size self.new.page.forest }
    {
        let outcome = run_on_internals(alloc, &mut self.page, what);
        let logged = self.after_call(is_out_of_fuel(&outcome));
        once_logged(logged, outcome)
    }

    /// Does the steps of a deed on a form, and gives what the deed gives. Each variant of `FormDeed` names its section of the
    /// Standard. It refuses nothing. FuelSpent, NoMemory: see `State`.
    pub fn on_forms(&mut self, alloc: Global, what: FormDeed) -> Result<Given, PageStop>
        requires { IsReadyOnForms self.old.page.forest what }
        ensures step { Ends (λ g. g) result self.new (on_page (form_steps what) self.old) }
        ensures there { IfOk result (IsThere self.new.page.forest) }
        ensures grows { size self.old.page.forest ≤ size self.new.page.forest }
    {
        let outcome = run_on_forms(alloc, &mut self.page, &mut self.fuel, what);
        let logged = self.after_call(is_out_of_fuel(&outcome));
        once_logged(logged, outcome)
    }
}

/// What a command on a control gives.
fn given_by(outcome: Outcome) -> Given
    ensures { result ≡ given_by outcome }
{
    match outcome {
        Outcome::Done => Given::Nothing,
        Outcome::Ignored => Given::Ignored,
    }
}

/// What a deed gives, where what the page has noted was logged.
fn once_logged(
    logged: Result<(), NoMemory>,
    outcome: Result<Given, PageStop>,
) -> Result<Given, PageStop>
    ensures given { OnOk logged (result ≡ outcome) }
    ensures refused { OnErr logged (IsErrOf result PageStop.NoMemory) }
{
    match logged {
        Ok(()) => outcome,
        Err(NoMemory) => Err(PageStop::NoMemory),
    }
}
