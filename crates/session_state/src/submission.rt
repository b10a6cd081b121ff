// Submitting forms, as steps of a session.
ghost use Rattle.std.specs.Prelude.{◌≤◌, IfOk, Some};
ghost use Rattle.node_trees.specs.Nodes.{IsNode, IsNodeOrNone, size};
ghost use Rattle.ce_algorithms.specs.Reset.{reset_form};
ghost use Rattle.ce_algorithms.specs.State.{on_page};
ghost use Rattle.ce_algorithms.specs.Submission.{activate, activate_in, press, request, submit, submit_steps};
ghost use Rattle.ce_page.specs.Ends.{Does, Ends};
ghost use Rattle.page_calls.specs.Given.{IsThere};
ghost use Rattle.page_calls.specs.Ready.{IsReadyToSubmit};

use crate::State;
use crate::state::is_out_of_fuel;
use ce_algorithms::{Given, SubmitDeed};
use ce_base::NodeNo;
use ce_page::PageStop;
use element_names::InputKind;
use form_kinds::has_kind;
use page_calls::{form_owner, gives_nothing, is_disabled, request_fit, reset_form};
use std::alloc::Global;

impl State {
    /// Does the steps of what submits a form, and gives what they give. Each variant of `SubmitDeed` names its section of the
    /// Standard. Refused exactly where a form is requested to be submitted with a submitter that does not fit, as
    /// `page_calls::request_fit` says. FuelSpent, NoMemory: see `State`.
    pub fn submits(&mut self, alloc: Global, what: SubmitDeed) -> Result<Given, PageStop>
        requires { IsReadyToSubmit self.old.page.forest what }
        ensures step { Ends (λ g. g) result self.new (submit_steps what self.old) }
        ensures there { IfOk result (IsThere self.new.page.forest) }
        ensures grows { size self.old.page.forest ≤ size self.new.page.forest }
    {
        match what {
            SubmitDeed::Submit { form } => gives_nothing(self.submit(alloc, form, None, true)),
            SubmitDeed::Request { form, submitter } => {
                gives_nothing(self.request(alloc, form, &submitter))
            }
            SubmitDeed::Press { button } => self.press(alloc, button),
        }
    }

    // Submits a form (HTML Standard, section "Form submission algorithm", "submit"). It refuses nothing.
    fn submit(
        &mut self,
        alloc: Global,
        form: NodeNo,
        submitter: Option<NodeNo>,
        by_call: bool,
    ) -> Result<(), PageStop>
        requires form { IsNode self.old.page.forest form }
        requires submitter { IsNodeOrNone self.old.page.forest submitter }
        ensures step { Does result self.new (submit form submitter by_call self.old) }
        ensures grows { size self.old.page.forest ≤ size self.new.page.forest }
    {
        submission_log::submit(
            alloc,
            &self.page,
            &self.site,
            &mut self.log,
            form,
            submitter,
            by_call,
        )?;
        Ok(())
    }

    // Requests that a form be submitted (section "The form element", `requestSubmit`).
    fn request(
        &mut self,
        alloc: Global,
        form: NodeNo,
        submitter: &Option<NodeNo>,
    ) -> Result<(), PageStop>
        requires form { IsNode self.old.page.forest form }
        requires submitter { IsNodeOrNone self.old.page.forest submitter.now }
        ensures step { Does result self.new (request form submitter.now self.old) }
        ensures grows { size self.old.page.forest ≤ size self.new.page.forest }
    {
        if !self.page.is_settled() {
            return Err(PageStop::NoMemory);
        }
        match request_fit(&self.page, form, *submitter) {
            Ok(()) => self.submit(alloc, form, *submitter, false),
            Err(f) => Err(PageStop::Refused(f)),
        }
    }

    // The user presses a button; a disabled one ignores it.
    fn press(&mut self, alloc: Global, button: NodeNo) -> Result<Given, PageStop>
        requires { IsNode self.old.page.forest button }
        ensures step { Ends (λ g. g) result self.new (press button self.old) }
        ensures there { IfOk result (IsThere self.new.page.forest) }
        ensures grows { size self.old.page.forest ≤ size self.new.page.forest }
    {
        if is_disabled(&self.page, button)? {
            return Ok(Given::Ignored);
        }
        gives_nothing(self.activate(alloc, button))
    }

    // What pressing a button does to its form owner, where it has one (section "The button element", "activation behavior").
    fn activate(&mut self, alloc: Global, button: NodeNo) -> Result<(), PageStop>
        requires { IsNode self.old.page.forest button }
        ensures step { Does result self.new (activate button self.old) }
        ensures grows { size self.old.page.forest ≤ size self.new.page.forest }
    {
        match form_owner(&self.page, button)? {
            None => Ok(()),
            Some(form) => self.act_on(alloc, button, form),
        }
    }

    fn act_on(&mut self, alloc: Global, button: NodeNo, form: NodeNo) -> Result<(), PageStop>
        requires button { IsNode self.old.page.forest button }
        requires form { IsNode self.old.page.forest form }
        ensures step { Does result self.new (activate_in button (Some form) self.old) }
        ensures grows { size self.old.page.forest ≤ size self.new.page.forest }
    {
        if has_kind(self.page.tree(), button, InputKind::Submit) {
            return self.submit(alloc, form, Some(button), false);
        }
        if has_kind(self.page.tree(), button, InputKind::Reset) {
            return self.reset(alloc, form);
        }
        Ok(())
    }

    // Resets a form (section "Resetting a form"). It refuses nothing.
    fn reset(&mut self, alloc: Global, form: NodeNo) -> Result<(), PageStop>
        requires { IsNode self.old.page.forest form }
        ensures step { Does result self.new (on_page (reset_form form) self.old) }
        ensures grows { size self.old.page.forest ≤ size self.new.page.forest }
    {
        let outcome = reset_form(alloc, &mut self.page, form, &mut self.fuel);
        self.after_call(is_out_of_fuel(&outcome))?;
        outcome
    }
}
