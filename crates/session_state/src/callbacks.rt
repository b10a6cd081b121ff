// Callbacks: whose they are, their lines, their bodies.
ghost use Rattle.std.specs.Prelude.{◌≡◌, ◌+◌, ◌<◌, ◌^◌, IfOk, IfSome, OnOk};
ghost use Rattle.node_trees.specs.Kinds.{IsElement};
ghost use Rattle.behaviours.specs.Next.{stop_of};
ghost use Rattle.ce_algorithms.specs.Drain.{log_call};
ghost use Rattle.ce_algorithms.specs.Page.{definition_of};
ghost use Rattle.ce_algorithms.specs.Steps.{Goes};
ghost use Rattle.frame_stack.specs.Resumes.{IsForSession, Proceeds, Resumes};
ghost use Rattle.frame_stack.specs.Stacked.{HasBody, frames_of};
ghost use Rattle.session_state.specs.Steps.{callee};

use crate::State;
use behaviours::Next;
use ce_base::{ClassNo, NoMemory, NodeNo};
use ce_events::call_event;
use frame_stack::Stack;
use reaction_queue::Reaction;
use std::alloc::Global;

impl State {
    /// The class of an element's definition, whose callback a reaction runs (HTML Standard, section "Custom element
    /// reactions"). None exactly where it has none. What has one is an element.
    pub fn callee(&self, e: NodeNo) -> Option<ClassNo>
        ensures class { result ≡ callee (definition_of self.now.page e) }
        ensures element { IfSome result (λ class. IsElement self.now.page.forest e) }
    {
        match self.page.definition_of(e) {
            None => None,
            Some(d) => Some(d.class),
        }
    }

    /// Logs the line of a callback that starts (HTML Standard, section "Custom element reactions"); of an upgrade none.
    /// NoMemory: see `State`.
    pub fn log_call(&mut self, alloc: Global, e: NodeNo, r: &Reaction) -> Result<(), NoMemory>
        ensures logged { OnOk result (Goes tt self.new ≡ log_call e r.now self.old) }
        ensures page { self.new.page ≡ self.old.page }
    {
        match call_event(alloc, r, e)? {
            None => Ok(()),
            Some(line) => {
                self.log(line)?;
                Ok(())
            }
        }
    }

    /// Runs the body on top of a stack up to its next stop, on the fuel of the session. NoMemory: memory was refused,
    /// and the state and the stack are only dropped.
    pub fn resume(&mut self, alloc: Global, stack: &mut Stack) -> Result<Next, NoMemory>
        requires { HasBody (frames_of stack.old) }
        ensures resumed { IfOk result (λ next. Resumes stack.old stack.new self.old.fuel self.new.fuel next) }
        ensures action { IfOk result (λ next. IsForSession (stop_of next)) }
        ensures rest { self.new ≡ record self.old { fuel = self.new.fuel } }
        ensures spent { IfOk result (λ next. Proceeds (stop_of next) → self.new.fuel < self.old.fuel) }
        ensures room { IfOk result (λ next. Proceeds (stop_of next) → self.new.page.queues.pushed + self.new.fuel + 1 < 2 ^ 64) }
    {
        stack.resume(alloc, &mut self.fuel)
    }
}
