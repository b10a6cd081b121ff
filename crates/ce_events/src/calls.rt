// The lines of callbacks.
ghost use Rattle.std.specs.Prelude.{◌≡◌, IfOk};
ghost use Rattle.ce_events.specs.Calls.{SaysItsCall, call_event, call_of};

use crate::event::Event;
use ce_base::{NoMemory, NodeNo, copy_of};
use reaction_queue::Reaction;
use rule_tokens::CallName;
use std::alloc::Global;

/// The line of a callback that starts, where the reaction of the element is one (HTML Standard, section "Custom element
/// reactions"). None exactly where it is an upgrade. NoMemory: memory was refused.
pub fn call_event(alloc: Global, r: &Reaction, e: NodeNo) -> Result<Option<Event>, NoMemory>
    ensures { IfOk result (λ line. line ≡ call_event r.now e) }
{
    match r {
        Reaction::Upgrade(_) => Ok(None),
        Reaction::Connected => Ok(Some(Event::Connected(e))),
        Reaction::Disconnected => Ok(Some(Event::Disconnected(e))),
        Reaction::Adopted(old, new) => Ok(Some(Event::Adopted(e, *old, *new))),
        Reaction::Attribute(name, old, new) => Ok(Some(Event::Attribute(
            e,
            name.copy(alloc)?,
            copy_of(alloc, old)?,
            copy_of(alloc, new)?,
        ))),
        Reaction::FormAssociated(form) => Ok(Some(Event::FormAssociated(e, *form))),
        Reaction::FormDisabled(disabled) => Ok(Some(Event::FormDisabled(e, *disabled))),
        Reaction::FormReset => Ok(Some(Event::FormReset(e))),
        Reaction::FormStateRestore(state, why) => Ok(Some(Event::FormStateRestore(
            e,
            state.copy(alloc)?,
            *why,
        ))),
    }
}

impl Event {
    /// The element of a callback's line, and which callback starts. None exactly where it is another line.
    pub fn call(&self) -> Option<(NodeNo, CallName)>
        ensures { result ≡ call_of self.now }
    {
        match self {
            Event::Connected(n) => Some((*n, CallName::Connected)),
            Event::Disconnected(n) => Some((*n, CallName::Disconnected)),
            Event::Adopted(n, _, _) => Some((*n, CallName::Adopted)),
            Event::Attribute(n, _, _, _) => Some((*n, CallName::Attribute)),
            Event::FormAssociated(n, _) => Some((*n, CallName::FormAssociated)),
            Event::FormDisabled(n, _) => Some((*n, CallName::FormDisabled)),
            Event::FormReset(n) => Some((*n, CallName::FormReset)),
            Event::FormStateRestore(n, _, _) => Some((*n, CallName::FormStateRestore)),
            _ => None,
        }
    }
}

/// The line that a reaction writes says the reaction's element and callback.
pub fn a_line_says_its_call()
    ensures { SaysItsCall }
{}
