// Callbacks that start.
ghost use Rattle.std.specs.Prelude.{◌≡◌, IfOk};
ghost use Rattle.event_reader.specs.Calls.{adopted_of, attribute_of, call_by, call_of, form_associated_of, form_disabled_of, form_state_restore_of, mode_named};
ghost use Rattle.event_reader.specs.IsEvent.{IsEvent, IsNumber};
ghost use Rattle.event_reader.specs.Read.{Reads};

use crate::EventRefused;
use crate::parts::{node_in, node_or_none, text_of, text_or_none};
use ce_base::NodeNo;
use ce_events::Event;
use reaction_queue::Mode;
use rule_tokens::Token;
use std::alloc::Global;

fn adopted_of(n: NodeNo, tokens: &[Token]) -> Result<Event, EventRefused>
    requires { IsNumber n }
    ensures reads { Reads result (adopted_of n tokens.now) }
    ensures fits { IfOk result IsEvent }
{
    match tokens {
        [old, new] => {
            let old = node_in(old.text.as_str());
            Ok(Event::Adopted(n, old, node_in(new.text.as_str())))
        }
        _ => Err(EventRefused::NotAnEvent),
    }
}

fn attribute_of(alloc: Global, n: NodeNo, tokens: &[Token]) -> Result<Event, EventRefused>
    requires { IsNumber n }
    ensures reads { Reads result (attribute_of n tokens.now) }
    ensures fits { IfOk result IsEvent }
{
    match tokens {
        [name, old, new] => {
            let name = text_of(alloc, name)?;
            let old = text_or_none(alloc, old)?;
            let new = text_or_none(alloc, new)?;
            Ok(Event::Attribute(n, name, old, new))
        }
        _ => Err(EventRefused::NotAnEvent),
    }
}

fn form_associated_of(n: NodeNo, tokens: &[Token]) -> Result<Event, EventRefused>
    requires { IsNumber n }
    ensures reads { Reads result (form_associated_of n tokens.now) }
    ensures fits { IfOk result IsEvent }
{
    match tokens {
        [form] => Ok(Event::FormAssociated(n, node_or_none(form.text.as_str()))),
        _ => Err(EventRefused::NotAnEvent),
    }
}

fn form_disabled_of(n: NodeNo, tokens: &[Token]) -> Result<Event, EventRefused>
    requires { IsNumber n }
    ensures reads { Reads result (form_disabled_of n tokens.now) }
    ensures fits { IfOk result IsEvent }
{
    match tokens {
        [word] => Ok(Event::FormDisabled(n, word.text.as_str() == "true")),
        _ => Err(EventRefused::NotAnEvent),
    }
}

fn mode_named(word: &str) -> Mode
    ensures { result ≡ mode_named word.now }
{
    if word == "restore" {
        Mode::Restore
    } else {
        Mode::Autocomplete
    }
}

fn form_state_restore_of(alloc: Global, n: NodeNo, tokens: &[Token]) -> Result<Event, EventRefused>
    requires { IsNumber n }
    ensures reads { Reads result (form_state_restore_of n tokens.now) }
    ensures fits { IfOk result IsEvent }
{
    match tokens {
        [text, why] => {
            let why = mode_named(why.text.as_str());
            Ok(Event::FormStateRestore(n, text_of(alloc, text)?, why))
        }
        _ => Err(EventRefused::NotAnEvent),
    }
}

fn call_by(alloc: Global, n: NodeNo, word: &str, rest: &[Token]) -> Result<Event, EventRefused>
    requires { IsNumber n }
    ensures reads { Reads result (call_by n word.now rest.now) }
    ensures fits { IfOk result IsEvent }
{
    match word {
        "connected" => Ok(Event::Connected(n)),
        "disconnected" => Ok(Event::Disconnected(n)),
        "adopted" => adopted_of(n, rest),
        "attribute" => attribute_of(alloc, n, rest),
        "formAssociated" => form_associated_of(n, rest),
        "formDisabled" => form_disabled_of(n, rest),
        "formReset" => Ok(Event::FormReset(n)),
        "formStateRestore" => form_state_restore_of(alloc, n, rest),
        _ => Err(EventRefused::NotAnEvent),
    }
}

pub(crate) fn call_of(alloc: Global, tokens: &[Token]) -> Result<Event, EventRefused>
    ensures reads { Reads result (call_of tokens.now) }
    ensures fits { IfOk result IsEvent }
{
    match tokens {
        [n, word, rest @ ..] => {
            let n = node_in(n.text.as_str());
            call_by(alloc, n, word.text.as_str(), rest)
        }
        _ => Err(EventRefused::NotAnEvent),
    }
}
