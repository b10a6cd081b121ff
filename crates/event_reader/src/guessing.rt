// Reads a line as the event that it must be.
ghost use Rattle.std.specs.Prelude.{◌≡◌, IfOk, option_copied};
ghost use Rattle.ce_events.specs.Text.{event_text};
ghost use Rattle.ce_events.specs.declared.event.Event.{Event};
ghost use Rattle.event_reader.specs.Guessed.{IsGuessed};
ghost use Rattle.event_reader.specs.IsEvent.{IsEvent};
ghost use Rattle.event_reader.specs.Read.{Reads};
ghost use Rattle.event_reader.specs.Reading.{class_in, event_by, event_of, guess};

use crate::EventRefused;
use crate::answers::answer_of;
use crate::calls::call_of;
use crate::laws::texts_are_guessed;
use crate::parts::{begins_number, fault_of, number_in, texts_of};
use crate::replies::reply_of;
use crate::submissions::submit_of;
use crate::traces::trace_of;
use ce_base::{NoMemory, Text};
use ce_events::Event;
use rule_tokens::{Token, text_in, tokens_of};
use std::alloc::Global;

fn event_by(alloc: Global, word: &str, rest: &[Token]) -> Result<Event, EventRefused>
    ensures reads { Reads result (event_by word.now rest.now) }
    ensures fits { IfOk result IsEvent }
{
    match word {
        "call" => call_of(alloc, rest),
        "log" => Ok(Event::Logged(texts_of(alloc, rest)?)),
        "caught" => Ok(Event::Caught(fault_of(alloc, rest)?)),
        "report" => Ok(Event::Reported(fault_of(alloc, rest)?)),
        "ask" => Ok(Event::Asked(answer_of(alloc, rest)?)),
        "submit" => submit_of(alloc, rest),
        "fuel" => Ok(Event::FuelLine),
        "~" => trace_of(rest),
        _ => Err(EventRefused::NotAnEvent),
    }
}

fn event_of(alloc: Global, tokens: &[Token]) -> Result<Event, EventRefused>
    ensures reads { Reads result (event_of tokens.now) }
    ensures fits { IfOk result IsEvent }
{
    match tokens {
        [] => Err(EventRefused::NotAnEvent),
        [first, rest @ ..] => {
            let word = first.text.as_str();
            if begins_number(word) {
                return reply_of(alloc, number_in(word.as_bytes()), rest);
            }
            event_by(alloc, word, rest)
        }
    }
}

fn class_in(bytes: &[u8]) -> Option<&str>
    ensures { option_copied result ≡ class_in bytes.now }
{
    if !bytes.starts_with(b"construct ") {
        return None;
    }
    text_in(&bytes[10..])
}

fn construct(alloc: Global, class: &str) -> Result<Event, NoMemory>
    ensures same { IfOk result (λ e. e ≡ Event.Construct class.now) }
    ensures fits { IfOk result IsEvent }
{
    Ok(Event::Construct(Text::of(alloc, class)?))
}

#[tactic(auto, unfolding(crate::specs::Reading::guess))]
fn guess_of(alloc: Global, bytes: &[u8]) -> Result<Event, EventRefused>
    ensures reads { Reads result (guess bytes.now) }
    ensures fits { IfOk result IsEvent }
{
    if let Some(class) = class_in(bytes) {
        return Ok(construct(alloc, class)?);
    }
    match tokens_of(alloc, bytes.len(), bytes)? {
        None => Err(EventRefused::NotAnEvent),
        Some(tokens) => event_of(alloc, tokens.as_slice()),
    }
}

/// The event that must have these bytes as its text, if one has it. It may have another text. `NotAnEvent` comes
/// only where no event has the text, `NoMemory` only where memory was refused.
pub fn guess(alloc: Global, bytes: &[u8]) -> Result<Event, EventRefused>
    // Where they are the text of an event, it is an event with this text.
    ensures only { (e : Event) → IsEvent e → event_text e ≡ bytes.now → IsGuessed bytes.now result }

    // It is what the definition of its name reads off the bytes.
    ensures reads { Reads result (guess bytes.now) }

    // What is guessed is an event.
    ensures fits { IfOk result IsEvent }
{
    texts_are_guessed();
    guess_of(alloc, bytes)
}
