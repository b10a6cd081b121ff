// Reads the line of an event.
ghost use Rattle.std.specs.Prelude.{◌≡◌, IfOk, Err};
ghost use Rattle.std.specs.Str.{bytes_eq};
ghost use Rattle.ce_events.specs.Text.{event_text};
ghost use Rattle.event_reader.specs.IsEvent.{IsEvent, IsNoText};
ghost use Rattle.ce_lines.specs.Reading.{IsKept};

use crate::event_line::write_event;
use ce_base::NoMemory;
use ce_events::Event;
use event_reader::{EventRefused, guess};
use std::alloc::Global;

fn has_text(alloc: Global, e: &Event, bytes: &[u8]) -> Result<bool, NoMemory>
    ensures { IfOk result (λ same. same ≡ bytes_eq (event_text e.now) bytes.now) }
{
    let text = write_event(alloc, e)?;
    Ok(text.as_str().as_bytes() == bytes)
}

// The event, where it is written so.
#[tactic(auto, using(ce_base::proofs::SameTexts::text_tests))]
fn kept(alloc: Global, e: Event, bytes: &[u8]) -> Result<Event, EventRefused>
    ensures { IsKept e bytes.now result }
{
    match has_text(alloc, &e, bytes) {
        Ok(same) => {
            if same {
                return Ok(e);
            }
            drop(e);
            Err(EventRefused::NotAnEvent)
        }
        Err(_) => {
            drop(e);
            Err(EventRefused::NoMemory)
        }
    }
}

/// The event that has these bytes as its text: the line of an event, without its line feed. Where several have
/// it, it is one of them. `NotAnEvent` comes only where no event has this text, `NoMemory` only where memory was
/// refused, and it tells nothing of the bytes.
#[tactic(auto, using(crate::proofs::ReadLaws::kept_events))]
pub fn read_event(alloc: Global, bytes: &[u8]) -> Result<Event, EventRefused>
    // The bytes are the text of the event that is read.
    ensures text { IfOk result (λ e. event_text e ≡ bytes.now) }

    // It is an event.
    ensures value { IfOk result IsEvent }

    // Where no event is read, they are the text of none.
    ensures none { result ≡ Err EventRefused.NotAnEvent → IsNoText bytes.now }
{
    match guess(alloc, bytes) {
        Ok(e) => kept(alloc, e, bytes),
        Err(refused) => Err(refused),
    }
}
