//! Events as the lines of a transcript, and lines read as events.
//!
//! What the line of an event is, is defined beside the type, in `ce_events`.
#![tactic(auto)]

mod answers;
mod calls;
mod event_line;
mod lists;
mod out;
mod reading;
mod replies;
mod submissions;
mod trace;
mod words;
mod written;

pub use ce_events::{Answer, Cause, Event};
pub use event_line::write_event;
pub use event_reader::EventRefused;
pub use out::write_out;
pub use reading::read_event;
pub use rule_tokens::quoted;
