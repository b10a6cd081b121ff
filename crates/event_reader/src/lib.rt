//! Reads a line as the event that it must be, if it is the line of one.
//!
//! A reader looks only at what tells events apart. Whether the line is the event's shows when the event is written
//! again, as `read_event` of `ce_lines` does.
#![tactic(auto)]

mod answers;
mod calls;
mod guessing;
mod laws;
mod parts;
mod refused;
mod replies;
mod submissions;
mod traces;

pub use guessing::guess;
pub use laws::texts_tell_steps;
pub use refused::EventRefused;
