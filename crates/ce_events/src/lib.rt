//! What a session writes down: its events and the steps that it traces, and the text of each.
//!
//! The definitions stand in `specs/`. This crate's own types are what the model, the text and the code share.
#![tactic(auto)]

mod calls;
mod event;
mod words;

pub use calls::{a_line_says_its_call, call_event};
pub use event::{Answer, Cause, Event};
pub use words::{mode_word, truth_word};
