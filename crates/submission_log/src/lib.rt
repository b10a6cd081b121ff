//! What a submission logs: one event, of the page as it is at that moment.
#![tactic(auto)]

mod events;
mod logging;

pub use logging::submit;
