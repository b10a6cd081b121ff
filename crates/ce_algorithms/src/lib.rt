//! The Standard's algorithms for custom elements and for forms, as definitions that compute.
//!
//! The definitions stand in `specs/`. This crate's own types are what the definitions and the code share: what
//! a session is run with, what the page tells of an enqueue, what a node has to be where an operand names it,
//! what operations come to, and what they give.
#![tactic(auto)]

mod create;
mod deed;
mod fit;
mod given;
mod laws;
mod note;
mod settings;

pub use create::first_state;
pub use deed::{ControlDeed, Deed, FormDeed, InternalsDeed, PageDeed, SubmitDeed};
pub use fit::Fit;
pub use given::Given;
pub use laws::{
    each_calls_the_others, no_command_throws, no_step_reads_the_log, worked_callbacks,
    worked_controls, worked_corners, worked_first, worked_internals, worked_owners, worked_resets,
    worked_submissions, worked_traces, worked_upgrades, worked_validity,
};
pub use note::Note;
pub use settings::Settings;
