//! The machine: the lines of a script as they were read, one after another, on the state of a session.
#![tactic(auto)]

mod bodies;
mod command;
mod end;
mod looping;
mod machine;
mod operate;
mod react;
mod stops;
mod turns;
mod writing;

pub use ce_page::Page;
pub use end::End;
pub use machine::Machine;
