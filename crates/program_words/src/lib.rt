//! The words behind a program's name: those that it is given, and the text that says which it takes.
#![tactic(auto)]

mod given;
mod usage;

pub use given::{NoWords, words};
pub use usage::{Usage, Word};
