//! The elements that a definition may upgrade, and those that a call of `upgrade` goes through.
#![tactic(auto)]

mod candidate;
mod element;

pub use candidate::candidates;
pub use element::walk;
