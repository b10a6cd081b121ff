//! The construction stacks of custom element definitions.
#![tactic(auto)]

mod base;
mod stack;
mod stacks;

pub use base::Base;
pub use stacks::Stacks;
