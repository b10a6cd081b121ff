//! Turns of reactions, and of the constructions, upgrades and creations that these and operations begin.
#![tactic(auto)]

pub mod constructions;
pub mod creations;
pub mod reactions;
pub mod upgrades;

pub use ce_outcomes::{Came, State, came_of};
