//! Behaviours, what classes do and remember, which have no copy, and their homes.
#![tactic(auto)]

mod behaviour;
mod homes;

pub use behaviour::Behaviour;
pub use class_bodies::{Args, At, Memory, Next, a_body_goes_on_where_it_stopped};
pub use homes::Homes;
