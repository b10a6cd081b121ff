//! How what was waited for has ended, and what comes then of constructions, upgrades and creations: turns that begin
//! nothing more. `create` has what a creation does before and after it constructs a class.
#![tactic(auto)]

mod came;
pub mod constructions;
pub mod create;
pub mod creations;
pub mod upgrades;

pub use came::{Came, came_from, came_of};
pub use session_state::page_calls::PageStop;
pub use session_state::{State, page_calls};
