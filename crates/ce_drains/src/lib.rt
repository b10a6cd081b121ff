//! Turns of drains: of a popped queue, of the backup element queue, and of the checkpoint of a command. What begins a
//! construction or a creation is passed on.
#![tactic(auto)]

mod drains;

pub use ce_reactions::constructions::construct;
pub use ce_reactions::creations::create_named;
pub use drains::{backup_turn, check_turn, drain_turn, pop_turn, reply};
