//! The classes of a script, as its lines make them: their names, what a definition takes over from each, and
//! whether one has it. What a class does and remembers is kept apart.
#![tactic(auto)]

mod class;
mod classes;

pub use class::Class;
pub use classes::Classes;
