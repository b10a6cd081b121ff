//! Custom element definitions and their registry.
#![tactic(auto)]

mod class_facts;
mod definition;
mod entry;
mod registry;

pub use class_facts::{CALL_COUNT, Calls, ClassFacts, place_of};
pub use definition::Definition;
pub use registry::Registry;
