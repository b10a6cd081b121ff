//! What ElementInternals keeps of elements: submission values and states, validity flags and their message, and custom
//! states (HTML Standard, sections "Element internals", "Form-associated custom elements", "Custom state pseudo-class").
#![tactic(auto)]

mod attaching;
mod reading;
mod states;
mod table;
mod validity;
mod values;

pub use table::InternalsTable;
pub use validity::is_raised;
