//! Constraint validation: who is barred from it, which validity flags an element has, and which controls of a form are invalid
//! (HTML Standard, sections "Constraints", "The constraint validation API").
#![tactic(auto)]

mod barred;
mod invalid;
mod limits;
mod missing;
mod validity_flags;

pub use barred::will_validate;
pub use checkedness;
pub use checkedness::form_owner;
pub use invalid::invalid_controls;
pub use validity_flags::flags;
