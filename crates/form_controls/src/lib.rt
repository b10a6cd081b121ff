//! Form controls as definitions: which elements have a form owner, which are disabled, what controls and
//! ElementInternals keep, and which controls are invalid (HTML Standard, section "Form control
//! infrastructure"). The definitions stand in `specs/`; the types that they share with code stand here, and
//! what holds of them.
#![tactic(auto)]

mod attach;
mod change;
mod control;
mod corners;
mod internals;
mod laws;
mod value;
mod worked;

pub use attach::Attach;
pub use change::Change;
pub use control::Control;
pub use corners::{
    worked_groups, worked_kinds, worked_limits, worked_nesting, worked_selects, worked_states,
};
pub use internals::Internals;
pub use laws::changes_are_the_differences;
pub use value::Value;
pub use worked::{
    worked_controls, worked_disabled, worked_internals, worked_invalid_controls, worked_options,
    worked_owners, worked_validity,
};
