//! Which radio button of a group is checked, and whether a checkbox or a radio button is (HTML Standard, sections "Radio Button
//! state (type=radio)", "The input element").
#![tactic(auto)]

mod checked;

pub use checked::{checked_of, is_checked};
pub use form_owner;
