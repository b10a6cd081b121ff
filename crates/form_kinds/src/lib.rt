//! What a node is to forms, read off the tree: which element it is, of which kind a control is, and whether an attribute of it
//! is there (HTML Standard, section "Form control infrastructure").
#![tactic(auto)]

mod attributes;
mod kinds;

pub use attributes::{has_attribute, has_disabled, is_option_disabled, name_of};
pub use kinds::{has_kind, is_a, is_button, is_text_control, is_tickable, kind_of, native_at};
