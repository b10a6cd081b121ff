//! Whether a node is disabled, read off the tree (HTML Standard, section "Enabling and disabling form controls: the
//! disabled attribute").
#![tactic(auto)]

mod disabled;

pub use disabled::{disabled_of, is_disabled_fieldset, is_first_legend};
