//! The form owner of a node, read off the tree (HTML Standard, section "Association of controls and forms").
#![tactic(auto)]

mod owner;

pub use owner::{is_listed, named_form, owner_of, where_form};
