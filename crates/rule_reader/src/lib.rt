//! Reads the tokens of a line into a flat form: what stands around an action, and the form in it.
#![tactic(auto)]

mod around;
mod attributes;
mod bodies;
mod classes;
mod controls;
mod custom_elements;
mod first;
mod form;
mod internals;
mod laws;
mod leaves;
mod pieces;
mod shapes;
mod takes;
mod tree;
mod users;

pub use form::{Leaf, Wrap};
pub use laws::{lines_are_read_by_the_table, operands_tell_forms};
pub use pieces::{Form, Wraps, form_of};
