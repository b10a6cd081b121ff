//! The frame of a body of a class: how far the body is, and a place for the behaviour of the class, which has no copy.
#![tactic(auto)]

mod body;

pub use body::Body;
