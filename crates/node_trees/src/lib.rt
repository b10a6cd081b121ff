//! Node trees as definitions: nested lists, what is read off them, and what becomes of them where a node is
//! made, inserted or removed. The definitions stand in `specs/`; the one type that they share with code is
//! what a node is.
#![tactic(auto)]

mod kind;
mod laws;

pub use kind::NodeKind;
pub use laws::worked_trees;
