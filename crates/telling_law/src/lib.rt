//! The law of telling: where a node is removed or put in, or an attribute changes, each custom form-associated element is
//! told of the change of its form owner and of its disabled state, as far as its definition has the callbacks, once, the owner
//! first, and no element is told of any other; where the fuel is spent, a first part of that. The definitions stand in `specs/`.
#![tactic(auto)]

mod laws;

pub use laws::{
    a_removal_tells_exactly, an_attribute_that_changes_tells_exactly, an_insertion_tells_exactly,
};
