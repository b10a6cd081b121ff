//! Laws on node trees, about the definitions of node_trees alone: what is read at a node by the part of the trees that it
//! stands in, and what is a node; what each change of a forest does to what is read of it; what comes next in an order; and
//! rows, nodes that are linked by their numbers, which stand for one forest at most. They stand in `proofs/`, where the
//! proofs of the layers above cite them.
#![tactic(auto)]

mod laws;

pub use laws::{making_a_node_changes_no_other, what_is_read_is_a_node};
