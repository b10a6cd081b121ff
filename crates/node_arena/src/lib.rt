//! The tree of a page: nodes in an arena, named by their numbers. A contract sees nested lists, the forest
//! of all nodes that were made, and each call does to it what the definitions of node_trees say (DOM
//! Standard, sections "Trees", "Node tree", "Shadow tree").
#![tactic(auto)]

mod ancestors;
mod attributes;
mod facts;
mod ids;
mod insertion;
mod listed;
mod making;
mod marks;
mod node;
mod noting;
mod orders;
mod reading;
mod removal;
mod siblings;
mod tree;

pub use listed::node_at;
pub use node_trees::NodeKind;
pub use tree::Tree;
