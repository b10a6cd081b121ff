//! The form owners and the disabled states of many nodes, read off the tree: what stands above a node is read once, and handed
//! down (HTML Standard, sections "Association of controls and forms", "Enabling and disabling form controls: the disabled
//! attribute"). And laws of locality: what a change of the trees leaves of form owners, of disabled states and of the orders of
//! trees.
#![tactic(auto)]

mod above;
mod holder;
mod known;
mod laws;
mod orders;
mod readings;

pub use laws::what_a_touch_leaves;
pub use orders::{
    an_attribute_leaves_the_orders, an_owner_stands_in_the_same_tree,
    the_order_of_a_tree_has_its_nodes, what_is_found_stays_where_another_tree_moves,
    what_stays_together_stays_in_order,
};
pub use readings::{Reading, Readings};
