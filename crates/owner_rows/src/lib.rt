//! What is kept of a node beside the tree, in rows: its form owner, whether it is disabled, whether it is a form-associated
//! custom element, the controls of a form, and what was last seen of its attributes (HTML Standard, sections "Association of
//! controls and forms", "Enabling and disabling form controls: the disabled attribute").
#![tactic(auto)]

mod control_list;
mod row;
mod rows;
mod seen;

pub use control_list::is_in;
pub use row::Row;
pub use rows::{
    associated_in, controls_in, disabled_in, disabled_seen_in, form_seen_in, id_seen_in, owner_in,
};
pub use seen::Seen;
