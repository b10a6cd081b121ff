//! Form owners and disabled states, kept beside the tree, so that what is asked of them walks no tree (HTML Standard,
//! sections "Association of controls and forms", "Enabling and disabling form controls: the disabled attribute").
#![tactic(auto)]

mod candidates;
mod changes;
mod controls;
mod group;
mod involved;
mod laws;
mod looks;
mod moving;
mod reach;
mod reading;
mod renewal;
mod seeing;
mod settle;
mod table;
mod texts;
mod touch;
mod writing;

pub use changes::Changes;
pub use form_controls::Change;
pub use laws::{
    a_group_is_gone_through, a_node_document_changes_nothing, making_a_node_changes_nothing,
    only_members_count,
};
pub use owner_reading::is_listed;
pub use reading::is_in_datalist;
pub use table::OwnerTable;
pub use touch::Touch;
