//! Tables that find what is asked of them without going through a list: ordered sets and ordered maps of texts (Infra Standard,
//! sections "Ordered sets" and "Ordered maps"), elements by their ids (DOM Standard, section "Interface Element", "ID"), and
//! sets of nodes in the order of their numbers.
#![tactic(auto)]

mod id_index;
mod node_set;
mod text_map;
mod text_set;

pub use id_index::IdIndex;
pub use node_set::NodeSet;
pub use text_map::TextMap;
pub use text_set::TextSet;
