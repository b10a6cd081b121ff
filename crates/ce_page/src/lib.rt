//! The page: its trees, its form owners, its controls and internals, its definitions, its reactions, and the primitives
//! that change them.
#![tactic(auto)]

mod adoption;
mod attributes;
mod clone;
mod controls;
mod copying;
mod create;
mod define;
mod element;
mod enqueue;
mod insertion;
mod internals;
mod making;
mod page;
mod reads;
mod removal;
mod settling;
mod stacks;
mod stop;
mod telling;
mod upgrades;
mod waiting;
mod walk;

pub use ce_algorithms::Note;
pub use ce_registry::{Calls, ClassFacts, Definition, Registry};
pub use construction::Base;
pub use control_state::ControlTable;
pub use form_owner::OwnerTable;
pub use node_arena::{NodeKind, Tree};
pub use page::Page;
pub use reaction_queue::{ElementQueue, Mode, Reaction};
pub use stop::PageStop;
pub use walk::node_at;
