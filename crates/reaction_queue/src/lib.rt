//! The reactions of custom elements that wait, and the element queues.
#![tactic(auto)]

mod chain;
mod element_queue;
mod laws;
mod queues;
mod reaction;
mod stack;
mod waiting;

pub use element_queue::ElementQueue;
pub use queues::Queues;
pub use reaction::{Mode, Reaction};
