//! The state of a session, and its steps: those of the page as steps of the session, the parts of classes, and
//! what a turn of the machine reads and takes: queues, their elements, reactions, and the callbacks that these
//! call; and the submission of forms. What was logged is written out by `flush` alone.
#![tactic(auto)]

mod callbacks;
mod construct;
mod deeds;
mod flush;
mod making;
mod parts;
mod queues;
mod state;
mod submission;
mod upgrade;
mod variables;

pub use page_calls;
pub use state::State;
