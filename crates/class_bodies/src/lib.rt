//! The bodies of classes, what classes remember, and how a body runs up to its next stop.
#![tactic(auto)]

mod acting;
mod args;
mod bodies;
mod fixing;
mod laws;
mod memory;
mod next;

pub use acting::resume_in;
pub use args::Args;
pub use bodies::Bodies;
pub use laws::a_body_goes_on_where_it_stopped;
pub use memory::Memory;
pub use next::{At, Next};
