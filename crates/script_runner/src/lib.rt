//! Runs a script line by line, in pieces as the source gives them, and scripts that are made.
#![tactic(auto)]

mod answers;
mod blank;
mod lines;
mod made;
mod pieces;
mod session;
mod status;

pub use made::run_made;
pub use pieces::run_script;
pub use session::Session;
pub use status::Status;
