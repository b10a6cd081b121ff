//! A whole run of a script: from the words and the source to the sink and a status, or in memory.
#![tactic(auto)]

mod asked;
mod bounded;
mod memory;
mod script;
mod top;

pub use command_words::{Meaning, Options};
pub use line_feed::Feed;
pub use memory::run_in_memory;
pub use script_runner::{Session, Status};
pub use top::{run, run_with};
