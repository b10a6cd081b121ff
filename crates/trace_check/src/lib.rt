//! Traces checked against the law of order: whether the lines are those of a lawful log, and where not.
//!
//! The law is that of `order_law`; what is checked is the text alone, whoever wrote it.
#![tactic(auto)]

mod judging;
mod laws;
mod run;
mod status;
mod telling;
mod verdict;

pub use judging::check;
pub use laws::{each_front_of_a_trace_is_lawful, each_trace_has_one_verdict};
pub use run::check_run;
pub use status::CheckStatus;
pub use verdict::Verdict;
