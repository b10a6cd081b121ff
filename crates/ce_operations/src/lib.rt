//! Operations: `resolve` reads and tests the operands of one, and gives the deed that it comes to; `run` does the
//! steps of a deed on the state of a session. A creation may construct a class, for which its caller waits.
#![tactic(auto)]

pub mod deeds;
pub mod operands;
pub mod resolve;

pub use session_state::State;
