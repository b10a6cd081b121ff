//! The machine as one loop over frames, as definitions that compute; and that it is the model of the Standard's
//! algorithms.
//!
//! The definitions stand in `specs/`: the kinds of frames (`Frames`), what the algorithms still do after each
//! (`After`, `Rest`), what one turn does (`Turns`), and the loop (`Loop`); and where the behaviours of classes are
//! meanwhile (`Places`), beside a state that is kept without them (`Whole`). There is no code to run.
#![tactic(auto)]

mod laws;

pub use laws::{
    a_behaviour_is_in_one_place, a_command_begins, a_turn_goes_on, no_frame_reads_the_log,
    the_loop_is_the_model, the_topmost_ends_first, what_waits_reads_no_behaviour,
};
