//! The law of order over logs, as definitions: what a log may say, without a word of the algorithms. And that
//! the log of each session keeps it. The definitions stand in `specs/`.
#![tactic(auto)]

mod laws;
mod nesting;
mod samples;
mod sessions;

pub use laws::{
    each_backup_is_drained, each_drop_is_part_of_a_throw, each_element_is_upgraded_once,
    each_element_keeps_its_order, each_front_is_lawful, each_queue_closes_empty,
    each_reaction_is_taken_once, each_reply_leaves_none, fuel_ends_the_log, numbers_count_up,
};
pub use nesting::{
    each_drop_is_in_its_upgrade, each_end_is_of_the_innermost, each_reaction_has_its_line,
    each_reply_is_outside, each_upgrade_is_where_it_may,
};
pub use samples::{
    closes_empty_refuses, counts_up_refuses, drops_by_throw_refuses, fuel_is_last_refuses,
    nests_refuses, replies_at_rest_refuses, runs_in_order_refuses, runs_once_refuses,
    upgrades_once_refuses, worked_logs_are_lawful,
};
pub use sessions::{each_script_is_lawful, each_session_is_lawful};
