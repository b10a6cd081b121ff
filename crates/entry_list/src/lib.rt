//! The entry list of a form: the names and values that it sends (HTML Standard, section "Constructing the entry list").
#![tactic(auto)]

mod custom;
mod list;
mod native;
mod putting;
mod skipped;

pub use list::entries;
