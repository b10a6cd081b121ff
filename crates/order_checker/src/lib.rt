//! The law of order as a book that is kept at hand while a log is read from its first event on: whether an event may come
//! next, and the book behind it. A contract sees the book of `order_law`.
#![tactic(auto)]

mod brackets;
mod checker;
mod clauses;
mod elements;
mod waits;
mod writing;

pub use checker::Checker;
