//! What a submission sends, or what blocks it (HTML Standard, section "Form submission algorithm").
#![tactic(auto)]

mod action;
mod attributes;
mod body;
mod hindering;
mod planning;
mod sending;
mod size;

pub use form_submission::{Plan, Why};
pub use planning::plan;
