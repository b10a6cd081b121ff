//! Form submission as definitions: the entry list of a form, what it is as the body of a request, and what a
//! submission sends or what blocks it (HTML Standard, section "Form submission"). The definitions stand in
//! `specs/`; the types that they share with code stand here, and the worked examples that they compute.
#![tactic(auto)]

mod boundary;
mod plan;
mod scheme;
mod site;
mod worked;

pub use boundary::is_boundary;
pub use plan::{Plan, Why};
pub use scheme::is_web;
pub use site::Site;
pub use worked::{
    worked_actions, worked_bodies, worked_button, worked_causes, worked_entries, worked_groups,
    worked_texts, worked_validation,
};
