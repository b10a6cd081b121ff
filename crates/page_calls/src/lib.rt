//! What is done on the page without a frame and without a body: deeds, with what each tests first, commands on controls, what
//! internals keep, resets of forms, and questions.
#![tactic(auto)]

mod attributes;
mod choices;
mod controls;
mod deeds;
pub mod fits;
mod groups;
mod internals;
mod outcome;
mod questions;
mod requests;
mod reset;
mod rivals;
mod shadow;
mod tree;
mod validation;

pub use attributes::lowercased;
pub use ce_page::{NodeKind, PageStop};
pub use controls::{choose, edit, run_on_controls, tick};
pub use deeds::{gives_node, gives_nothing, run};
pub use internals::run_on_internals;
pub use outcome::Outcome;
pub use questions::{answer, ask, asked_of, form_owner, is_disabled};
pub use requests::request_fit;
pub use reset::{reset_form, run_on_forms};
pub use shadow::disables_shadow;
