//! Made scripts: for each number one, with so many custom elements in a form. And the figures of a run: how many lines were
//! written and how many of them tell a call, and the summary of a run.
#![tactic(auto)]

mod figure_laws;
mod figures;
mod laws;
mod lines;
mod maker;
mod report;
mod script;
mod taken;

pub use figure_laws::figures_are_worked;
pub use figures::Figures;
pub use laws::{a_made_script_is_worked, made_scripts_are_lines};
pub use lines::line_count;
pub use maker::Maker;
pub use report::summary;
pub use script::made_script;
