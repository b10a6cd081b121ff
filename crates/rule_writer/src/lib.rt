//! Writes what a line says as its canonical tokens, with one space between them.
#![tactic(auto)]

mod action;
mod laws;
mod line;
mod many;
mod op;
mod operand_text;
mod operand_words;
mod optional;
mod piece;

pub use laws::forms_are_canonical;
pub use line::as_line;
