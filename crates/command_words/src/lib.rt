//! What the words of a call mean.
#![tactic(auto)]

mod choice;
mod page_url;
mod values;
mod words;

pub use words::{Meaning, Options};
