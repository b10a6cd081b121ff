//! What a line of a script says: the types of the whole language, and the forms of a line, which words and operands each wants,
//! and what a line's tokens are refused for.
#![tactic(auto)]

mod action;
mod ask_word;
mod keyword;
mod laws;
mod line;
mod op;
mod op_copy;
mod read_as;
mod vals;
mod word;

pub use action::Action;
pub use ask_word::AskWord;
pub use keyword::Keyword;
pub use laws::{
    canonical_tokens_are_clean, canonical_tokens_are_spelled, faults_are_apart, forms_are_read,
    what_is_spelled_is_read, worked_forms,
};
pub use line::{ClassPart, Cmd, Line};
pub use op::Op;
pub use read_as::{Kind, ReadAs};
pub use vals::Vals;
pub use word::Word;
