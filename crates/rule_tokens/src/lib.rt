//! The lexical part of the script language: the tokens of a line, with their quotes and escapes, and what
//! a token says as an operand.
#![tactic(auto)]

mod callback;
mod chars;
mod cutting;
mod escapes;
mod laws;
mod operand;
mod quoting;
mod refused;
mod token;
mod tokens;
mod validity;

pub use callback::{CallName, CallOrUpgrade};
pub use laws::{
    a_line_says_one_thing, flags_are_read, lines_are_answered, what_is_written_is_read,
    what_is_written_is_text,
};
pub use operand::{Operand, Val, call_name, class_name, is_word, node, text, value, variable};
pub use quoting::{push_quoted, quoted};
pub use refused::{Bad, LineRefused};
pub use token::{Token, Tokens};
pub use tokens::{text_in, tokens_of};
pub use validity::{flags, push_flags, push_names, raised};
