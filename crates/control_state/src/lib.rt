//! What native controls keep of what was set: values, checkedness, choices, custom messages (HTML Standard, sections "A form
//! control's value", "The input element", "The textarea element", "The select element", "The option element"), and what is read
//! of texts as they read them: newlines taken out or made one, white space collapsed, and the length in code units of UTF-16
//! (Infra Standard, section "Strings"). Lengths and emptiness take no memory.
#![tactic(auto)]

mod building;
mod bytes;
mod choosing;
mod counts;
mod emptiness;
mod flags;
mod laws;
mod lengths;
mod options;
mod resetting;
mod setting;
mod source;
mod table;
mod text_units;
mod values;

pub use building::{collapsed, normalized, without_newlines};
pub use counts::{CollapsedUnits, NormalizedUnits};
pub use emptiness::{is_only_newlines, is_only_whitespace};
pub use laws::{
    normalized_newlines_leave_something, stripped_newlines_are_asked_by_the_piece,
    white_space_is_asked_by_the_piece,
};
pub use lengths::is_option_empty;
pub use options::{first_option, is_multiple, options_of, select_of};
pub use table::ControlTable;
pub use text_units::{units, units_without_newlines};
pub use values::option_value;
