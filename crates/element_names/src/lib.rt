//! The names of elements and attributes: which texts are local names, attribute names and custom
//! elements' names, and which local names are those of elements of HTML, of elements that may have a
//! shadow tree, or of elements that forms are about; and which kind of control a `type` attribute makes.
#![tactic(auto)]

mod attr_name;
mod custom_name;
mod input_kinds;
mod input_table;
mod known_html;
mod laws;
mod local_name;
mod name_char;
mod native_table;
mod natives;
mod reserved;
mod shadow_host;

pub use attr_name::is_attr_name;
pub use custom_name::is_custom_name;
pub use input_kinds::InputKind;
pub use input_table::input_kind;
pub use known_html::is_known_html;
pub use laws::custom_names_are_local_names;
pub use local_name::is_local_name;
pub use native_table::native;
pub use natives::Native;
pub use shadow_host::is_shadow_host;
