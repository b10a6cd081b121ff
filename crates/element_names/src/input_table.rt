// Which kind of input a type is.
ghost use Rattle.std.specs.Prelude.{◌≡◌, option_copied};
ghost use Rattle.element_names.specs.InputKinds.{input_kind, is_plain_button, kind_of_type};

use crate::InputKind;

/// The kind of an input with this `type` attribute, or without one (HTML Standard, section "The input
/// element", "type"). Case does not count among ASCII letters; a text that names no kind is read as `Text`.
pub fn input_kind(kind_text: Option<&str>) -> InputKind
    ensures { result ≡ input_kind (option_copied kind_text.entry) }
{
    match kind_text {
        Some(text) => kind_of_type(text),
        None => InputKind::Text,
    }
}

fn kind_of_type(text: &str) -> InputKind
    ensures { result ≡ kind_of_type text.now }
{
    if text.eq_ignore_ascii_case("hidden") {
        InputKind::Hidden
    } else if text.eq_ignore_ascii_case("checkbox") {
        InputKind::Checkbox
    } else if text.eq_ignore_ascii_case("radio") {
        InputKind::Radio
    } else if text.eq_ignore_ascii_case("submit") {
        InputKind::Submit
    } else if text.eq_ignore_ascii_case("reset") {
        InputKind::Reset
    } else if is_plain_button(text) {
        InputKind::Button
    } else {
        InputKind::Text
    }
}

fn is_plain_button(text: &str) -> bool
    ensures { result ≡ is_plain_button text.now }
{
    text.eq_ignore_ascii_case("button")
        || text.eq_ignore_ascii_case("file")
        || text.eq_ignore_ascii_case("image")
}
