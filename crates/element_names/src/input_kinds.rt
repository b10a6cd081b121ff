// The kinds of controls that a `type` attribute tells.

/// What its `type` attribute makes of an input, or of a button (HTML Standard, sections "The input element",
/// "The button element").
#[derive(Clone, Copy, Debug, PartialEq, Eq)]
pub enum InputKind {
    /// A text that is edited. An input of a type that is not listed is read as this one.
    Text,
    /// `hidden`: a value that nobody edits.
    Hidden,
    /// `checkbox`.
    Checkbox,
    /// `radio`: one of a group of radio buttons.
    Radio,
    /// `submit`: a button that submits a form.
    Submit,
    /// `reset`: a button that resets a form.
    Reset,
    /// `button`: a button that does nothing by itself. An input of the type `file` or `image` is read as this one.
    Button,
}
