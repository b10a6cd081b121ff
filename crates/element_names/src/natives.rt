// The elements of HTML that forms are about.

/// An element of HTML that forms are about (HTML Standard, section "Forms"), or any other.
#[derive(Clone, Copy, Debug, PartialEq, Eq)]
pub enum Native {
    /// `form`.
    Form,
    /// `fieldset`.
    Fieldset,
    /// `legend`.
    Legend,
    /// `button`.
    Button,
    /// `input`.
    Input,
    /// `select`.
    Select,
    /// `optgroup`.
    Optgroup,
    /// `option`.
    OptionItem,
    /// `textarea`.
    Textarea,
    /// `datalist`.
    Datalist,
    /// Any other element.
    Other,
}
