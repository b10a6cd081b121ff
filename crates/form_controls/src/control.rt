// What a control keeps.
use ce_base::Text;

/// What a control, or an option, keeps of what was set (HTML Standard, sections "A form control's value",
/// "The input element", "The option element"). A dirty flag and what it guards are one: what is not dirty is
/// never read.
#[derive(Drop)]
pub struct Control {
    /// The raw value, where the dirty value flag is set.
    pub value: Option<Text>,
    /// The checkedness of an input, or the selectedness of an option, where its dirtiness is set.
    pub flag: Option<bool>,
    /// The user set the value last.
    pub edited: bool,
    /// The custom validity error message.
    pub message: Text,
}
