// What a form-associated custom element submits, or keeps as its state.
use ce_base::{Entries, Text};

/// A submission value, or a state (HTML Standard, section "Form-associated custom elements").
#[derive(Drop)]
pub enum Value {
    /// None.
    Nothing,
    /// One text, which the element's name is sent with.
    One(Text),
    /// A list of entries, which have names of their own.
    Many(Entries),
}
