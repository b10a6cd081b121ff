// What ElementInternals keeps.
use crate::Value;
use ce_base::{Flags, Text};
use ordered_tables::TextSet;

/// What ElementInternals keeps of an element (HTML Standard, section "Element internals").
#[derive(Drop)]
pub struct Internals {
    /// The submission value.
    pub value: Value,
    /// The state.
    pub saved: Value,
    /// The validity flags.
    pub flags: Flags,
    /// The validation message, which is empty where no flag is set.
    pub message: Text,
    /// The custom states, each once, in the order of adding.
    pub states: TextSet,
}
