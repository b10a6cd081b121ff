// The validity flags of an element.

/// The validity flags of an element (HTML Standard, section "The constraint validation API"), in this
/// order: valueMissing, typeMismatch, patternMismatch, tooLong, tooShort, rangeUnderflow,
/// rangeOverflow, stepMismatch, badInput, customError.
#[derive(Clone, Copy)]
pub struct Flags(pub [bool; 10]);
