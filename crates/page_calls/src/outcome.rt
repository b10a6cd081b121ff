// What came of a command.

/// What came of a command on a control.
#[derive(Clone, Copy)]
pub enum Outcome {
    /// It was done.
    Done,
    /// The user may not do that: the control, or an option's select, is disabled, or a text control has `readonly`.
    Ignored,
}
