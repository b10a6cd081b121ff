// What decides whether an element may have internals.

/// What is known of an element where its internals are asked for (HTML Standard, section "Element
/// internals", `attachInternals`).
#[derive(Clone, Copy, PartialEq, Eq)]
pub struct Attach {
    /// It has an `is` value.
    pub has_is: bool,
    /// The look-up finds a definition for it.
    pub found: bool,
    /// That definition disables internals.
    pub off: bool,
    /// Its state is precustomized or custom.
    pub ready: bool,
}
