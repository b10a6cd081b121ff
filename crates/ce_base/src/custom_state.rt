// The custom element state of an element.

/// The custom element state of an element (DOM Standard, section "Interface Element").
#[derive(Clone, Copy)]
pub enum CustomState {
    /// It may become custom, and no definition of its name has been met.
    Undefined,
    /// Its creation failed: the constructor threw, or what it gave does not fit. Or its upgrade threw before it came to the
    /// constructor.
    Failed,
    /// It is an element of the HTML Standard or one that can't become custom.
    Uncustomized,
    /// An upgrade came to its constructor, which is running, or threw, or gave another node.
    Precustomized,
    /// It is custom.
    Custom,
}
