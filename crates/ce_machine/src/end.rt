// How a command ended.

/// How a command ended.
#[derive(Clone, Copy, Debug, PartialEq, Eq)]
pub enum End {
    /// It was run, and replied to.
    Replied,
    /// The fuel is spent, and the session has ended.
    FuelSpent,
}
