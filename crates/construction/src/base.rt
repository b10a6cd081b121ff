// What a base call finds.
use ce_base::NodeNo;

/// What the base call of a constructor finds as the last entry of its definition's construction stack (HTML
/// Standard, section "HTML element constructors").
#[derive(Clone, Copy, Debug, PartialEq, Eq)]
pub enum Base {
    /// The stack is empty: a new element is made.
    Fresh,
    /// This element is constructed, and was not given by a base call before.
    Of(NodeNo),
    /// The already constructed marker.
    Already,
}
