// What touched the trees.
use ce_base::NodeNo;

/// What was done to the trees since the table stood for them.
#[derive(Clone, Copy, Debug)]
pub enum Touch {
    /// This root became a child.
    Inserted(NodeNo),
    /// This child became a root.
    Removed {
        /// The child.
        node: NodeNo,
        /// The parent that it had.
        parent: NodeNo,
    },
    /// An attribute of this element was set or taken away.
    Attr(NodeNo),
    /// The definition of this element was set or cleared: whether it is a form-associated custom element now.
    Associated(NodeNo, bool),
}
