// What a node is.

/// What a node is (DOM Standard, section "Nodes"). There are no document fragments but shadow roots, and no
/// character data but text.
#[derive(Clone, Copy, Debug, PartialEq, Eq)]
pub enum NodeKind {
    /// A document.
    Document,
    /// An element.
    Element,
    /// A text node.
    TextNode,
    /// A shadow root, the root of a shadow tree.
    ShadowRoot,
}
