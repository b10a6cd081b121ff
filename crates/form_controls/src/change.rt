// What a change of the trees changes for one element.
use ce_base::NodeNo;

/// What became of an element's form owner and of its disabled state as the trees changed (HTML Standard,
/// section "Custom element reactions": formAssociatedCallback, formDisabledCallback).
#[derive(Clone, Copy)]
pub struct Change {
    /// The element.
    pub node: NodeNo,
    /// Its form owner, or that it has none now, where that differs from before.
    pub owner: Option<Option<NodeNo>>,
    /// Whether it is disabled now, where that differs from before.
    pub disabled: Option<bool>,
}
