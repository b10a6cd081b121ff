// A node as the arena keeps it.
ghost use Rattle.std.specs.Prelude.{◌≡◌, []};
ghost use Rattle.node_trees.specs.Facts.{blank};
ghost use Rattle.node_arena.specs.NodeLinks.{facts_of, IsLoose};

use crate::attributes::Attributes;
use ce_base::{NodeNo, Text};
use node_trees::NodeKind;
use std::alloc::Global;

/// What is known of a node, and the numbers of those around it: its parent or its host, its shadow root, its first and last
/// child, the siblings before and behind it. A part that its kind lacks is None or empty.
#[derive(Drop)]
pub(crate) struct Node {
    pub(crate) kind: NodeKind,
    pub(crate) local: Option<Text>,
    pub(crate) is_value: Option<Text>,
    pub(crate) chars: Option<Text>,
    pub(crate) attributes: Attributes,
    pub(crate) document: NodeNo,
    pub(crate) parent: Option<NodeNo>,
    pub(crate) host: Option<NodeNo>,
    pub(crate) shadow: Option<NodeNo>,
    pub(crate) first: Option<NodeNo>,
    pub(crate) last: Option<NodeNo>,
    pub(crate) previous: Option<NodeNo>,
    pub(crate) next: Option<NodeNo>,
}

impl Node {
    /// A node of which only its kind and its node document are known.
    pub(crate) fn blank(alloc: Global, kind: NodeKind, document: NodeNo) -> Node
        ensures facts { facts_of result ≡ blank kind document }
        ensures loose { IsLoose result }
        ensures bare { result.attributes ≡ [] }
    {
        Node {
            kind,
            local: None,
            is_value: None,
            chars: None,
            attributes: Attributes::make(alloc),
            document,
            parent: None,
            host: None,
            shadow: None,
            first: None,
            last: None,
            previous: None,
            next: None,
        }
    }
}
