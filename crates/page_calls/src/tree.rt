// What deeds on the tree test first.
ghost use Rattle.std.specs.Prelude.{◌≡◌, ◌+◌, ◌<◌, ◌^◌};
ghost use Rattle.node_trees.specs.Nodes.{IsNode};
ghost use Rattle.ce_algorithms.specs.Perform.{adopt_node, detach, remove_child};
ghost use Rattle.ce_page.specs.Ends.{Does, Keeps, work};
ghost use Rattle.ce_page.specs.Numbers.{StaysWithin};

use ce_base::{Fault, Fuel, NodeNo};
use ce_page::{NodeKind, Page, PageStop};
use std::alloc::Global;

/// Removes a child of a parent (DOM Standard, section "Mutation algorithms", "pre-remove"). NotFoundError: the node is no
/// child of it.
pub(crate) fn remove_child(
    alloc: Global,
    page: &mut Page,
    fuel: &mut Fuel,
    parent: NodeNo,
    node: NodeNo,
) -> Result<(), PageStop>
    requires node { IsNode page.old.forest node }
    requires room { page.old.queues.reactions + fuel.old < 2 ^ 64 }
    ensures step { Does result (work page.new fuel.new) (remove_child parent node (work page.old fuel.old)) }
    ensures within { StaysWithin page.old page.new fuel.old fuel.new }
    ensures refused { Keeps result page.old page.new }
{
    if page.tree().parent(node) != Some(parent) {
        return Err(PageStop::Refused(Fault::NotFoundError));
    }
    page.remove_node(alloc, node, fuel)
}

/// Removes a node from its parent, if it has one (DOM Standard, section "Mixin ChildNode", `remove`). It refuses nothing.
pub(crate) fn detach(
    alloc: Global,
    page: &mut Page,
    fuel: &mut Fuel,
    node: NodeNo,
) -> Result<(), PageStop>
    requires node { IsNode page.old.forest node }
    requires room { page.old.queues.reactions + fuel.old < 2 ^ 64 }
    ensures step { Does result (work page.new fuel.new) (detach node (work page.old fuel.old)) }
    ensures within { StaysWithin page.old page.new fuel.old fuel.new }
    ensures refused { Keeps result page.old page.new }
{
    if page.tree().parent(node).is_none() {
        return Ok(());
    }
    page.remove_node(alloc, node, fuel)
}

/// Adopts a node, with all below it, into a document (DOM Standard, section "Interface Document", `adoptNode`).
/// NotSupportedError: the node is a document. HierarchyRequestError: it is a shadow root.
pub(crate) fn adopt(
    alloc: Global,
    page: &mut Page,
    fuel: &mut Fuel,
    document: NodeNo,
    node: NodeNo,
) -> Result<(), PageStop>
    requires node { IsNode page.old.forest node }
    requires room { page.old.queues.reactions + fuel.old < 2 ^ 64 }
    ensures step { Does result (work page.new fuel.new) (adopt_node document node (work page.old fuel.old)) }
    ensures within { StaysWithin page.old page.new fuel.old fuel.new }
    ensures refused { Keeps result page.old page.new }
{
    match page.tree().kind(node) {
        NodeKind::Document => Err(PageStop::Refused(Fault::NotSupportedError)),
        NodeKind::ShadowRoot => Err(PageStop::Refused(Fault::HierarchyRequestError)),
        NodeKind::Element => page.adopt_node(alloc, document, node, fuel),
        NodeKind::TextNode => page.adopt_node(alloc, document, node, fuel),
    }
}
