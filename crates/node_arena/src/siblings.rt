// The links of a node to its parent and to the siblings beside it.
ghost use Rattle.std.specs.Prelude.{◌≡◌, ◌-◌, ◌<◌, Some, None, length};
ghost use Rattle.node_arena.specs.Writes.{follow, precede, stand, joined, parted};
ghost use Rattle.node_arena.specs.NodeLinks.{links, IsPlace, IsPlaceOrNone};

use crate::node::Node;
use ce_base::NodeNo;

/// Where the node with this number is kept.
pub(crate) fn index_of(n: NodeNo) -> usize
    requires { 0 < n }
    ensures { result ≡ n - 1 }
{
    (n.0 - 1) as usize
}

// Says what follows this child, or what the first child is.
fn follow(nodes: &mut [Node], parent: NodeNo, child: Option<NodeNo>, next: Option<NodeNo>)
    requires parent { IsPlace (length nodes.old) parent }
    requires child { IsPlaceOrNone (length nodes.old) child }
    ensures { links nodes.new ≡ follow parent child next (links nodes.old) }
{
    match child {
        Some(n) => {
            let at = index_of(n);
            nodes[at].next = next;
        }
        None => {
            let at = index_of(parent);
            nodes[at].first = next;
        }
    }
}

// Says what comes before this child, or what the last child is.
fn precede(nodes: &mut [Node], parent: NodeNo, child: Option<NodeNo>, previous: Option<NodeNo>)
    requires parent { IsPlace (length nodes.old) parent }
    requires child { IsPlaceOrNone (length nodes.old) child }
    ensures { links nodes.new ≡ precede parent child previous (links nodes.old) }
{
    match child {
        Some(n) => {
            let at = index_of(n);
            nodes[at].previous = previous;
        }
        None => {
            let at = index_of(parent);
            nodes[at].last = previous;
        }
    }
}

// Says where a node stands.
fn stand(
    nodes: &mut [Node],
    node: NodeNo,
    parent: Option<NodeNo>,
    previous: Option<NodeNo>,
    next: Option<NodeNo>,
)
    requires { IsPlace (length nodes.old) node }
    ensures { links nodes.new ≡ stand node parent previous next (links nodes.old) }
{
    let at = index_of(node);
    nodes[at].parent = parent;
    nodes[at].previous = previous;
    nodes[at].next = next;
}

/// Links a node below its parent, between these children.
pub(crate) fn join(
    nodes: &mut [Node],
    parent: NodeNo,
    node: NodeNo,
    previous: Option<NodeNo>,
    next: Option<NodeNo>,
)
    requires parent { IsPlace (length nodes.old) parent }
    requires node { IsPlace (length nodes.old) node }
    requires previous { IsPlaceOrNone (length nodes.old) previous }
    requires next { IsPlaceOrNone (length nodes.old) next }
    ensures { links nodes.new ≡ joined parent node previous next (links nodes.old) }
{
    let (before, behind) = (previous, next);
    stand(nodes, node, Some(parent), previous, next);
    follow(nodes, parent, before, Some(node));
    precede(nodes, parent, behind, Some(node));
}

/// Takes a node away from its parent and from the children beside it.
pub(crate) fn part(
    nodes: &mut [Node],
    parent: NodeNo,
    node: NodeNo,
    previous: Option<NodeNo>,
    next: Option<NodeNo>,
)
    requires parent { IsPlace (length nodes.old) parent }
    requires node { IsPlace (length nodes.old) node }
    requires previous { IsPlaceOrNone (length nodes.old) previous }
    requires next { IsPlaceOrNone (length nodes.old) next }
    ensures { links nodes.new ≡ parted parent node previous next (links nodes.old) }
{
    let (before, behind) = (previous, next);
    follow(nodes, parent, previous, next);
    precede(nodes, parent, behind, before);
    stand(nodes, node, None, None, None);
}
