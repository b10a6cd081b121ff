// The nodes of a walk.
ghost use Rattle.std.specs.Prelude.{◌≡◌, ◌+◌, ◌<◌, ◌∷◌, Some, drop, length, slice_get};

use ce_base::{NodeNo, Nodes};

/// The node at a place of a walk.
pub fn node_at(walk: &Nodes, i: usize) -> NodeNo
    requires { i < length walk.now }
    ensures here { slice_get walk.now i ≡ Some result }
    ensures rest { drop i walk.now ≡ result ∷ drop (i + 1) walk.now }
{
    walk.get(i).unwrap()
}
