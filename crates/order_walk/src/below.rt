// What comes first below a node.
ghost use Rattle.std.specs.Prelude.{◌≡◌, MatchOption, Some};

use ce_base::NodeNo;

/// Of the shadow root of a node and its first child, the one that comes first in shadow-including tree order.
pub fn first_of(shadow: Option<NodeNo>, child: Option<NodeNo>) -> Option<NodeNo>
    ensures { MatchOption shadow (result ≡ child) (λ root. result ≡ Some root) }
{
    match shadow {
        Some(root) => Some(root),
        None => child,
    }
}
