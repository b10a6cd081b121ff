//! What comes first in shadow-including tree order below a node (DOM Standard, section "Interface ShadowRoot",
//! "shadow-including preorder, depth-first traversal"): its shadow tree comes before its children.
#![tactic(auto)]

mod below;

pub use below::first_of;
