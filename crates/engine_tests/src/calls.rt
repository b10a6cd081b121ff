// Single calls of crates below the page and the session, each on its happy path.
ghost use Rattle.std.specs.Prelude.{◌≡◌};
ghost use Rattle.node_trees.specs.declared.kind.NodeKind.TheVariants.{Element as ElementKind};
ghost use Rattle.node_trees.specs.Nodes.{IsNode, IsTidy};
ghost use Rattle.node_trees.specs.Spots.{kind_at};

use crate::rows::same;
use behaviours::Homes;
use ce_base::{ClassNo, NodeNo, Text};
use node_arena::*;
use rule_tokens::quoted;
use std::alloc::Global;
use std::process::Abort;
use std::test::Fail;

// The node of this number.
pub(crate) fn node(rt: &impl Abort, tree: &Tree, n: u64) -> NodeNo
    ensures node { IsNode tree.now result }
    ensures tidy { IsTidy tree.now }
{
    assert!(rt; n >= 1 && n <= tree.count());
    NodeNo(n)
}

// The element of this number.
pub(crate) fn element(rt: &impl Abort, tree: &Tree, n: u64) -> NodeNo
    ensures node { IsNode tree.now result }
    ensures kind { kind_at tree.now result ≡ ElementKind }
{
    let n = node(rt, tree, n);
    assert!(rt; tree.kind(n) == NodeKind::Element);
    n
}

// Makes an element that stands nowhere yet.
pub(crate) fn make(alloc: Global, tree: &mut Tree, local: &str) -> Result<(), Fail> {
    tree.make_element(alloc, Text::of(alloc, local)?, None, NodeNo(1))?;
    Ok(())
}

// Attaches a shadow root (3) to an element (2).
fn attach(rt: &impl Abort, alloc: Global, tree: &mut Tree) -> Result<(), Fail> {
    make(alloc, tree, "div")?;
    let host = element(rt, tree, 2);
    assert!(rt; tree.shadow(host).is_none());
    tree.attach_root(alloc, host)?;
    Ok(())
}

#[test]
fn a_shadow_root_has_a_host(rt: HostRuntime) -> Result<(), Fail> {
    let mut tree = Tree::make(rt.alloc())?;
    attach(&rt, rt.alloc(), &mut tree)?;
    assert!(rt; tree.host(node(&rt, &tree, 3)) == Some(NodeNo(2)));
    Ok(())
}

#[test]
fn a_class_that_was_added_is_at_home(rt: HostRuntime) -> Result<(), Fail> {
    let mut homes = Homes::make(rt.alloc());
    let class = homes.add(rt.alloc())?;
    assert!(rt; homes.at_home(class));
    assert!(rt; !homes.at_home(ClassNo(7)));
    Ok(())
}

#[test]
fn a_text_is_quoted(rt: HostRuntime) -> Result<(), Fail> {
    let t = quoted(rt.alloc(), "a \"b\\\n\u{7f}é")?;
    same(&rt, t.as_str(), r#""a \"b\\\n\u{7f}é""#, "a text");
    Ok(())
}
