// What no line of a script asks of controls: which options are chosen, what was set, and how long values are.
use crate::calls::{make, node};
use ce_base::{NodeNo, Text};
use control_state::*;
use node_arena::Tree;
use std::alloc::Global;
use std::process::Abort;
use std::test::Fail;

// A select (2) with an option (3).
fn grow(rt: &impl Abort, alloc: Global, tree: &mut Tree) -> Result<(), Fail> {
    make(alloc, tree, "select")?;
    make(alloc, tree, "option")?;
    let select = node(rt, tree, 2);
    let option = node(rt, tree, 3);
    assert!(rt; tree.may_insert(select, option, None).is_ok() && tree.parent(option).is_none());
    tree.insert(alloc, select, option, None)?;
    Ok(())
}

// Sees that the option, which is not set, is the first chosen one.
fn first(rt: &impl Abort, tree: &Tree, kept: &ControlTable) {
    assert!(rt; matches!(kept.first_chosen(tree, node(rt, tree, 2)), Some(NodeNo(3))));
    assert!(rt; !kept.flagged(tree, node(rt, tree, 3)));
}

// Sees that the option, which is set, is the only chosen one.
fn only(rt: &impl Abort, alloc: Global, tree: &Tree, kept: &ControlTable) -> Result<(), Fail> {
    let chosen = kept.chosen(alloc, tree, node(rt, tree, 2))?;
    assert!(rt; chosen.len() == 1 && matches!(chosen.get(0), Some(NodeNo(3))));
    assert!(rt; kept.flagged(tree, node(rt, tree, 3)));
    Ok(())
}

// The option of a select is chosen before and after it is set.
fn set(rt: &impl Abort, alloc: Global, tree: &Tree, kept: &mut ControlTable) -> Result<(), Fail> {
    first(rt, tree, kept);
    kept.set_flag(alloc, node(rt, tree, 3), true)?;
    only(rt, alloc, tree, kept)
}

#[test]
fn an_option_that_is_set_is_chosen(rt: HostRuntime) -> Result<(), Fail> {
    let mut tree = Tree::make(rt.alloc())?;
    grow(&rt, rt.alloc(), &mut tree)?;
    set(&rt, rt.alloc(), &tree, &mut ControlTable::make(rt.alloc()))
}

// A textarea (2) is typed into.
fn type_in(
    rt: &impl Abort,
    alloc: Global,
    tree: &Tree,
    kept: &mut ControlTable,
) -> Result<(), Fail> {
    let area = node(rt, tree, 2);
    assert!(rt; kept.is_empty(tree, area) && !kept.edited(area));
    kept.set_value(alloc, tree, area, Text::of(alloc, "x\r\ry")?, true)?;
    assert!(rt; kept.edited(area) && kept.units(tree, area) == 4);
    Ok(())
}

#[test]
fn what_is_typed_has_a_length_and_is_an_edit(rt: HostRuntime) -> Result<(), Fail> {
    let mut tree = Tree::make(rt.alloc())?;
    make(rt.alloc(), &mut tree, "textarea")?;
    type_in(&rt, rt.alloc(), &tree, &mut ControlTable::make(rt.alloc()))
}
