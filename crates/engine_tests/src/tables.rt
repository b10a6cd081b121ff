// The table of form owners that a page keeps, compared after each line of a script with what is read off its tree anew.
ghost use Rattle.std.specs.Prelude.{◌≡◌, ◌+◌, ◌<◌, ◌^◌, IfOk};

use crate::calls::node;
use crate::script::script_of;
use crate::worked::associated::{DISABLED, OWNERS};
use crate::worked::bodies::MOVED;
use crate::worked::controls::INVALID;
use crate::worked::forms::SUBMITTED;
use ce_base::{NodeNo, SureSink};
use ce_page::Page;
use command_words::Meaning;
use disabled_reading::disabled_of;
use owner_reading::owner_of;
use page_runner::Session;
use std::alloc::Global;
use std::process::Abort;
use std::test::Fail;

// The form owner of a node, read off the tree.
fn plain_owner(rt: &impl Abort, page: &Page, number: u64) -> Option<NodeNo> {
    let n = node(rt, page.tree(), number);
    owner_of(page.tree(), n, page.is_form_associated(n))
}

// The controls of a form, by a walk of its tree.
fn plain_controls(
    rt: &impl Abort,
    alloc: Global,
    page: &Page,
    form: NodeNo,
) -> Result<Vec<NodeNo>, Fail> {
    let tree = page.tree();
    let form = node(rt, tree, form.0);
    let order = tree.tree_order(alloc, tree.root(form))?;
    let mut controls = Vec::new(alloc);
    for i in 0..order.len() {
        if let Some(n) = order.get(i) {
            if plain_owner(rt, page, n.0) == Some(form) {
                controls.push(n)?;
            }
        }
    }
    Ok(controls)
}

// Sees that the table has of a node the form owner and the disabled state that are read off the tree.
fn same_state(rt: &impl Abort, page: &Page, number: u64, line: &str) {
    let (tree, owners) = (page.tree(), page.owners());
    let n = node(rt, tree, number);
    let associated = page.is_form_associated(n);
    let same = owners.associated(n) == associated
        && owners.owner(n) == plain_owner(rt, page, number)
        && owners.disabled(n) == disabled_of(tree, n, associated);
    assert!(rt; same, "of {number} at {line}");
}

// Sees that the table has of a node the controls that the walk finds.
fn same_controls(rt: &impl Abort, alloc: Global, page: &Page, number: u64) -> Result<(), Fail> {
    let n = node(rt, page.tree(), number);
    let controls = plain_controls(rt, alloc, page, n)?;
    assert!(rt; page.owners().controls(n) == controls.as_slice());
    Ok(())
}

fn same_page(rt: &impl Abort, alloc: Global, page: &Page, line: &str) -> Result<(), Fail> {
    assert!(rt; page.is_settled());
    for i in 0..page.tree().count() {
        same_state(rt, page, i + 1, line);
        same_controls(rt, alloc, page, i + 1)?;
    }
    Ok(())
}

// A session before its first line, without words.
fn begun(alloc: Global) -> Result<Session, Fail>
    ensures { IfOk result (λ s. s.line ≡ 0) }
{
    match Meaning::of(alloc, &Vec::new(alloc))? {
        Meaning::Script(options) => Ok(Session::make(alloc, options)?),
        _ => Err(Fail::from("no script")),
    }
}

// Runs a line, and sees the page after it.
fn stands_after(
    rt: &impl Abort,
    alloc: Global,
    session: Session,
    line: &str,
    sink: &mut SureSink,
) -> Result<Session, Fail>
    requires { session.line + 1 < 2 ^ 64 }
    ensures { IfOk result (λ s. s.line ≡ session.line + 1) }
{
    let (next, _) = session.line(alloc, line.as_bytes(), sink)?;
    match same_page(rt, alloc, next.page(), line) {
        Ok(()) => Ok(next),
        Err(fail) => {
            next.close();
            Err(fail)
        }
    }
}

// Sees the page after each line.
fn stands_each(rt: &impl Abort, alloc: Global, lines: &[&str]) -> Result<(), Fail> {
    let mut sink = SureSink::make(alloc);
    let mut session = begun(alloc)?;
    for i in 0..lines.len() {
        session = stands_after(rt, alloc, session, lines[i], &mut sink)?;
    }
    session.close();
    Ok(())
}

// Sees it after each line of a script.
fn stands(rt: &impl Abort, alloc: Global, text: &str) -> Result<(), Fail> {
    let script = script_of(alloc, text)?;
    let lines = script.lines().collect::<Vec<&str>>(alloc)?;
    stands_each(rt, alloc, &lines)
}

#[test]
fn the_table_is_what_is_read_off_the_tree(rt: HostRuntime) -> Result<(), Fail> {
    stands(&rt, rt.alloc(), OWNERS)?;
    stands(&rt, rt.alloc(), DISABLED)?;
    stands(&rt, rt.alloc(), SUBMITTED)?;
    stands(&rt, rt.alloc(), INVALID)?;
    stands(&rt, rt.alloc(), MOVED)
}
