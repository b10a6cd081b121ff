// What the table sees of an element's attributes.
ghost use Rattle.std.specs.Prelude.{◌≡◌, ◌<◌, ◌==◌, ◌-◌, ◌&&◌, ◌||◌, not, ℕ, List, false, true, if◌then◌else◌, length, OnOk};
ghost use Rattle.std.specs.Option.{option_copied};
ghost use Rattle.node_trees.specs.Nodes.{IsNode};
ghost use Rattle.ordered_tables.specs.Held.{is_held, is_known};
ghost use Rattle.form_owner.specs.Attributes.{is_naming, is_text};
ghost use Rattle.form_owner.specs.Looks.{KnowsBy, known_with};
ghost use Rattle.form_owner.specs.Writing.{AreNoted, AreSeen, AreSeenBy, IsSeenPlaced};

use crate::Touch;
use ce_base::{NoMemory, NodeNo};
use node_arena::Tree;
use ordered_tables::IdIndex;
use owner_rows::{Row, Seen, form_seen_in};
use std::alloc::Global;

/// Whether a text is known to be somebody's `form` attribute, or to have been. It stays known, so that no node is noted
/// a second time for one that comes and goes.
pub(crate) fn is_known(named: &IdIndex, text: &str) -> bool
    ensures { result ≡ is_known named.now text.now }
{
    named.group(text).is_some()
}

/// Notes a node for the text of its `form` attribute, where it has one.
fn note_form(
    alloc: Global,
    named: &mut IdIndex,
    form: Option<&str>,
    n: NodeNo,
) -> Result<(), NoMemory>
    ensures held { OnOk result ((id : List ℕ) (m : ℕ) →
        is_held named.new id m ≡ (is_held named.old id m || (n == m && is_text id (option_copied form.entry)))) }
    ensures known { OnOk result ((id : List ℕ) → is_known named.new id ≡ (is_known named.old id || is_text id (option_copied form.entry))) }
{
    if let Some(form) = form {
        named.add(alloc, form, n)?;
    }
    Ok(())
}

/// Notes it no more.
fn forget_form(named: &mut IdIndex, form: Option<&str>, n: NodeNo)
    ensures known { (id : List ℕ) → is_known named.new id ≡ is_known named.old id }
    ensures held { (id : List ℕ) (m : ℕ) → is_held named.new id m ≡ (is_held named.old id m && not (n == m && is_text id (option_copied form.entry))) }
{
    if let Some(form) = form {
        named.leave(form, n);
    }
}

/// A node is noted for the text of its `form` attribute, and no more for the one that was seen before.
fn rename(
    alloc: Global,
    tree: &Tree,
    rows: &[Row],
    named: &mut IdIndex,
    n: NodeNo,
) -> Result<(), NoMemory>
    requires node { IsNode tree.now n }
    requires noted { AreNoted rows.now (is_held named.old) }
    ensures known { OnOk result ((id : List ℕ) → known_with n tree.now (is_known named.old) id ≡ false → is_known named.new id ≡ false) }
    ensures held { OnOk result ((id : List ℕ) (m : ℕ) → is_held named.new id m ≡ (if n == m then is_naming tree.now id n else is_held named.old id m)) }
{
    let old = form_seen_in(rows, n);
    let new = tree.attr(n, "form");
    if old != new {
        forget_form(named, old, n);
        note_form(alloc, named, new, n)?;
    }
    Ok(())
}

/// Sees a node's attributes.
fn see(
    alloc: Global,
    tree: &Tree,
    rows: &mut [Row],
    named: &mut IdIndex,
    n: NodeNo,
) -> Result<(), NoMemory>
    requires node { IsNode tree.now n }
    requires within { n - 1 < length rows.old }
    requires noted { AreNoted rows.old (is_held named.old) }
    ensures known { OnOk result ((id : List ℕ) → known_with n tree.now (is_known named.old) id ≡ false → is_known named.new id ≡ false) }
    ensures seen { OnOk result (AreSeen tree.now n rows.old rows.new (is_held named.old) (is_held named.new)) }
{
    rename(alloc, tree, rows, named, n)?;
    let seen = Seen::of(alloc, tree, n)?;
    let row = &mut rows[n.place()];
    row.set_seen(seen);
    Ok(())
}

/// Sees the attributes of the element that a touch changed, if it changed some.
pub(crate) fn see_touched(
    alloc: Global,
    tree: &Tree,
    rows: &mut [Row],
    named: &mut IdIndex,
    touch: Touch,
) -> Result<(), NoMemory>
    requires placed { IsSeenPlaced touch tree.now (length rows.old) }
    requires noted { AreNoted rows.old (is_held named.old) }
    ensures known { OnOk result (KnowsBy touch tree.now (is_known named.old) (is_known named.new)) }
    ensures seen { OnOk result (AreSeenBy touch tree.now rows.old rows.new (is_held named.old) (is_held named.new)) }
{
    match touch {
        Touch::Inserted(_) => {}
        Touch::Removed { .. } => {}
        Touch::Attr(node) => see(alloc, tree, rows, named, node)?,
        Touch::Associated(..) => {}
    }
    Ok(())
}
