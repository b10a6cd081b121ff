// Texts of `form` attributes, and the nodes whose ID they are.
ghost use Rattle.std.specs.Prelude.{◌≡◌, ◌≢◌, ◌+◌, ◌-◌, ℕ, List, Some, codes, false, true};
ghost use Rattle.std.specs.BTreeSet.{contains};
ghost use Rattle.std.specs.Ordering.{nat_cmp};
ghost use Rattle.node_trees.specs.Nodes.{IsNode};
ghost use Rattle.node_trees.specs.Spots.{attribute_at};
ghost use Rattle.ordered_tables.specs.Held.{is_held, is_known};
ghost use Rattle.form_owner.specs.Attributes.{is_text};
ghost use Rattle.form_owner.specs.declared.looks.Look.TheVariants.{Nothing};
ghost use Rattle.form_owner.specs.Looks.{AreKept, IsTouching, IsUnnamed, SaysNoMore, known_by, known_with, look_at};
ghost use Rattle.form_owner.specs.Writing.{AreNoted};

use crate::Touch;
use crate::looks::Looks;
use crate::seeing::is_known;
use ce_base::NodeNo;
use node_arena::Tree;
use ordered_tables::IdIndex;
use owner_rows::{Row, form_seen_in};
use std::collections::BTreeSet;

/// From now on the IDs of these nodes are looked at.
fn mind_all(looks: &mut Looks, nodes: &BTreeSet<u64>)
    ensures here { (n : ℕ) → contains nat_cmp nodes.now n ≡ true → look_at looks.new (n - 1) ≢ Nothing }
    ensures less { (i : ℕ) → SaysNoMore (look_at looks.old i) (look_at looks.new i) }
{
    for number in nodes {
        looks.mind(NodeNo(*number));
    }
}

/// From now on the nodes whose ID a text is are looked at, where it never was anybody's `form` attribute.
fn mind_text(tree: &Tree, named: &IdIndex, looks: &mut Looks, text: &str)
    ensures less { (i : ℕ) → SaysNoMore (look_at looks.old i) (look_at looks.new i) }
    ensures ids { (i : ℕ) → look_at looks.new i ≡ Nothing → IsUnnamed tree.now (is_known named.now) (i + 1) →
        (id : List ℕ) → attribute_at tree.now (i + 1) (codes "id") ≡ Some id → is_text id (Some text.now) ≡ false }
{
    if is_known(named, text) {
        return;
    }
    if let Some(nodes) = tree.with_id(text) {
        mind_all(looks, nodes);
    }
}

/// The same of the text of an element's `form` attribute, where it is not what was seen.
fn mind_form(tree: &Tree, rows: &[Row], named: &IdIndex, looks: &mut Looks, n: NodeNo)
    requires node { IsNode tree.now n }
    requires noted { AreNoted rows.now (is_held named.now) }
    ensures { AreKept tree.now (is_known named.now) (known_with n tree.now (is_known named.now)) looks.old looks.new }
{
    let old = form_seen_in(rows, n);
    let new = tree.attr(n, "form");
    if old != new {
        match new {
            None => {}
            Some(text) => mind_text(tree, named, looks, text),
        }
    }
}

/// Before what a touch changed is seen: the same, where it changed an attribute of an element. What is noted of the other
/// nodes is so with the texts that are seen then, too.
pub(crate) fn mind_touched(
    tree: &Tree,
    rows: &[Row],
    named: &IdIndex,
    looks: &mut Looks,
    touch: Touch,
)
    requires touching { IsTouching touch tree.now }
    requires noted { AreNoted rows.now (is_held named.now) }
    ensures { AreKept tree.now (is_known named.now) (known_by touch tree.now (is_known named.now)) looks.old looks.new }
{
    match touch {
        Touch::Inserted(_) => {}
        Touch::Removed { .. } => {}
        Touch::Attr(node) => mind_form(tree, rows, named, looks, node),
        Touch::Associated(..) => {}
    }
}
