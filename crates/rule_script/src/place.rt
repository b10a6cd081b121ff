// Where a form may stand, and what it says there.
ghost use Rattle.std.specs.Prelude.{◌≡◌, ◌∷◌};
ghost use Rattle.rule_tokens.specs.Gives.{GivesSeen};
ghost use Rattle.rule_lines.specs.Acts.{line_of};
ghost use Rattle.rule_script.specs.Place.{placed, placed_within};

use crate::body::{action_of, declared, is_barred, nest};
use crate::top::at_top;
use rule_lines::Line;
use rule_reader::{Form, Leaf, Wrap};
use rule_tokens::{Bad, LineRefused};
use std::alloc::Global;

// Lets the form go, since it may not stand there.
fn misplaced(leaf: Leaf) -> LineRefused
    ensures { result ≡ LineRefused.Bad Bad.Place }
{
    drop(leaf);
    LineRefused::Bad(Bad::Place)
}

// What the form says under these, the outermost first.
#[tactic(auto, using(crate::proofs::NestingLaws::place_steps))]
fn in_body(alloc: Global, outer: &Wrap, inner: &[Wrap], leaf: Leaf) -> Result<Line, LineRefused>
    ensures { GivesSeen line_of result (placed_within (outer.now ∷ inner.now) leaf) }
{
    if is_barred(outer, inner, &leaf) {
        return Err(misplaced(leaf));
    }
    let action = action_of(leaf)?;
    let action = nest(alloc, inner, action)?;
    declared(alloc, outer, action)
}

/// What the form says, if it may stand where it stands.
pub(crate) fn placed(alloc: Global, form: Form) -> Result<Line, LineRefused>
    ensures { GivesSeen line_of result (placed form) }
{
    let Form { wraps, leaf } = form;
    match wraps.as_slice() {
        [] => at_top(leaf),
        [outer, inner @ ..] => in_body(alloc, outer, inner, leaf),
    }
}
