// Forms at top level.
ghost use Rattle.std.specs.Prelude.{◌≡◌, []};
ghost use Rattle.rule_tokens.specs.Gives.{GivesSeen};
ghost use Rattle.rule_lines.specs.Acts.{line_of};
ghost use Rattle.rule_reader.specs.declared.form.Leaf.TheVariants as leaves;
ghost use Rattle.rule_script.specs.Place.{placed_within};

use crate::body_operands::{has_body_operand, is_this};
use rule_lines::{ClassPart, Cmd, Line, Op};
use rule_reader::Leaf;
use rule_tokens::{Bad, LineRefused, Operand, Val};

// `user edit` takes a text at top level, and no node of a body.
#[tactic(auto, using(crate::proofs::OperandLaws::operand_steps))]
fn edit(node: Operand, value: Val) -> Result<Line, LineRefused>
    ensures { GivesSeen line_of result (placed_within [] (leaves.UserEdit node value)) }
{
    if is_this(&node) {
        return Err(LineRefused::Bad(Bad::Place));
    }
    match value {
        Val::Fixed(value) => Ok(Line::Command(Cmd::UserEdit { node, value })),
        _ => Err(LineRefused::Bad(Bad::Place)),
    }
}

// `user restore` takes a text at top level, and no node of a body.
#[tactic(auto, using(crate::proofs::OperandLaws::operand_steps))]
fn restore(node: Operand, value: Val) -> Result<Line, LineRefused>
    ensures { GivesSeen line_of result (placed_within [] (leaves.UserRestore node value)) }
{
    if is_this(&node) {
        return Err(LineRefused::Bad(Bad::Place));
    }
    match value {
        Val::Fixed(value) => Ok(Line::Command(Cmd::UserRestore { node, value })),
        _ => Err(LineRefused::Bad(Bad::Place)),
    }
}

// `user autofill` takes a text at top level, and no node of a body.
#[tactic(auto, using(crate::proofs::OperandLaws::operand_steps))]
fn autofill(node: Operand, value: Val) -> Result<Line, LineRefused>
    ensures { GivesSeen line_of result (placed_within [] (leaves.UserAutofill node value)) }
{
    if is_this(&node) {
        return Err(LineRefused::Bad(Bad::Place));
    }
    match value {
        Val::Fixed(value) => Ok(Line::Command(Cmd::UserAutofill { node, value })),
        _ => Err(LineRefused::Bad(Bad::Place)),
    }
}

// Lets the operation go, since it may not stand there.
fn misplaced(op: Op) -> LineRefused
    ensures { result ≡ LineRefused.Bad Bad.Place }
{
    drop(op);
    LineRefused::Bad(Bad::Place)
}

// An operation has no operand of a body at top level.
#[tactic(auto, using(crate::proofs::OperandLaws::operand_steps))]
fn operation(op: Op) -> Result<Line, LineRefused>
    ensures { GivesSeen line_of result (placed_within [] (leaves.Both op)) }
{
    if has_body_operand(&op) {
        return Err(misplaced(op));
    }
    Ok(Line::Command(Cmd::Both(op)))
}

// `user check` takes no node of a body at top level.
#[tactic(auto, using(crate::proofs::OperandLaws::operand_steps))]
fn check(node: Operand, on: bool) -> Result<Line, LineRefused>
    ensures { GivesSeen line_of result (placed_within [] (leaves.UserCheck node on)) }
{
    if is_this(&node) {
        return Err(LineRefused::Bad(Bad::Place));
    }
    Ok(Line::Command(Cmd::UserCheck { node, on }))
}

// `user choose` takes no node of a body at top level.
#[tactic(auto, using(crate::proofs::OperandLaws::operand_steps))]
fn choose(node: Operand, on: bool) -> Result<Line, LineRefused>
    ensures { GivesSeen line_of result (placed_within [] (leaves.UserChoose node on)) }
{
    if is_this(&node) {
        return Err(LineRefused::Bad(Bad::Place));
    }
    Ok(Line::Command(Cmd::UserChoose { node, on }))
}

// `user reset` takes no node of a body at top level.
#[tactic(auto, using(crate::proofs::OperandLaws::operand_steps))]
fn reset(form: Operand) -> Result<Line, LineRefused>
    ensures { GivesSeen line_of result (placed_within [] (leaves.UserReset form)) }
{
    if is_this(&form) {
        return Err(LineRefused::Bad(Bad::Place));
    }
    Ok(Line::Command(Cmd::UserReset { form }))
}

// `user press` takes no node of a body at top level.
#[tactic(auto, using(crate::proofs::OperandLaws::operand_steps))]
fn press(node: Operand) -> Result<Line, LineRefused>
    ensures { GivesSeen line_of result (placed_within [] (leaves.UserPress node)) }
{
    if is_this(&node) {
        return Err(LineRefused::Bad(Bad::Place));
    }
    Ok(Line::Command(Cmd::UserPress { node }))
}

/// What the form says at top level.
#[tactic(auto, using(crate::proofs::OperandLaws::operand_steps))]
pub(crate) fn at_top(leaf: Leaf) -> Result<Line, LineRefused>
    ensures { GivesSeen line_of result (placed_within [] leaf) }
{
    match leaf {
        Leaf::Both(op) => operation(op),
        Leaf::Doc { var } => Ok(Line::Command(Cmd::Doc { var })),
        Leaf::UserEdit { node, value } => edit(node, value),
        Leaf::UserCheck { node, on } => check(node, on),
        Leaf::UserChoose { node, on } => choose(node, on),
        Leaf::UserReset { form } => reset(form),
        Leaf::UserRestore { node, value } => restore(node, value),
        Leaf::UserAutofill { node, value } => autofill(node, value),
        Leaf::UserPress { node } => press(node),
        Leaf::Class(name) => Ok(Line::Part(ClassPart::Class(name))),
        Leaf::Has { class, call } => Ok(Line::Part(ClassPart::Has { class, call })),
        Leaf::Observe { class, names } => Ok(Line::Part(ClassPart::Observe { class, names })),
        Leaf::Associate(class) => Ok(Line::Part(ClassPart::Associate(class))),
        Leaf::DisableShadow(class) => Ok(Line::Part(ClassPart::DisableShadow(class))),
        Leaf::DisableInternals(class) => Ok(Line::Part(ClassPart::DisableInternals(class))),
        leaf => {
            drop(leaf);
            Err(LineRefused::Bad(Bad::Place))
        }
    }
}
