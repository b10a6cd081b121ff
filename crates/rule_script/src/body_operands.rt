// Operands that only a body has.
ghost use Rattle.std.specs.Prelude.{◌≡◌, Option, Some, None, false};
ghost use Rattle.std.specs.List.{list_any};
ghost use Rattle.rule_lines.specs.declared.read_as.ReadAs.TheVariants as read_as;
ghost use Rattle.rule_reader.specs.declared.form.Leaf.TheVariants as leaves;
ghost use Rattle.rule_reader.specs.AsRead.{leaf_as_read, part};
ghost use Rattle.rule_script.specs.Place.{has_body_operand, is_of_body, is_this, names_body};

use rule_lines::Op;
use rule_tokens::{Operand, Val};

/// Whether the operand is `this`.
pub(crate) fn is_this(node: &Operand) -> bool
    ensures { result ≡ is_this node.now }
{
    matches!(node, Operand::This)
}

// Whether the value is one with an @.
fn is_of_body(value: &Val) -> bool
    ensures { result ≡ is_of_body value.now }
{
    !matches!(value, Val::Fixed(_))
}

fn is_maybe_this(node: &Option<Operand>) -> bool
    ensures { result ≡ names_body (part read_as.Node node.now) }
{
    match node {
        None => false,
        Some(node) => is_this(node),
    }
}

fn is_maybe_of_body(value: &Option<Val>) -> bool
    ensures { result ≡ names_body (part read_as.Value value.now) }
{
    match value {
        None => false,
        Some(value) => is_of_body(value),
    }
}

/// Whether some operand of the operation is `this` or a value with an @.
#[tactic(auto, using(crate::proofs::OperandLaws::operand_steps))]
pub(crate) fn has_body_operand(op: &Op) -> bool
    ensures { result ≡ has_body_operand (leaves.Both op.now) }
{
    match op {
        Op::New { .. } | Op::Define { .. } => false,
        Op::Create { document, .. } | Op::MakeText { document, .. } => is_maybe_this(document),
        Op::Shadow { host: node, .. }
        | Op::Detach { node }
        | Op::DelAttr { node, .. }
        | Op::Clone { node, .. }
        | Op::Upgrade { node }
        | Op::Reset { form: node }
        | Op::Internals { node }
        | Op::FormList { node, .. }
        | Op::FormNull { node }
        | Op::StateAdd { node, .. }
        | Op::StateDelete { node, .. }
        | Op::StateClear { node }
        | Op::Check { node, .. }
        | Op::Choose { node, .. }
        | Op::Submit { form: node }
        | Op::Ask { node, .. }
        | Op::Let { node, .. } => is_this(node),
        Op::Append { parent, node }
        | Op::Remove { parent, node }
        | Op::Adopt {
            document: parent,
            node,
        } => is_this(parent) || is_this(node),
        Op::Before {
            parent,
            node,
            before,
        } => is_this(parent) || is_this(node) || is_this(before),
        Op::Request { form, submitter } => is_this(form) || is_maybe_this(submitter),
        Op::SetAttr { node, value, .. }
        | Op::Validity {
            node,
            message: value,
            ..
        }
        | Op::Custom {
            node,
            message: value,
        }
        | Op::Value { node, value } => is_this(node) || is_of_body(value),
        Op::FormValue { node, value, saved } => {
            is_this(node) || is_of_body(value) || is_maybe_of_body(saved)
        }
    }
}
