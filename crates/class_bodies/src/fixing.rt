// Actions with their values fixed: each value is the text that it names.
ghost use Rattle.std.specs.Prelude.{◌≡◌, map, option_map, IfOk};
ghost use Rattle.rule_lines.specs.declared.op.Op.TheVariants.{Custom, FormValue, SetAttr, Validity, Value};
ghost use Rattle.ce_algorithms.specs.Values.{fixed, fixed_value};

use crate::{Args, Memory};
use ce_base::{Flags, NoMemory, Text};
use rule_lines::{Op, Vals};
use rule_tokens::{Operand, Val};
use std::alloc::Global;

/// An operation with its texts as they are now.
pub(crate) fn fixed(alloc: Global, op: &Op, memory: &Memory, args: &Args) -> Result<Op, NoMemory>
    ensures { IfOk result (λ x. x ≡ fixed memory.now args.now op.now) }
{
    match op {
        Op::SetAttr { node, name, value } => set_attr(alloc, node, name, value, memory, args),
        Op::FormValue { node, value, saved } => {
            form_value(alloc, node, value, saved, memory, args)
        }
        Op::Validity {
            node,
            flags,
            message,
        } => validity(alloc, node, *flags, message, memory, args),
        Op::Custom { node, message } => custom(alloc, node, message, memory, args),
        Op::Value { node, value } => set_value(alloc, node, value, memory, args),
        _ => op.copy(alloc),
    }
}

/// The values, each as the text that it names.
pub(crate) fn fixed_values(
    alloc: Global,
    vals: &Vals,
    memory: &Memory,
    args: &Args,
) -> Result<Vals, NoMemory>
    ensures { IfOk result (λ x. x ≡ map (fixed_value memory.now args.now) vals.now) }
{
    let mut texts = Vals::make(alloc);
    for v in vals.as_slice() {
        texts.push(alloc, args.value(alloc, memory, v)?)?;
    }
    Ok(texts)
}

fn maybe_value(
    alloc: Global,
    o: &Option<Val>,
    memory: &Memory,
    args: &Args,
) -> Result<Option<Val>, NoMemory>
    ensures { IfOk result (λ x. x ≡ option_map (fixed_value memory.now args.now) o.now) }
{
    match o {
        None => Ok(None),
        Some(v) => Ok(Some(args.value(alloc, memory, v)?)),
    }
}

fn set_attr(
    alloc: Global,
    node: &Operand,
    name: &Text,
    value: &Val,
    memory: &Memory,
    args: &Args,
) -> Result<Op, NoMemory>
    ensures { IfOk result (λ x. x ≡ SetAttr node.now name.now (fixed_value memory.now args.now value.now)) }
{
    Ok(Op::SetAttr {
        node: node.copy(alloc)?,
        name: name.copy(alloc)?,
        value: args.value(alloc, memory, value)?,
    })
}

fn form_value(
    alloc: Global,
    node: &Operand,
    value: &Val,
    saved: &Option<Val>,
    memory: &Memory,
    args: &Args,
) -> Result<Op, NoMemory>
    ensures { IfOk result (λ x. x ≡ FormValue node.now (fixed_value memory.now args.now value.now) (option_map (fixed_value memory.now args.now) saved.now)) }
{
    Ok(Op::FormValue {
        node: node.copy(alloc)?,
        value: args.value(alloc, memory, value)?,
        saved: maybe_value(alloc, saved, memory, args)?,
    })
}

fn validity(
    alloc: Global,
    node: &Operand,
    flags: Flags,
    message: &Val,
    memory: &Memory,
    args: &Args,
) -> Result<Op, NoMemory>
    ensures { IfOk result (λ x. x ≡ Validity node.now flags (fixed_value memory.now args.now message.now)) }
{
    Ok(Op::Validity {
        node: node.copy(alloc)?,
        flags,
        message: args.value(alloc, memory, message)?,
    })
}

fn custom(
    alloc: Global,
    node: &Operand,
    message: &Val,
    memory: &Memory,
    args: &Args,
) -> Result<Op, NoMemory>
    ensures { IfOk result (λ x. x ≡ Custom node.now (fixed_value memory.now args.now message.now)) }
{
    Ok(Op::Custom {
        node: node.copy(alloc)?,
        message: args.value(alloc, memory, message)?,
    })
}

fn set_value(
    alloc: Global,
    node: &Operand,
    value: &Val,
    memory: &Memory,
    args: &Args,
) -> Result<Op, NoMemory>
    ensures { IfOk result (λ x. x ≡ Value node.now (fixed_value memory.now args.now value.now)) }
{
    Ok(Op::Value {
        node: node.copy(alloc)?,
        value: args.value(alloc, memory, value)?,
    })
}
