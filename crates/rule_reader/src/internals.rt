// The forms for element internals.
ghost use Rattle.rule_tokens.specs.Gives.{Gives};
ghost use Rattle.rule_reader.specs.Internals.{custom_of, form_list_of, form_null_of, form_value_of, internals_of, state_change_of, state_of, validity_of};

use crate::Leaf;
use crate::shapes::{node_and_value, one_node, one_text, one_value, value_behind};
use crate::takes::{ended, entries, flags_at, next, node_at, value_at};
use rule_lines::{Keyword, Op, Word};
use rule_tokens::{Bad, LineRefused, Operand, Token, is_word};
use std::alloc::Global;

pub(crate) fn internals(alloc: Global, tokens: &[Token]) -> Result<Leaf, LineRefused>
    ensures { Gives result (internals_of tokens.now) }
{
    let node = one_node(alloc, tokens)?;
    Ok(Leaf::Both(Op::Internals { node }))
}

pub(crate) fn form_value(alloc: Global, tokens: &[Token]) -> Result<Leaf, LineRefused>
    ensures { Gives result (form_value_of tokens.now) }
{
    let (node, rest) = node_at(alloc, tokens)?;
    let (value, rest) = value_at(alloc, rest)?;
    let saved = value_behind(alloc, rest, Keyword::State)?;
    Ok(Leaf::Both(Op::FormValue { node, value, saved }))
}

pub(crate) fn form_null(alloc: Global, tokens: &[Token]) -> Result<Leaf, LineRefused>
    ensures { Gives result (form_null_of tokens.now) }
{
    let node = one_node(alloc, tokens)?;
    Ok(Leaf::Both(Op::FormNull { node }))
}

pub(crate) fn validity(alloc: Global, tokens: &[Token]) -> Result<Leaf, LineRefused>
    ensures { Gives result (validity_of tokens.now) }
{
    let (node, rest) = node_at(alloc, tokens)?;
    let (flags, rest) = flags_at(alloc, rest)?;
    let message = one_value(alloc, rest)?;
    Ok(Leaf::Both(Op::Validity {
        node,
        flags,
        message,
    }))
}

pub(crate) fn custom(alloc: Global, tokens: &[Token]) -> Result<Leaf, LineRefused>
    ensures { Gives result (custom_of tokens.now) }
{
    let (node, message) = node_and_value(alloc, tokens)?;
    Ok(Leaf::Both(Op::Custom { node, message }))
}

fn state_change(
    alloc: Global,
    node: Operand,
    t: &Token,
    tokens: &[Token],
) -> Result<Leaf, LineRefused>
    ensures { Gives result (state_change_of node t.now tokens.now) }
{
    if is_word(t, Word::Add.text()) {
        let word = one_text(alloc, tokens)?;
        return Ok(Leaf::Both(Op::StateAdd { node, word }));
    }
    if is_word(t, Word::Delete.text()) {
        let word = one_text(alloc, tokens)?;
        return Ok(Leaf::Both(Op::StateDelete { node, word }));
    }
    if is_word(t, Word::Clear.text()) {
        ended(tokens)?;
        return Ok(Leaf::Both(Op::StateClear { node }));
    }
    Err(LineRefused::Bad(Bad::Word))
}

pub(crate) fn state(alloc: Global, tokens: &[Token]) -> Result<Leaf, LineRefused>
    ensures { Gives result (state_of tokens.now) }
{
    let (node, rest) = node_at(alloc, tokens)?;
    let (t, rest) = next(rest)?;
    state_change(alloc, node, t, rest)
}

pub(crate) fn form_list(alloc: Global, tokens: &[Token]) -> Result<Leaf, LineRefused>
    ensures { Gives result (form_list_of tokens.now) }
{
    let (node, rest) = node_at(alloc, tokens)?;
    let entries = entries(alloc, rest)?;
    Ok(Leaf::Both(Op::FormList { node, entries }))
}
