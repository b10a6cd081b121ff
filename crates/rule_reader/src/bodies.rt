// The forms of bodies.
ghost use Rattle.rule_tokens.specs.Gives.{Gives};
ghost use Rattle.rule_reader.specs.Bodies.{base_call_of, bump_of, keep_of, log_of, return_form_of, throw_of};

use crate::Leaf;
use crate::shapes::one_value;
use crate::takes::{ended, maybe_node, next, values};
use rule_tokens::{LineRefused, Token};
use std::alloc::Global;

pub(crate) fn base_call(tokens: &[Token]) -> Result<Leaf, LineRefused>
    ensures { Gives result (base_call_of tokens.now) }
{
    ended(tokens)?;
    Ok(Leaf::Super)
}

pub(crate) fn return_form(alloc: Global, tokens: &[Token]) -> Result<Leaf, LineRefused>
    ensures { Gives result (return_form_of tokens.now) }
{
    let (node, rest) = maybe_node(alloc, tokens)?;
    ended(rest)?;
    Ok(Leaf::Return(node))
}

pub(crate) fn throw(alloc: Global, tokens: &[Token]) -> Result<Leaf, LineRefused>
    ensures { Gives result (throw_of tokens.now) }
{
    let value = one_value(alloc, tokens)?;
    Ok(Leaf::Throw(value))
}

pub(crate) fn bump(tokens: &[Token]) -> Result<Leaf, LineRefused>
    ensures { Gives result (bump_of tokens.now) }
{
    ended(tokens)?;
    Ok(Leaf::Bump)
}

pub(crate) fn keep(alloc: Global, tokens: &[Token]) -> Result<Leaf, LineRefused>
    ensures { Gives result (keep_of tokens.now) }
{
    let value = one_value(alloc, tokens)?;
    Ok(Leaf::Keep(value))
}

pub(crate) fn log(alloc: Global, tokens: &[Token]) -> Result<Leaf, LineRefused>
    ensures { Gives result (log_of tokens.now) }
{
    let _first = next(tokens)?;
    Ok(Leaf::Log(values(alloc, tokens)?))
}
