// The forms for attributes.
ghost use Rattle.rule_tokens.specs.Gives.{Gives};
ghost use Rattle.rule_reader.specs.Attributes.{del_attr_of, set_attr_of};

use crate::Leaf;
use crate::shapes::{one_text, one_value};
use crate::takes::{node_at, text_at};
use rule_lines::Op;
use rule_tokens::{LineRefused, Token};
use std::alloc::Global;

pub(crate) fn set_attr(alloc: Global, tokens: &[Token]) -> Result<Leaf, LineRefused>
    ensures { Gives result (set_attr_of tokens.now) }
{
    let (node, rest) = node_at(alloc, tokens)?;
    let (name, rest) = text_at(alloc, rest)?;
    let value = one_value(alloc, rest)?;
    Ok(Leaf::Both(Op::SetAttr { node, name, value }))
}

pub(crate) fn del_attr(alloc: Global, tokens: &[Token]) -> Result<Leaf, LineRefused>
    ensures { Gives result (del_attr_of tokens.now) }
{
    let (node, rest) = node_at(alloc, tokens)?;
    let name = one_text(alloc, rest)?;
    Ok(Leaf::Both(Op::DelAttr { node, name }))
}
