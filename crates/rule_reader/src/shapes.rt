// The shapes that several forms have: so many operands, and no token after them.
ghost use Rattle.rule_tokens.specs.Gives.{Gives};
ghost use Rattle.rule_tokens.specs.OperandForms.{class_name, node, text, value, variable};
ghost use Rattle.rule_reader.specs.Shapes.{only, only_behind, two};
ghost use Rattle.rule_reader.specs.Takes.{on_off};

use crate::takes::{
    class_at, ended, marked, next, node_at, on_off, text_at, value_at, variable_at,
};
use ce_base::Text;
use rule_lines::Keyword;
use rule_tokens::{LineRefused, Operand, Token, Val};
use std::alloc::Global;

pub(crate) fn one_node(alloc: Global, tokens: &[Token]) -> Result<Operand, LineRefused>
    ensures { Gives result (only node tokens.now) }
{
    let (found, rest) = node_at(alloc, tokens)?;
    ended(rest)?;
    Ok(found)
}

pub(crate) fn one_text(alloc: Global, tokens: &[Token]) -> Result<Text, LineRefused>
    ensures { Gives result (only text tokens.now) }
{
    let (found, rest) = text_at(alloc, tokens)?;
    ended(rest)?;
    Ok(found)
}

pub(crate) fn one_value(alloc: Global, tokens: &[Token]) -> Result<Val, LineRefused>
    ensures { Gives result (only value tokens.now) }
{
    let (found, rest) = value_at(alloc, tokens)?;
    ended(rest)?;
    Ok(found)
}

pub(crate) fn one_class(alloc: Global, tokens: &[Token]) -> Result<Text, LineRefused>
    ensures { Gives result (only class_name tokens.now) }
{
    let (found, rest) = class_at(alloc, tokens)?;
    ended(rest)?;
    Ok(found)
}

pub(crate) fn one_switch(tokens: &[Token]) -> Result<bool, LineRefused>
    ensures { Gives result (only on_off tokens.now) }
{
    let (t, rest) = next(tokens)?;
    let found = on_off(t)?;
    ended(rest)?;
    Ok(found)
}

pub(crate) fn text_behind(
    alloc: Global,
    tokens: &[Token],
    word: Keyword,
) -> Result<Option<Text>, LineRefused>
    ensures { Gives result (only_behind word text tokens.now) }
{
    let (there, rest) = marked(tokens, word);
    if !there {
        ended(rest)?;
        return Ok(None);
    }
    Ok(Some(one_text(alloc, rest)?))
}

pub(crate) fn node_behind(
    alloc: Global,
    tokens: &[Token],
    word: Keyword,
) -> Result<Option<Operand>, LineRefused>
    ensures { Gives result (only_behind word node tokens.now) }
{
    let (there, rest) = marked(tokens, word);
    if !there {
        ended(rest)?;
        return Ok(None);
    }
    Ok(Some(one_node(alloc, rest)?))
}

pub(crate) fn value_behind(
    alloc: Global,
    tokens: &[Token],
    word: Keyword,
) -> Result<Option<Val>, LineRefused>
    ensures { Gives result (only_behind word value tokens.now) }
{
    let (there, rest) = marked(tokens, word);
    if !there {
        ended(rest)?;
        return Ok(None);
    }
    Ok(Some(one_value(alloc, rest)?))
}

pub(crate) fn two_nodes(alloc: Global, tokens: &[Token]) -> Result<(Operand, Operand), LineRefused>
    ensures { Gives result (two node node tokens.now) }
{
    let (first, rest) = node_at(alloc, tokens)?;
    Ok((first, one_node(alloc, rest)?))
}

pub(crate) fn node_and_value(alloc: Global, tokens: &[Token]) -> Result<(Operand, Val), LineRefused>
    ensures { Gives result (two node value tokens.now) }
{
    let (first, rest) = node_at(alloc, tokens)?;
    Ok((first, one_value(alloc, rest)?))
}

pub(crate) fn node_and_switch(
    alloc: Global,
    tokens: &[Token],
) -> Result<(Operand, bool), LineRefused>
    ensures { Gives result (two node on_off tokens.now) }
{
    let (first, rest) = node_at(alloc, tokens)?;
    Ok((first, one_switch(rest)?))
}

pub(crate) fn variable_and_node(
    alloc: Global,
    tokens: &[Token],
) -> Result<(Text, Operand), LineRefused>
    ensures { Gives result (two variable node tokens.now) }
{
    let (first, rest) = variable_at(alloc, tokens)?;
    Ok((first, one_node(alloc, rest)?))
}
