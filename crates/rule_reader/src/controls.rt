// The forms for forms and their controls.
ghost use Rattle.rule_tokens.specs.Gives.{Gives, GivesSeen, or_word};
ghost use Rattle.rule_reader.specs.Controls.{ask_of, check_of, choose_of, request_of, reset_of, submit_of, value_of, asked, name_for};
ghost use Rattle.rule_reader.specs.Takes.{take_one};

use crate::Leaf;
use crate::shapes::{node_and_switch, node_and_value, one_node};
use crate::takes::{ended, maybe_node, next, node_at, text_at};
use ce_base::Text;
use rule_lines::{AskWord, Op};
use rule_tokens::{Bad, LineRefused, Token};
use std::alloc::Global;

pub(crate) fn reset(alloc: Global, tokens: &[Token]) -> Result<Leaf, LineRefused>
    ensures { Gives result (reset_of tokens.now) }
{
    let form = one_node(alloc, tokens)?;
    Ok(Leaf::Both(Op::Reset { form }))
}

pub(crate) fn value(alloc: Global, tokens: &[Token]) -> Result<Leaf, LineRefused>
    ensures { Gives result (value_of tokens.now) }
{
    let (node, value) = node_and_value(alloc, tokens)?;
    Ok(Leaf::Both(Op::Value { node, value }))
}

pub(crate) fn check(alloc: Global, tokens: &[Token]) -> Result<Leaf, LineRefused>
    ensures { Gives result (check_of tokens.now) }
{
    let (node, on) = node_and_switch(alloc, tokens)?;
    Ok(Leaf::Both(Op::Check { node, on }))
}

pub(crate) fn choose(alloc: Global, tokens: &[Token]) -> Result<Leaf, LineRefused>
    ensures { Gives result (choose_of tokens.now) }
{
    let (node, on) = node_and_switch(alloc, tokens)?;
    Ok(Leaf::Both(Op::Choose { node, on }))
}

pub(crate) fn submit(alloc: Global, tokens: &[Token]) -> Result<Leaf, LineRefused>
    ensures { Gives result (submit_of tokens.now) }
{
    let form = one_node(alloc, tokens)?;
    Ok(Leaf::Both(Op::Submit { form }))
}

pub(crate) fn request(alloc: Global, tokens: &[Token]) -> Result<Leaf, LineRefused>
    ensures { Gives result (request_of tokens.now) }
{
    let (form, rest) = node_at(alloc, tokens)?;
    let (submitter, rest) = maybe_node(alloc, rest)?;
    ended(rest)?;
    Ok(Leaf::Both(Op::Request { form, submitter }))
}

fn asked(t: &Token) -> Result<AskWord, LineRefused>
    ensures { Gives result (or_word (asked t.now)) }
{
    if t.quoted {
        return Err(LineRefused::Bad(Bad::Word));
    }
    match AskWord::named(t.text.as_str()) {
        None => Err(LineRefused::Bad(Bad::Word)),
        Some(word) => Ok(word),
    }
}

fn asked_at(tokens: &[Token]) -> Result<(AskWord, &[Token]), LineRefused>
    ensures { GivesSeen (λ x. (x.0, x.1.now)) result (take_one asked tokens.now) }
{
    let (t, rest) = next(tokens)?;
    Ok((asked(t)?, rest))
}

fn name_for(
    alloc: Global,
    word: AskWord,
    tokens: &[Token],
) -> Result<(Option<Text>, &[Token]), LineRefused>
    ensures { GivesSeen (λ x. (x.0, x.1.now)) result (name_for word tokens.now) }
{
    match word {
        AskWord::Attr => {
            let (name, rest) = text_at(alloc, tokens)?;
            Ok((Some(name), rest))
        }
        _ => Ok((None, tokens)),
    }
}

pub(crate) fn ask(alloc: Global, tokens: &[Token]) -> Result<Leaf, LineRefused>
    ensures { Gives result (ask_of tokens.now) }
{
    let (word, rest) = asked_at(tokens)?;
    let (node, rest) = node_at(alloc, rest)?;
    let (name, rest) = name_for(alloc, word, rest)?;
    ended(rest)?;
    Ok(Leaf::Both(Op::Ask { word, node, name }))
}
