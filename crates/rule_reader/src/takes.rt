// Operands, taken from the left.
ghost use Rattle.std.specs.Prelude.{◌≡◌, Result, Ok};
ghost use Rattle.rule_tokens.specs.Flags.{flags};
ghost use Rattle.rule_tokens.specs.Gives.{Gives, GivesSeen, or_word};
ghost use Rattle.rule_tokens.specs.OperandForms.{call_name, class_name, node, text, value, variable};
ghost use Rattle.rule_lines.specs.FixedWords.{spelling};
ghost use Rattle.rule_reader.specs.Takes.{behind, ended, entries_up_to, entry_at, marked, maybe, next, on_off, optional, take_one, up_to};

use ce_base::{Entries, Entry, Flags, Text, Texts};
use rule_lines::{Keyword, Vals, Word};
use rule_tokens::{
    Bad, CallName, LineRefused, Operand, Token, Val, call_name, class_name, flags, is_word, node,
    text, value, variable,
};
use std::alloc::Global;

pub(crate) fn next(tokens: &[Token]) -> Result<(&Token, &[Token]), LineRefused>
    ensures { GivesSeen (λ x. (x.0.now, x.1.now)) result (next tokens.now) }
{
    match tokens {
        [] => Err(LineRefused::Bad(Bad::Arity)),
        [first, rest @ ..] => Ok((first, rest)),
    }
}

pub(crate) fn variable_at(alloc: Global, tokens: &[Token]) -> Result<(Text, &[Token]), LineRefused>
    ensures { GivesSeen (λ x. (x.0, x.1.now)) result (take_one variable tokens.now) }
{
    let (t, rest) = next(tokens)?;
    Ok((variable(alloc, t)?, rest))
}

pub(crate) fn node_at(alloc: Global, tokens: &[Token]) -> Result<(Operand, &[Token]), LineRefused>
    ensures { GivesSeen (λ x. (x.0, x.1.now)) result (take_one node tokens.now) }
{
    let (t, rest) = next(tokens)?;
    Ok((node(alloc, t)?, rest))
}

pub(crate) fn text_at(alloc: Global, tokens: &[Token]) -> Result<(Text, &[Token]), LineRefused>
    ensures { GivesSeen (λ x. (x.0, x.1.now)) result (take_one text tokens.now) }
{
    let (t, rest) = next(tokens)?;
    Ok((text(alloc, t)?, rest))
}

pub(crate) fn value_at(alloc: Global, tokens: &[Token]) -> Result<(Val, &[Token]), LineRefused>
    ensures { GivesSeen (λ x. (x.0, x.1.now)) result (take_one value tokens.now) }
{
    let (t, rest) = next(tokens)?;
    Ok((value(alloc, t)?, rest))
}

pub(crate) fn class_at(alloc: Global, tokens: &[Token]) -> Result<(Text, &[Token]), LineRefused>
    ensures { GivesSeen (λ x. (x.0, x.1.now)) result (take_one class_name tokens.now) }
{
    let (t, rest) = next(tokens)?;
    Ok((class_name(alloc, t)?, rest))
}

pub(crate) fn flags_at(alloc: Global, tokens: &[Token]) -> Result<(Flags, &[Token]), LineRefused>
    ensures { GivesSeen (λ x. (x.0.0, x.1.now)) result (take_one flags tokens.now) }
{
    let (t, rest) = next(tokens)?;
    Ok((flags(alloc, t)?, rest))
}

fn call_of(t: &Token) -> Result<CallName, LineRefused>
    ensures { Gives result (or_word (call_name t.now)) }
{
    match call_name(t) {
        None => Err(LineRefused::Bad(Bad::Word)),
        Some(call) => Ok(call),
    }
}

pub(crate) fn call_at(tokens: &[Token]) -> Result<(CallName, &[Token]), LineRefused>
    ensures { GivesSeen (λ x. (x.0, x.1.now)) result (take_one call_name tokens.now) }
{
    let (t, rest) = next(tokens)?;
    Ok((call_of(t)?, rest))
}

pub(crate) fn on_off(t: &Token) -> Result<bool, LineRefused>
    ensures { Gives result (or_word (on_off t.now)) }
{
    if is_word(t, Word::On.text()) {
        return Ok(true);
    }
    if is_word(t, Word::Off.text()) {
        return Ok(false);
    }
    Err(LineRefused::Bad(Bad::Word))
}

pub(crate) fn behind(tokens: &[Token], word: Word) -> Result<&[Token], LineRefused>
    ensures { GivesSeen (λ x. x.now) result (behind (spelling word) tokens.now) }
{
    let (t, rest) = next(tokens)?;
    if !is_word(t, word.text()) {
        return Err(LineRefused::Bad(Bad::Word));
    }
    Ok(rest)
}

pub(crate) fn marked(tokens: &[Token], word: Keyword) -> (bool, &[Token])
    ensures { marked word tokens.now ≡ (result.0, result.1.now) }
{
    match tokens {
        [] => (false, tokens),
        [first, rest @ ..] => {
            if is_word(first, word.text()) {
                return (true, rest);
            }
            (false, tokens)
        }
    }
}

pub(crate) fn optional_text(
    alloc: Global,
    tokens: &[Token],
    word: Keyword,
) -> Result<(Option<Text>, &[Token]), LineRefused>
    ensures { GivesSeen (λ x. (x.0, x.1.now)) result (optional word text tokens.now) }
{
    let (there, rest) = marked(tokens, word);
    if !there {
        return Ok((None, rest));
    }
    let (found, rest) = text_at(alloc, rest)?;
    Ok((Some(found), rest))
}

pub(crate) fn maybe_node(
    alloc: Global,
    tokens: &[Token],
) -> Result<(Option<Operand>, &[Token]), LineRefused>
    ensures { GivesSeen (λ x. (x.0, x.1.now)) result (maybe node tokens.now) }
{
    if tokens.is_empty() {
        return Ok((None, tokens));
    }
    let (found, rest) = node_at(alloc, tokens)?;
    Ok((Some(found), rest))
}

pub(crate) fn values(alloc: Global, tokens: &[Token]) -> Result<Vals, LineRefused>
    ensures { Gives result (up_to 8 value tokens.now) }
{
    let mut all = Vals::make(alloc);
    let mut room: u8 = 8;
    for t in tokens {
        if room == 0 {
            return Err(LineRefused::Bad(Bad::Arity));
        }
        room -= 1;
        all.push(alloc, value(alloc, t)?)?;
    }
    Ok(all)
}

pub(crate) fn texts(alloc: Global, tokens: &[Token]) -> Result<Texts, LineRefused>
    ensures { Gives result (up_to 16 text tokens.now) }
{
    let mut all = Texts::make(alloc);
    let mut room: u8 = 16;
    for t in tokens {
        if room == 0 {
            return Err(LineRefused::Bad(Bad::Arity));
        }
        room -= 1;
        all.push(alloc, text(alloc, t)?)?;
    }
    Ok(all)
}

fn entry_at(alloc: Global, tokens: &[Token]) -> Result<(Entry, &[Token]), LineRefused>
    ensures { GivesSeen (λ x. (x.0, x.1.now)) result (entry_at tokens.now) }
{
    let (name, rest) = text_at(alloc, tokens)?;
    let (value, rest) = text_at(alloc, rest)?;
    Ok((Entry { name, value }, rest))
}

#[tactic(auto, using(crate::proofs::Pairs::one_more))]
pub(crate) fn entries(alloc: Global, tokens: &[Token]) -> Result<Entries, LineRefused>
    ensures { Gives result (entries_up_to 32 tokens.now) }
{
    let mut all = Entries::make(alloc);
    let mut room: u8 = 32;
    let mut rest = tokens;
    'pairs: while !rest.is_empty() {
        if room == 0 {
            return Err(LineRefused::Bad(Bad::Arity));
        }
        room -= 1;
        let (entry, after) = entry_at(alloc, rest)?;
        all.push(alloc, entry)?;
        rest = after;
    }
    Ok(all)
}

pub(crate) fn ended(tokens: &[Token]) -> Result<(), LineRefused>
    ensures { Gives result (ended tokens.now) }
{
    if tokens.is_empty() {
        return Ok(());
    }
    Err(LineRefused::Bad(Bad::Arity))
}
