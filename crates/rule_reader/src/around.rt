// The forms with an action behind them.
ghost use Rattle.std.specs.Prelude.{◌≡◌};
ghost use Rattle.rule_tokens.specs.Gives.{Gives, GivesSeen, or_word};
ghost use Rattle.rule_reader.specs.Around.{compared, comparison, if_of, is_wrap, on_of, wrap_of};
ghost use Rattle.rule_reader.specs.Takes.{take_one};

use crate::Wrap;
use crate::takes::{behind, call_at, class_at, next, value_at};
use rule_lines::Word;
use rule_tokens::{Bad, LineRefused, Token, Val, is_word};
use std::alloc::Global;

fn on(alloc: Global, tokens: &[Token]) -> Result<(Wrap, &[Token]), LineRefused>
    ensures { GivesSeen (λ x. (x.0, x.1.now)) result (on_of tokens.now) }
{
    let (class, rest) = class_at(alloc, tokens)?;
    let (call, rest) = call_at(rest)?;
    let rest = behind(rest, Word::Colon)?;
    Ok((Wrap::On { class, call }, rest))
}

fn comparison(t: &Token) -> Result<bool, LineRefused>
    ensures { Gives result (or_word (comparison t.now)) }
{
    if is_word(t, Word::Eq.text()) {
        return Ok(true);
    }
    if is_word(t, Word::Ne.text()) {
        return Ok(false);
    }
    Err(LineRefused::Bad(Bad::Word))
}

fn comparison_at(tokens: &[Token]) -> Result<(bool, &[Token]), LineRefused>
    ensures { GivesSeen (λ x. (x.0, x.1.now)) result (take_one comparison tokens.now) }
{
    let (t, rest) = next(tokens)?;
    Ok((comparison(t)?, rest))
}

fn compared(alloc: Global, tokens: &[Token]) -> Result<((bool, Val, Val), &[Token]), LineRefused>
    ensures { GivesSeen (λ x. (x.0, x.1.now)) result (compared tokens.now) }
{
    let (equal, rest) = comparison_at(tokens)?;
    let (left, rest) = value_at(alloc, rest)?;
    let (right, rest) = value_at(alloc, rest)?;
    Ok(((equal, left, right), rest))
}

fn if_form(alloc: Global, tokens: &[Token]) -> Result<(Wrap, &[Token]), LineRefused>
    ensures { GivesSeen (λ x. (x.0, x.1.now)) result (if_of tokens.now) }
{
    let (test, rest) = compared(alloc, tokens)?;
    let rest = behind(rest, Word::Colon)?;
    let (equal, left, right) = test;
    Ok((Wrap::If { equal, left, right }, rest))
}

/// Whether an action stands behind the form with this first word.
pub(crate) fn is_wrap(word: Word) -> bool
    ensures { result ≡ is_wrap word }
{
    matches!(word, Word::On | Word::Try | Word::If)
}

/// What stands around the action, and the action's tokens.
pub(crate) fn wrap_of(
    alloc: Global,
    word: Word,
    tokens: &[Token],
) -> Result<(Wrap, &[Token]), LineRefused>
    ensures { GivesSeen (λ x. (x.0, x.1.now)) result (wrap_of word tokens.now) }
{
    match word {
        Word::On => on(alloc, tokens),
        Word::Try => Ok((Wrap::Try, tokens)),
        Word::If => if_form(alloc, tokens),
        _ => Err(LineRefused::Bad(Bad::Word)),
    }
}
