// The forms of classes.
ghost use Rattle.rule_tokens.specs.Gives.{Gives};
ghost use Rattle.rule_reader.specs.Classes.{associate_of, class_of, disable_of, disabled_of, has_of, observe_of};

use crate::Leaf;
use crate::shapes::one_class;
use crate::takes::{call_at, class_at, ended, next, texts};
use ce_base::Text;
use rule_lines::Word;
use rule_tokens::{Bad, LineRefused, Token, is_word};
use std::alloc::Global;

pub(crate) fn class(alloc: Global, tokens: &[Token]) -> Result<Leaf, LineRefused>
    ensures { Gives result (class_of tokens.now) }
{
    let name = one_class(alloc, tokens)?;
    Ok(Leaf::Class(name))
}

pub(crate) fn has(alloc: Global, tokens: &[Token]) -> Result<Leaf, LineRefused>
    ensures { Gives result (has_of tokens.now) }
{
    let (class, rest) = class_at(alloc, tokens)?;
    let (call, rest) = call_at(rest)?;
    ended(rest)?;
    Ok(Leaf::Has { class, call })
}

pub(crate) fn associate(alloc: Global, tokens: &[Token]) -> Result<Leaf, LineRefused>
    ensures { Gives result (associate_of tokens.now) }
{
    let class = one_class(alloc, tokens)?;
    Ok(Leaf::Associate(class))
}

pub(crate) fn observe(alloc: Global, tokens: &[Token]) -> Result<Leaf, LineRefused>
    ensures { Gives result (observe_of tokens.now) }
{
    let (class, rest) = class_at(alloc, tokens)?;
    let _first = next(rest)?;
    let names = texts(alloc, rest)?;
    Ok(Leaf::Observe { class, names })
}

fn disabled(class: Text, t: &Token, tokens: &[Token]) -> Result<Leaf, LineRefused>
    ensures { Gives result (disabled_of class t.now tokens.now) }
{
    if is_word(t, Word::Shadow.text()) {
        ended(tokens)?;
        return Ok(Leaf::DisableShadow(class));
    }
    if is_word(t, Word::Internals.text()) {
        ended(tokens)?;
        return Ok(Leaf::DisableInternals(class));
    }
    Err(LineRefused::Bad(Bad::Word))
}

pub(crate) fn disable(alloc: Global, tokens: &[Token]) -> Result<Leaf, LineRefused>
    ensures { Gives result (disable_of tokens.now) }
{
    let (class, rest) = class_at(alloc, tokens)?;
    let (t, rest) = next(rest)?;
    disabled(class, t, rest)
}
