// The forms for custom elements.
ghost use Rattle.rule_tokens.specs.Gives.{Gives};
ghost use Rattle.rule_reader.specs.CustomElements.{define_of, upgrade_of};

use crate::Leaf;
use crate::shapes::{one_node, text_behind};
use crate::takes::{class_at, text_at};
use rule_lines::{Keyword, Op};
use rule_tokens::{LineRefused, Token};
use std::alloc::Global;

pub(crate) fn define(alloc: Global, tokens: &[Token]) -> Result<Leaf, LineRefused>
    ensures { Gives result (define_of tokens.now) }
{
    let (name, rest) = text_at(alloc, tokens)?;
    let (class, rest) = class_at(alloc, rest)?;
    let base = text_behind(alloc, rest, Keyword::Extends)?;
    Ok(Leaf::Both(Op::Define { name, class, base }))
}

pub(crate) fn upgrade(alloc: Global, tokens: &[Token]) -> Result<Leaf, LineRefused>
    ensures { Gives result (upgrade_of tokens.now) }
{
    let node = one_node(alloc, tokens)?;
    Ok(Leaf::Both(Op::Upgrade { node }))
}
