// The forms that make nodes and move them.
ghost use Rattle.rule_tokens.specs.Gives.{Gives};
ghost use Rattle.rule_reader.specs.Tree.{adopt_of, append_of, before_of, clone_of, create_of, detach_of};
ghost use Rattle.rule_reader.specs.Tree.{doc_of, let_variable_of, make_text_of, new_of, remove_of, shadow_of};

use crate::Leaf;
use crate::shapes::{node_behind, one_class, one_node, two_nodes, variable_and_node};
use crate::takes::{ended, marked, node_at, optional_text, text_at, variable_at};
use rule_lines::{Keyword, Op};
use rule_tokens::{LineRefused, Token};
use std::alloc::Global;

pub(crate) fn create(alloc: Global, tokens: &[Token]) -> Result<Leaf, LineRefused>
    ensures { Gives result (create_of tokens.now) }
{
    let (var, rest) = variable_at(alloc, tokens)?;
    let (local, rest) = text_at(alloc, rest)?;
    let (is_value, rest) = optional_text(alloc, rest, Keyword::Is)?;
    let document = node_behind(alloc, rest, Keyword::In)?;
    Ok(Leaf::Both(Op::Create {
        var,
        local,
        is_value,
        document,
    }))
}

pub(crate) fn new(alloc: Global, tokens: &[Token]) -> Result<Leaf, LineRefused>
    ensures { Gives result (new_of tokens.now) }
{
    let (var, rest) = variable_at(alloc, tokens)?;
    let class = one_class(alloc, rest)?;
    Ok(Leaf::Both(Op::New { var, class }))
}

pub(crate) fn make_text(alloc: Global, tokens: &[Token]) -> Result<Leaf, LineRefused>
    ensures { Gives result (make_text_of tokens.now) }
{
    let (var, rest) = variable_at(alloc, tokens)?;
    let (chars, rest) = text_at(alloc, rest)?;
    let document = node_behind(alloc, rest, Keyword::In)?;
    Ok(Leaf::Both(Op::MakeText {
        var,
        chars,
        document,
    }))
}

pub(crate) fn shadow(alloc: Global, tokens: &[Token]) -> Result<Leaf, LineRefused>
    ensures { Gives result (shadow_of tokens.now) }
{
    let (var, host) = variable_and_node(alloc, tokens)?;
    Ok(Leaf::Both(Op::Shadow { var, host }))
}

pub(crate) fn append(alloc: Global, tokens: &[Token]) -> Result<Leaf, LineRefused>
    ensures { Gives result (append_of tokens.now) }
{
    let (parent, node) = two_nodes(alloc, tokens)?;
    Ok(Leaf::Both(Op::Append { parent, node }))
}

pub(crate) fn before(alloc: Global, tokens: &[Token]) -> Result<Leaf, LineRefused>
    ensures { Gives result (before_of tokens.now) }
{
    let (parent, rest) = node_at(alloc, tokens)?;
    let (node, before) = two_nodes(alloc, rest)?;
    Ok(Leaf::Both(Op::Before {
        parent,
        node,
        before,
    }))
}

pub(crate) fn remove(alloc: Global, tokens: &[Token]) -> Result<Leaf, LineRefused>
    ensures { Gives result (remove_of tokens.now) }
{
    let (parent, node) = two_nodes(alloc, tokens)?;
    Ok(Leaf::Both(Op::Remove { parent, node }))
}

pub(crate) fn detach(alloc: Global, tokens: &[Token]) -> Result<Leaf, LineRefused>
    ensures { Gives result (detach_of tokens.now) }
{
    let node = one_node(alloc, tokens)?;
    Ok(Leaf::Both(Op::Detach { node }))
}

pub(crate) fn clone(alloc: Global, tokens: &[Token]) -> Result<Leaf, LineRefused>
    ensures { Gives result (clone_of tokens.now) }
{
    let (var, rest) = variable_at(alloc, tokens)?;
    let (node, rest) = node_at(alloc, rest)?;
    let (deep, rest) = marked(rest, Keyword::Deep);
    ended(rest)?;
    Ok(Leaf::Both(Op::Clone { var, node, deep }))
}

pub(crate) fn adopt(alloc: Global, tokens: &[Token]) -> Result<Leaf, LineRefused>
    ensures { Gives result (adopt_of tokens.now) }
{
    let (document, node) = two_nodes(alloc, tokens)?;
    Ok(Leaf::Both(Op::Adopt { document, node }))
}

pub(crate) fn let_variable(alloc: Global, tokens: &[Token]) -> Result<Leaf, LineRefused>
    ensures { Gives result (let_variable_of tokens.now) }
{
    let (var, node) = variable_and_node(alloc, tokens)?;
    Ok(Leaf::Both(Op::Let { var, node }))
}

pub(crate) fn doc(alloc: Global, tokens: &[Token]) -> Result<Leaf, LineRefused>
    ensures { Gives result (doc_of tokens.now) }
{
    let (var, rest) = variable_at(alloc, tokens)?;
    ended(rest)?;
    Ok(Leaf::Doc { var })
}
