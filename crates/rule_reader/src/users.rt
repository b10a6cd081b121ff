// What a user does.
ghost use Rattle.rule_tokens.specs.Gives.{Gives};
ghost use Rattle.rule_reader.specs.Users.{deed_of, user_of};

use crate::Leaf;
use crate::shapes::{node_and_switch, node_and_value, one_node};
use crate::takes::next;
use rule_lines::Word;
use rule_tokens::{Bad, LineRefused, Token, is_word};
use std::alloc::Global;

fn deed(alloc: Global, t: &Token, tokens: &[Token]) -> Result<Leaf, LineRefused>
    ensures { Gives result (deed_of t.now tokens.now) }
{
    if is_word(t, Word::Edit.text()) {
        let (node, value) = node_and_value(alloc, tokens)?;
        return Ok(Leaf::UserEdit { node, value });
    }
    if is_word(t, Word::Check.text()) {
        let (node, on) = node_and_switch(alloc, tokens)?;
        return Ok(Leaf::UserCheck { node, on });
    }
    if is_word(t, Word::Choose.text()) {
        let (node, on) = node_and_switch(alloc, tokens)?;
        return Ok(Leaf::UserChoose { node, on });
    }
    if is_word(t, Word::Reset.text()) {
        let form = one_node(alloc, tokens)?;
        return Ok(Leaf::UserReset { form });
    }
    if is_word(t, Word::Restore.text()) {
        let (node, value) = node_and_value(alloc, tokens)?;
        return Ok(Leaf::UserRestore { node, value });
    }
    if is_word(t, Word::Autofill.text()) {
        let (node, value) = node_and_value(alloc, tokens)?;
        return Ok(Leaf::UserAutofill { node, value });
    }
    if is_word(t, Word::Press.text()) {
        let node = one_node(alloc, tokens)?;
        return Ok(Leaf::UserPress { node });
    }
    Err(LineRefused::Bad(Bad::Word))
}

pub(crate) fn user(alloc: Global, tokens: &[Token]) -> Result<Leaf, LineRefused>
    ensures { Gives result (user_of tokens.now) }
{
    let (t, rest) = next(tokens)?;
    deed(alloc, t, rest)
}
