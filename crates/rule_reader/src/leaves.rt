// The forms without an action behind them, by their first words.
ghost use Rattle.rule_tokens.specs.Gives.{Gives};
ghost use Rattle.rule_reader.specs.Leaves.{leaf_of};

use crate::{Leaf, attributes, bodies, classes, controls, custom_elements, internals, tree, users};
use rule_lines::Word;
use rule_tokens::{Bad, LineRefused, Token};
use std::alloc::Global;

/// What the tokens behind the first word say.
pub(crate) fn leaf_of(alloc: Global, word: Word, tokens: &[Token]) -> Result<Leaf, LineRefused>
    ensures { Gives result (leaf_of word tokens.now) }
{
    match word {
        Word::Create => tree::create(alloc, tokens),
        Word::New => tree::new(alloc, tokens),
        Word::Text => tree::make_text(alloc, tokens),
        Word::Shadow => tree::shadow(alloc, tokens),
        Word::Append => tree::append(alloc, tokens),
        Word::Before => tree::before(alloc, tokens),
        Word::Remove => tree::remove(alloc, tokens),
        Word::Detach => tree::detach(alloc, tokens),
        Word::SetAttr => attributes::set_attr(alloc, tokens),
        Word::DelAttr => attributes::del_attr(alloc, tokens),
        Word::Clone => tree::clone(alloc, tokens),
        Word::Adopt => tree::adopt(alloc, tokens),
        Word::Define => custom_elements::define(alloc, tokens),
        Word::Upgrade => custom_elements::upgrade(alloc, tokens),
        Word::Reset => controls::reset(alloc, tokens),
        Word::Internals => internals::internals(alloc, tokens),
        Word::FormValue => internals::form_value(alloc, tokens),
        Word::FormList => internals::form_list(alloc, tokens),
        Word::FormNull => internals::form_null(alloc, tokens),
        Word::Validity => internals::validity(alloc, tokens),
        Word::State => internals::state(alloc, tokens),
        Word::Custom => internals::custom(alloc, tokens),
        Word::Value => controls::value(alloc, tokens),
        Word::Check => controls::check(alloc, tokens),
        Word::Choose => controls::choose(alloc, tokens),
        Word::Submit => controls::submit(alloc, tokens),
        Word::Request => controls::request(alloc, tokens),
        Word::Ask => controls::ask(alloc, tokens),
        Word::Let => tree::let_variable(alloc, tokens),
        Word::Log => bodies::log(alloc, tokens),
        Word::Super => bodies::base_call(tokens),
        Word::Return => bodies::return_form(alloc, tokens),
        Word::Throw => bodies::throw(alloc, tokens),
        Word::Bump => bodies::bump(tokens),
        Word::Keep => bodies::keep(alloc, tokens),
        Word::Class => classes::class(alloc, tokens),
        Word::Has => classes::has(alloc, tokens),
        Word::Observe => classes::observe(alloc, tokens),
        Word::Associate => classes::associate(alloc, tokens),
        Word::Disable => classes::disable(alloc, tokens),
        Word::Doc => tree::doc(alloc, tokens),
        Word::User => users::user(alloc, tokens),
        _ => Err(LineRefused::Bad(Bad::Word)),
    }
}
