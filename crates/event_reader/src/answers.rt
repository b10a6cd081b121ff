// What is answered.
ghost use Rattle.std.specs.Prelude.{◌≡◌, IfOk, IfSome};
ghost use Rattle.event_reader.specs.Answers.{answer_named, answer_of, flags_answer, nodes_answer, or_flags, state_answer, state_named, texts_answer};
ghost use Rattle.event_reader.specs.IsEvent.{IsAnswer};
ghost use Rattle.event_reader.specs.Read.{Reads};

use crate::EventRefused;
use crate::parts::{begins_node, node_in, nodes_of, text_of, texts_of};
use ce_base::{CustomState, NoMemory, Nodes};
use ce_events::Answer;
use rule_tokens::{Token, raised};
use std::alloc::Global;

fn state_named(word: &str) -> Option<CustomState>
    ensures { result ≡ state_named word.now }
{
    match word {
        "undefined" => Some(CustomState::Undefined),
        "failed" => Some(CustomState::Failed),
        "uncustomized" => Some(CustomState::Uncustomized),
        "precustomized" => Some(CustomState::Precustomized),
        "custom" => Some(CustomState::Custom),
        _ => None,
    }
}

fn state_answer(word: &str) -> Option<Answer>
    ensures same { result ≡ state_answer (state_named word.now) }
    ensures fits { IfSome result IsAnswer }
{
    match state_named(word) {
        None => None,
        Some(state) => Some(Answer::State(state)),
    }
}

fn answer_named(alloc: Global, word: &str) -> Option<Answer>
    ensures same { result ≡ answer_named word.now }
    ensures fits { IfSome result IsAnswer }
{
    match word {
        "null" => Some(Answer::Null),
        "list" => Some(Answer::Many),
        "empty" => Some(Answer::Nodes(Nodes::make(alloc))),
        "yes" => Some(Answer::Truth(true)),
        "no" => Some(Answer::Truth(false)),
        _ => state_answer(word),
    }
}

fn flags_answer(alloc: Global, tokens: &[Token]) -> Result<Answer, NoMemory>
    ensures same { IfOk result (λ a. a ≡ flags_answer tokens.now) }
    ensures fits { IfOk result IsAnswer }
{
    let names = texts_of(alloc, tokens)?;
    Ok(Answer::Raised(raised(names.as_slice())))
}

fn word_answer(alloc: Global, word: &str, tokens: &[Token]) -> Result<Answer, NoMemory>
    ensures same { IfOk result (λ a. a ≡ or_flags (answer_named word.now) tokens.now) }
    ensures fits { IfOk result IsAnswer }
{
    match answer_named(alloc, word) {
        None => flags_answer(alloc, tokens),
        Some(answer) => Ok(answer),
    }
}

fn texts_answer(alloc: Global, tokens: &[Token]) -> Result<Answer, NoMemory>
    ensures same { IfOk result (λ a. a ≡ texts_answer tokens.now) }
    ensures fits { IfOk result IsAnswer }
{
    match tokens {
        [t] => Ok(Answer::One(text_of(alloc, t)?)),
        _ => Ok(Answer::Texts(texts_of(alloc, tokens)?)),
    }
}

fn nodes_answer(alloc: Global, tokens: &[Token]) -> Result<Answer, NoMemory>
    ensures same { IfOk result (λ a. a ≡ nodes_answer tokens.now) }
    ensures fits { IfOk result IsAnswer }
{
    match tokens {
        [t] => Ok(Answer::Node(node_in(t.text.as_str()))),
        _ => Ok(Answer::Nodes(nodes_of(alloc, tokens)?)),
    }
}

pub(crate) fn answer_of(alloc: Global, tokens: &[Token]) -> Result<Answer, EventRefused>
    ensures reads { Reads result (answer_of tokens.now) }
    ensures fits { IfOk result IsAnswer }
{
    match tokens {
        [] => Err(EventRefused::NotAnEvent),
        [first, ..] => {
            if first.quoted {
                return Ok(texts_answer(alloc, tokens)?);
            }
            let word = first.text.as_str();
            if begins_node(word) {
                return Ok(nodes_answer(alloc, tokens)?);
            }
            Ok(word_answer(alloc, word, tokens)?)
        }
    }
}
