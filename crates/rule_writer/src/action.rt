// Writes actions.
ghost use Rattle.std.specs.Prelude.{◌≡◌, ◌++◌, OnOk, string_bytes};
ghost use Rattle.rule_tokens.specs.Spaced.{spaced};
ghost use Rattle.rule_lines.specs.Acts.{act_of};
ghost use Rattle.rule_lines.specs.Clean.{AreTexts};
ghost use Rattle.rule_writer.specs.Canon.{act_tokens};
ghost use Rattle.rule_writer.specs.Fronts.{act_front};
ghost use Rattle.rule_writer.specs.Pieces.{phrase_tokens};

use crate::op::phrase_of;
use crate::operand_words::test;
use crate::piece::{Phrase, Piece, put_phrase};
use ce_base::NoMemory;
use rule_lines::{Action, Word};
use std::alloc::Global;

// The phrase of an action, up to the action within.
fn front_of<'a>(action: &'a Action) -> Phrase<'a>
    ensures { phrase_tokens result ≡ act_front (act_of action.now) }
{
    match action {
        Action::Both(op) => phrase_of(op),
        Action::Log(vals) => Phrase::One(Word::Log, Piece::AllValues(vals)),
        Action::Super => Phrase::Alone(Word::Super),
        Action::Return(node) => Phrase::One(Word::Return, Piece::MaybeNode(node)),
        Action::Throw(value) => Phrase::One(Word::Throw, Piece::Value(value)),
        Action::Bump => Phrase::Alone(Word::Bump),
        Action::Keep(value) => Phrase::One(Word::Keep, Piece::Value(value)),
        Action::Try(_) => Phrase::Alone(Word::Try),
        Action::If {
            equal,
            left,
            right,
            ..
        } => Phrase::Four(
            Word::If,
            Piece::Word(test(*equal)),
            Piece::Value(left),
            Piece::Value(right),
            Piece::Word(Word::Colon),
        ),
    }
}

pub(crate) fn put_action(alloc: Global, out: &mut String, action: &Action) -> Result<(), NoMemory>
    ensures text { OnOk result (string_bytes out.new ≡ string_bytes out.old ++ spaced (act_tokens (act_of action.now))) }
    ensures utf8 { OnOk result (AreTexts (act_tokens (act_of action.now))) }
{
    put_phrase(alloc, out, &front_of(action))?;
    match action {
        Action::Try(inner) => put_action(alloc, out, inner),
        Action::If { then, .. } => put_action(alloc, out, then),
        _ => Ok(()),
    }
}
