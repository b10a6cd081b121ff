// The phrases of operations.
ghost use Rattle.std.specs.Prelude.{◌≡◌, false, true};
ghost use Rattle.rule_reader.specs.declared.form.Leaf.TheVariants as leaves;
ghost use Rattle.rule_writer.specs.Canon.{leaf_tokens};
ghost use Rattle.rule_writer.specs.Pieces.{phrase_tokens};
ghost use Rattle.rule_writer.specs.Subjects.{is_for_control, is_for_states, is_on_tree, sets_variable};

use crate::operand_words::{ask_as, switch};
use crate::piece::{Phrase, Piece};
use rule_lines::{Keyword, Op, Word};

// Of an operation on controls or forms, or of a question.
fn control_phrase<'a>(op: &'a Op) -> Phrase<'a>
    requires { is_for_control op.now ≡ true }
    ensures { phrase_tokens result ≡ leaf_tokens (leaves.Both op.now) }
{
    match op {
        Op::Reset { form } => Phrase::One(Word::Reset, Piece::Node(form)),
        Op::Value { node, value } => Phrase::Two(
            Word::Value,
            Piece::Node(node),
            Piece::Value(value),
        ),
        Op::Check { node, on } => Phrase::Two(
            Word::Check,
            Piece::Node(node),
            Piece::Word(switch(*on)),
        ),
        Op::Choose { node, on } => Phrase::Two(
            Word::Choose,
            Piece::Node(node),
            Piece::Word(switch(*on)),
        ),
        Op::Custom { node, message } => Phrase::Two(
            Word::Custom,
            Piece::Node(node),
            Piece::Value(message),
        ),
        Op::Submit { form } => Phrase::One(Word::Submit, Piece::Node(form)),
        Op::Request { form, submitter } => Phrase::Two(
            Word::Request,
            Piece::Node(form),
            Piece::MaybeNode(submitter),
        ),
        Op::Ask { word, node, name } => Phrase::Three(
            Word::Ask,
            Piece::Word(ask_as(*word)),
            Piece::Node(node),
            Piece::MaybeChars(name),
        ),
        _ => unreachable!(),
    }
}

// Of an operation on the custom states of an element.
fn states_phrase<'a>(op: &'a Op) -> Phrase<'a>
    requires { is_for_states op.now ≡ true }
    ensures { phrase_tokens result ≡ leaf_tokens (leaves.Both op.now) }
{
    match op {
        Op::StateAdd { node, word } => Phrase::Three(
            Word::State,
            Piece::Node(node),
            Piece::Word(Word::Add),
            Piece::Chars(word),
        ),
        Op::StateDelete { node, word } => Phrase::Three(
            Word::State,
            Piece::Node(node),
            Piece::Word(Word::Delete),
            Piece::Chars(word),
        ),
        Op::StateClear { node } => Phrase::Two(
            Word::State,
            Piece::Node(node),
            Piece::Word(Word::Clear),
        ),
        _ => unreachable!(),
    }
}

// Of an operation on definitions or element internals, or of one on controls.
fn element_phrase<'a>(op: &'a Op) -> Phrase<'a>
    requires { is_on_tree op.now ≡ false }
    ensures { phrase_tokens result ≡ leaf_tokens (leaves.Both op.now) }
{
    match op {
        Op::Define { name, class, base } => Phrase::Three(
            Word::Define,
            Piece::Chars(name),
            Piece::Class(class),
            Piece::KeyedChars(Keyword::Extends, base),
        ),
        Op::Upgrade { node } => Phrase::One(Word::Upgrade, Piece::Node(node)),
        Op::Internals { node } => Phrase::One(Word::Internals, Piece::Node(node)),
        Op::FormValue { node, value, saved } => Phrase::Three(
            Word::FormValue,
            Piece::Node(node),
            Piece::Value(value),
            Piece::KeyedValue(Keyword::State, saved),
        ),
        Op::FormList { node, entries } => Phrase::Two(
            Word::FormList,
            Piece::Node(node),
            Piece::AllEntries(entries),
        ),
        Op::FormNull { node } => Phrase::One(Word::FormNull, Piece::Node(node)),
        Op::Validity {
            node,
            flags,
            message,
        } => Phrase::Three(
            Word::Validity,
            Piece::Node(node),
            Piece::Flags(flags),
            Piece::Value(message),
        ),
        Op::StateAdd { .. } | Op::StateDelete { .. } | Op::StateClear { .. } => states_phrase(op),
        _ => control_phrase(op),
    }
}

// Of an operation on nodes that are there, or on their attributes, or of one on elements.
fn tree_phrase<'a>(op: &'a Op) -> Phrase<'a>
    requires { sets_variable op.now ≡ false }
    ensures { phrase_tokens result ≡ leaf_tokens (leaves.Both op.now) }
{
    match op {
        Op::Append { parent, node } => Phrase::Two(
            Word::Append,
            Piece::Node(parent),
            Piece::Node(node),
        ),
        Op::Before {
            parent,
            node,
            before,
        } => Phrase::Three(
            Word::Before,
            Piece::Node(parent),
            Piece::Node(node),
            Piece::Node(before),
        ),
        Op::Remove { parent, node } => Phrase::Two(
            Word::Remove,
            Piece::Node(parent),
            Piece::Node(node),
        ),
        Op::Detach { node } => Phrase::One(Word::Detach, Piece::Node(node)),
        Op::SetAttr { node, name, value } => Phrase::Three(
            Word::SetAttr,
            Piece::Node(node),
            Piece::Chars(name),
            Piece::Value(value),
        ),
        Op::DelAttr { node, name } => Phrase::Two(
            Word::DelAttr,
            Piece::Node(node),
            Piece::Chars(name),
        ),
        Op::Adopt { document, node } => Phrase::Two(
            Word::Adopt,
            Piece::Node(document),
            Piece::Node(node),
        ),
        _ => element_phrase(op),
    }
}

/// The phrase of an operation.
pub(crate) fn phrase_of<'a>(op: &'a Op) -> Phrase<'a>
    ensures { phrase_tokens result ≡ leaf_tokens (leaves.Both op.now) }
{
    match op {
        Op::Create {
            var,
            local,
            is_value,
            document,
        } => Phrase::Four(
            Word::Create,
            Piece::Variable(var),
            Piece::Chars(local),
            Piece::KeyedChars(Keyword::Is, is_value),
            Piece::KeyedNode(Keyword::In, document),
        ),
        Op::New { var, class } => Phrase::Two(Word::New, Piece::Variable(var), Piece::Class(class)),
        Op::MakeText {
            var,
            chars,
            document,
        } => Phrase::Three(
            Word::Text,
            Piece::Variable(var),
            Piece::Chars(chars),
            Piece::KeyedNode(Keyword::In, document),
        ),
        Op::Shadow { var, host } => Phrase::Two(
            Word::Shadow,
            Piece::Variable(var),
            Piece::Node(host),
        ),
        Op::Clone { var, node, deep } => Phrase::Three(
            Word::Clone,
            Piece::Variable(var),
            Piece::Node(node),
            Piece::Marked(Keyword::Deep, *deep),
        ),
        Op::Let { var, node } => Phrase::Two(Word::Let, Piece::Variable(var), Piece::Node(node)),
        _ => tree_phrase(op),
    }
}
