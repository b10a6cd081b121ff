// Writes lines.
ghost use Rattle.std.specs.Prelude.{◌≡◌, ◌++◌, IfOk, OnOk, string_bytes};
ghost use Rattle.std.specs.Str.{IsUtf8};
ghost use Rattle.rule_tokens.specs.Spaced.{as_line, spaced};
ghost use Rattle.rule_lines.specs.Acts.{line_of, part_of};
ghost use Rattle.rule_lines.specs.Clean.{AreTexts};
ghost use Rattle.rule_writer.specs.Canon.{command_tokens, part_tokens, said_tokens};
ghost use Rattle.rule_writer.specs.Fronts.{part_front};
ghost use Rattle.rule_writer.specs.Pieces.{phrase_tokens};

use crate::action::put_action;
use crate::op::phrase_of;
use crate::operand_words::switch;
use crate::piece::{Phrase, Piece, put_phrase};
use ce_base::{NoMemory, Text};
use rule_lines::{ClassPart, Cmd, Line, Word};
use std::alloc::Global;

// The phrase of a command.
fn command_phrase<'a>(c: &'a Cmd) -> Phrase<'a>
    ensures { phrase_tokens result ≡ command_tokens c.now }
{
    match c {
        Cmd::Both(op) => phrase_of(op),
        Cmd::Doc { var } => Phrase::One(Word::Doc, Piece::Variable(var)),
        Cmd::UserEdit { node, value } => Phrase::Three(
            Word::User,
            Piece::Word(Word::Edit),
            Piece::Node(node),
            Piece::Chars(value),
        ),
        Cmd::UserCheck { node, on } => Phrase::Three(
            Word::User,
            Piece::Word(Word::Check),
            Piece::Node(node),
            Piece::Word(switch(*on)),
        ),
        Cmd::UserChoose { node, on } => Phrase::Three(
            Word::User,
            Piece::Word(Word::Choose),
            Piece::Node(node),
            Piece::Word(switch(*on)),
        ),
        Cmd::UserReset { form } => {
            Phrase::Two(Word::User, Piece::Word(Word::Reset), Piece::Node(form))
        }
        Cmd::UserRestore { node, value } => Phrase::Three(
            Word::User,
            Piece::Word(Word::Restore),
            Piece::Node(node),
            Piece::Chars(value),
        ),
        Cmd::UserAutofill { node, value } => Phrase::Three(
            Word::User,
            Piece::Word(Word::Autofill),
            Piece::Node(node),
            Piece::Chars(value),
        ),
        Cmd::UserPress { node } => {
            Phrase::Two(Word::User, Piece::Word(Word::Press), Piece::Node(node))
        }
    }
}

// The phrase of a part of a class, up to the action within.
fn part_phrase<'a>(part: &'a ClassPart) -> Phrase<'a>
    ensures { phrase_tokens result ≡ part_front (part_of part.now) }
{
    match part {
        ClassPart::Class(name) => Phrase::One(Word::Class, Piece::Class(name)),
        ClassPart::On { class, call, .. } => Phrase::Three(
            Word::On,
            Piece::Class(class),
            Piece::Callback(*call),
            Piece::Word(Word::Colon),
        ),
        ClassPart::Has { class, call } => {
            Phrase::Two(Word::Has, Piece::Class(class), Piece::Callback(*call))
        }
        ClassPart::Observe { class, names } => {
            Phrase::Two(Word::Observe, Piece::Class(class), Piece::AllChars(names))
        }
        ClassPart::Associate(class) => Phrase::One(Word::Associate, Piece::Class(class)),
        ClassPart::DisableShadow(class) => Phrase::Two(
            Word::Disable,
            Piece::Class(class),
            Piece::Word(Word::Shadow),
        ),
        ClassPart::DisableInternals(class) => Phrase::Two(
            Word::Disable,
            Piece::Class(class),
            Piece::Word(Word::Internals),
        ),
    }
}

fn put_part(alloc: Global, out: &mut String, part: &ClassPart) -> Result<(), NoMemory>
    ensures text { OnOk result (string_bytes out.new ≡ string_bytes out.old ++ spaced (part_tokens (part_of part.now))) }
    ensures utf8 { OnOk result (AreTexts (part_tokens (part_of part.now))) }
{
    put_phrase(alloc, out, &part_phrase(part))?;
    match part {
        ClassPart::On { action, .. } => put_action(alloc, out, action),
        _ => Ok(()),
    }
}

fn put_line(alloc: Global, out: &mut String, line: &Line) -> Result<(), NoMemory>
    ensures text { OnOk result (string_bytes out.new ≡ string_bytes out.old ++ spaced (said_tokens (line_of line.now))) }
    ensures utf8 { OnOk result (AreTexts (said_tokens (line_of line.now))) }
{
    match line {
        Line::Blank => Ok(()),
        Line::Command(c) => put_phrase(alloc, out, &command_phrase(c)),
        Line::Part(part) => put_part(alloc, out, part),
    }
}

/// The canonical tokens of a line, with one space between them. `NoMemory` comes only where memory was refused.
pub fn as_line(alloc: Global, line: &Line) -> Result<Text, NoMemory>
    ensures text { IfOk result (λ t. t ≡ as_line (said_tokens (line_of line.now))) }
    ensures utf8 { IfOk result (λ t. IsUtf8 t) }

    // What its quoted tokens say are texts.
    ensures texts { OnOk result (AreTexts (said_tokens (line_of line.now))) }
{
    let mut out = String::new(alloc);
    put_line(alloc, &mut out, line)?;
    match out.as_str().strip_prefix(' ') {
        None => Text::of(alloc, ""),
        Some(text) => Text::of(alloc, text),
    }
}
