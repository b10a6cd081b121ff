// The pieces of a canonical line.
ghost use Rattle.std.specs.Prelude.{◌≡◌, ◌++◌, OnOk, string_bytes};
ghost use Rattle.rule_tokens.specs.Spaced.{spaced};
ghost use Rattle.rule_writer.specs.Pieces.{all_pieces, phrase_tokens, piece_tokens};
ghost use Rattle.rule_lines.specs.Clean.{AreTexts};

use crate::many::{put_entries, put_texts, put_values};
use crate::operand_text::{put_bare, put_flags, put_node, put_text, put_value, put_variable};
use crate::optional::{
    put_keyed_node, put_keyed_text, put_keyed_value, put_mark, put_some_node, put_some_text,
};
use ce_base::{Entries, Flags, NoMemory, Text, Texts};
use rule_lines::{Keyword, Vals, Word};
use rule_tokens::{CallName, Operand, Val};
use std::alloc::Global;

/// A piece of a line: a fixed word, an operand, an optional part, or operands that repeat.
#[derive(Clone, Copy)]
pub(crate) enum Piece<'a> {
    Word(Word),
    Variable(&'a Text),
    Node(&'a Operand),
    Class(&'a Text),
    Chars(&'a Text),
    Value(&'a Val),
    Flags(&'a Flags),
    Callback(CallName),
    MaybeNode(&'a Option<Operand>),
    MaybeChars(&'a Option<Text>),
    KeyedChars(Keyword, &'a Option<Text>),
    KeyedNode(Keyword, &'a Option<Operand>),
    KeyedValue(Keyword, &'a Option<Val>),
    Marked(Keyword, bool),
    AllValues(&'a Vals),
    AllChars(&'a Texts),
    AllEntries(&'a Entries),
}

fn put(alloc: Global, out: &mut String, piece: &Piece) -> Result<(), NoMemory>
    ensures text { OnOk result (string_bytes out.new ≡ string_bytes out.old ++ spaced (piece_tokens piece.now)) }
    ensures utf8 { OnOk result (AreTexts (piece_tokens piece.now)) }
{
    match piece {
        Piece::Word(word) => put_bare(out, word.text()),
        Piece::Variable(name) => put_variable(out, name.as_str()),
        Piece::Node(node) => put_node(out, node),
        Piece::Class(name) => put_bare(out, name.as_str()),
        Piece::Chars(text) => put_text(alloc, out, text.as_str()),
        Piece::Value(val) => put_value(alloc, out, val),
        Piece::Flags(raised) => put_flags(out, raised),
        Piece::Callback(call) => put_bare(out, call.word()),
        Piece::MaybeNode(node) => put_some_node(out, node),
        Piece::MaybeChars(text) => put_some_text(alloc, out, text),
        Piece::KeyedChars(word, text) => put_keyed_text(alloc, out, *word, text),
        Piece::KeyedNode(word, node) => put_keyed_node(out, *word, node),
        Piece::KeyedValue(word, val) => put_keyed_value(alloc, out, *word, val),
        Piece::Marked(word, there) => put_mark(out, *word, *there),
        Piece::AllValues(vals) => put_values(alloc, out, vals.as_slice()),
        Piece::AllChars(texts) => put_texts(alloc, out, texts.as_slice()),
        Piece::AllEntries(entries) => put_entries(alloc, out, entries.as_slice()),
    }
}

fn put_all(alloc: Global, out: &mut String, pieces: &[Piece]) -> Result<(), NoMemory>
    ensures text { OnOk result (string_bytes out.new ≡ string_bytes out.old ++ spaced (all_pieces pieces.now)) }
    ensures utf8 { OnOk result (AreTexts (all_pieces pieces.now)) }
{
    for piece in pieces {
        put(alloc, out, piece)?;
    }
    Ok(())
}

/// A word, and the pieces behind it.
#[derive(Clone, Copy)]
pub(crate) enum Phrase<'a> {
    Alone(Word),
    One(Word, Piece<'a>),
    Two(Word, Piece<'a>, Piece<'a>),
    Three(Word, Piece<'a>, Piece<'a>, Piece<'a>),
    Four(Word, Piece<'a>, Piece<'a>, Piece<'a>, Piece<'a>),
}

/// Writes a phrase, each token behind a space.
pub(crate) fn put_phrase<'a>(
    alloc: Global,
    out: &mut String,
    phrase: &Phrase<'a>,
) -> Result<(), NoMemory>
    ensures text { OnOk result (string_bytes out.new ≡ string_bytes out.old ++ spaced (phrase_tokens phrase.now)) }
    ensures utf8 { OnOk result (AreTexts (phrase_tokens phrase.now)) }
{
    match phrase {
        Phrase::Alone(word) => put_bare(out, word.text()),
        Phrase::One(word, first) => put_all(alloc, out, &[Piece::Word(*word), *first]),
        Phrase::Two(word, first, second) => {
            put_all(alloc, out, &[Piece::Word(*word), *first, *second])
        }
        Phrase::Three(word, first, second, third) => {
            put_all(alloc, out, &[Piece::Word(*word), *first, *second, *third])
        }
        Phrase::Four(word, first, second, third, fourth) => put_all(
            alloc,
            out,
            &[Piece::Word(*word), *first, *second, *third, *fourth],
        ),
    }
}
