// Writes optional parts.
ghost use Rattle.std.specs.Prelude.{◌≡◌, ◌++◌, OnOk, string_bytes};
ghost use Rattle.rule_tokens.specs.Spaced.{spaced};
ghost use Rattle.rule_lines.specs.Canon.{keyed, tokens_of};
ghost use Rattle.rule_lines.specs.declared.read_as.ReadAs.TheVariants as read_as;
ghost use Rattle.rule_reader.specs.AsRead.{mark, part};
ghost use Rattle.rule_lines.specs.Clean.{AreTexts};

use crate::operand_text::{put_bare, put_node, put_text, put_value};
use ce_base::{NoMemory, Text};
use rule_lines::Keyword;
use rule_tokens::{Operand, Val};
use std::alloc::Global;

pub(crate) fn put_some_node(out: &mut String, node: &Option<Operand>) -> Result<(), NoMemory>
    ensures { OnOk result (string_bytes out.new ≡ string_bytes out.old ++ spaced (tokens_of (part read_as.Node node.now))) }
{
    match node {
        None => Ok(()),
        Some(node) => put_node(out, node),
    }
}

pub(crate) fn put_some_text(
    alloc: Global,
    out: &mut String,
    text: &Option<Text>,
) -> Result<(), NoMemory>
    ensures text { OnOk result (string_bytes out.new ≡ string_bytes out.old ++ spaced (tokens_of (part read_as.Chars text.now))) }
    ensures utf8 { OnOk result (AreTexts (tokens_of (part read_as.Chars text.now))) }
{
    match text {
        None => Ok(()),
        Some(text) => put_text(alloc, out, text.as_str()),
    }
}

pub(crate) fn put_mark(out: &mut String, word: Keyword, there: bool) -> Result<(), NoMemory>
    ensures { OnOk result (string_bytes out.new ≡ string_bytes out.old ++ spaced (keyed word (mark there))) }
{
    if there {
        return put_bare(out, word.text());
    }
    Ok(())
}

pub(crate) fn put_keyed_text(
    alloc: Global,
    out: &mut String,
    word: Keyword,
    text: &Option<Text>,
) -> Result<(), NoMemory>
    ensures text { OnOk result (string_bytes out.new ≡ string_bytes out.old ++ spaced (keyed word (part read_as.Chars text.now))) }
    ensures utf8 { OnOk result (AreTexts (keyed word (part read_as.Chars text.now))) }
{
    match text {
        None => Ok(()),
        Some(text) => {
            put_bare(out, word.text())?;
            put_text(alloc, out, text.as_str())
        }
    }
}

pub(crate) fn put_keyed_node(
    out: &mut String,
    word: Keyword,
    node: &Option<Operand>,
) -> Result<(), NoMemory>
    ensures { OnOk result (string_bytes out.new ≡ string_bytes out.old ++ spaced (keyed word (part read_as.Node node.now))) }
{
    match node {
        None => Ok(()),
        Some(node) => {
            put_bare(out, word.text())?;
            put_node(out, node)
        }
    }
}

pub(crate) fn put_keyed_value(
    alloc: Global,
    out: &mut String,
    word: Keyword,
    val: &Option<Val>,
) -> Result<(), NoMemory>
    ensures text { OnOk result (string_bytes out.new ≡ string_bytes out.old ++ spaced (keyed word (part read_as.Value val.now))) }
    ensures utf8 { OnOk result (AreTexts (keyed word (part read_as.Value val.now))) }
{
    match val {
        None => Ok(()),
        Some(val) => {
            put_bare(out, word.text())?;
            put_value(alloc, out, val)
        }
    }
}
