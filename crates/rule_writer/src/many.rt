// Writes operands that repeat.
ghost use Rattle.std.specs.Prelude.{◌≡◌, ◌++◌, OnOk, map, string_bytes};
ghost use Rattle.rule_tokens.specs.Spaced.{spaced};
ghost use Rattle.rule_lines.specs.Canon.{all_tokens};
ghost use Rattle.rule_lines.specs.declared.read_as.ReadAs.TheVariants as read_as;
ghost use Rattle.rule_reader.specs.AsRead.{pairs};
ghost use Rattle.rule_lines.specs.Clean.{AreTexts};

use crate::operand_text::{put_text, put_value};
use ce_base::{Entry, NoMemory, Text};
use rule_tokens::Val;
use std::alloc::Global;

pub(crate) fn put_values(alloc: Global, out: &mut String, vals: &[Val]) -> Result<(), NoMemory>
    ensures text { OnOk result (string_bytes out.new ≡ string_bytes out.old ++ spaced (all_tokens (map read_as.Value vals.now))) }
    ensures utf8 { OnOk result (AreTexts (all_tokens (map read_as.Value vals.now))) }
{
    for val in vals {
        put_value(alloc, out, val)?;
    }
    Ok(())
}

pub(crate) fn put_texts(alloc: Global, out: &mut String, texts: &[Text]) -> Result<(), NoMemory>
    ensures text { OnOk result (string_bytes out.new ≡ string_bytes out.old ++ spaced (all_tokens (map read_as.Chars texts.now))) }
    ensures utf8 { OnOk result (AreTexts (all_tokens (map read_as.Chars texts.now))) }
{
    for text in texts {
        put_text(alloc, out, text.as_str())?;
    }
    Ok(())
}

pub(crate) fn put_entries(
    alloc: Global,
    out: &mut String,
    entries: &[Entry],
) -> Result<(), NoMemory>
    ensures text { OnOk result (string_bytes out.new ≡ string_bytes out.old ++ spaced (all_tokens (pairs entries.now))) }
    ensures utf8 { OnOk result (AreTexts (all_tokens (pairs entries.now))) }
{
    for entry in entries {
        put_text(alloc, out, entry.name.as_str())?;
        put_text(alloc, out, entry.value.as_str())?;
    }
    Ok(())
}
