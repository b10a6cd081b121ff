// Writes an operand, with a space before it.
ghost use Rattle.std.specs.Prelude.{◌≡◌, ◌++◌, ◌∷◌, OnOk, string_bytes};
ghost use Rattle.std.specs.Str.{IsUtf8};
ghost use Rattle.rule_tokens.specs.FlagsText.{flags_text};
ghost use Rattle.rule_tokens.specs.Quoted.{in_quotes};
ghost use Rattle.rule_tokens.specs.Spaced.{spaced};
ghost use Rattle.rule_lines.specs.Canon.{tokens_of};
ghost use Rattle.rule_lines.specs.declared.read_as.ReadAs.TheVariants as read_as;
ghost use Rattle.rule_lines.specs.Clean.{AreTexts};

use ce_base::{Flags, NoMemory};
use rule_tokens::{Operand, Val, push_flags, push_quoted};
use std::alloc::Global;

pub(crate) fn put_bare(out: &mut String, text: &str) -> Result<(), NoMemory>
    ensures { OnOk result (string_bytes out.new ≡ string_bytes out.old ++ 32 ∷ text.now) }
{
    out.push(' ')?;
    out.push_str(text)?;
    Ok(())
}

pub(crate) fn put_variable(out: &mut String, name: &str) -> Result<(), NoMemory>
    ensures { OnOk result (string_bytes out.new ≡ string_bytes out.old ++ 32 ∷ 36 ∷ name.now) }
{
    out.push_str(" $")?;
    out.push_str(name)?;
    Ok(())
}

pub(crate) fn put_text(alloc: Global, out: &mut String, text: &str) -> Result<(), NoMemory>
    ensures text { OnOk result (string_bytes out.new ≡ string_bytes out.old ++ 32 ∷ in_quotes text.now) }
    ensures utf8 { OnOk result (IsUtf8 text.now) }
{
    out.push(' ')?;
    push_quoted(alloc, out, text)
}

pub(crate) fn put_node(out: &mut String, node: &Operand) -> Result<(), NoMemory>
    ensures { OnOk result (string_bytes out.new ≡ string_bytes out.old ++ spaced (tokens_of (read_as.Node node.now))) }
{
    match node {
        Operand::Doc => put_bare(out, "doc"),
        Operand::This => put_bare(out, "this"),
        Operand::Variable(name) => put_variable(out, name.as_str()),
    }
}

pub(crate) fn put_value(alloc: Global, out: &mut String, val: &Val) -> Result<(), NoMemory>
    ensures text { OnOk result (string_bytes out.new ≡ string_bytes out.old ++ spaced (tokens_of (read_as.Value val.now))) }
    ensures utf8 { OnOk result (AreTexts (tokens_of (read_as.Value val.now))) }
{
    match val {
        Val::Fixed(text) => put_text(alloc, out, text.as_str()),
        Val::Count => put_bare(out, "@count"),
        Val::Kept => put_bare(out, "@kept"),
        Val::First => put_bare(out, "@1"),
        Val::Second => put_bare(out, "@2"),
        Val::Third => put_bare(out, "@3"),
    }
}

pub(crate) fn put_flags(out: &mut String, raised: &Flags) -> Result<(), NoMemory>
    ensures { OnOk result (string_bytes out.new ≡ string_bytes out.old ++ 32 ∷ flags_text raised.now.0) }
{
    out.push(' ')?;
    push_flags(out, raised)
}
