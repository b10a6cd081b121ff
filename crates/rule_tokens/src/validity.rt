// Validity flags, as a token names them.
ghost use Rattle.std.specs.Prelude.{◌≡◌, ◌<◌, ◌++◌, ◌||◌, [], IfOk, OnOk, map, slice_index_or, string_bytes};
ghost use Rattle.std.specs.List.{list_all, list_any, slice_split};
ghost use Rattle.std.specs.Str.{bytes_eq};
ghost use Rattle.rule_tokens.specs.Flags.{flag_names, flags, is_comma, is_one_of, raised};
ghost use Rattle.rule_tokens.specs.FlagsText.{flags_text, names_joined, put_name, raised_names};
ghost use Rattle.rule_tokens.specs.Gives.{GivesSeen, or_word};

use crate::{Bad, LineRefused, Token};
use ce_base::{Flags, NoMemory, Text, Texts};
use std::alloc::{AllocError, Global};

const FLAG_NAMES: [&str; 10] = [
    "valueMissing",
    "typeMismatch",
    "patternMismatch",
    "tooLong",
    "tooShort",
    "rangeUnderflow",
    "rangeOverflow",
    "stepMismatch",
    "badInput",
    "customError",
];

fn is_one_of(text: &str, names: &[&str]) -> bool
    ensures { result ≡ list_any (λ name. bytes_eq text.now name.now) names.now }
{
    for name in names {
        if text == *name {
            return true;
        }
    }
    false
}

fn is_flag_name(name: &str) -> bool
    ensures { result ≡ is_one_of flag_names name.now }
{
    is_one_of(name, &FLAG_NAMES)
}

fn are_flag_names(names: &[Text]) -> bool
    ensures { result ≡ list_all (is_one_of flag_names) names.now }
{
    for name in names {
        if !is_flag_name(name.as_str()) {
            return false;
        }
    }
    true
}

fn has(names: &[Text], flag: &str) -> bool
    ensures { result ≡ is_one_of names.now flag.now }
{
    for name in names {
        if flag == name.as_str() {
            return true;
        }
    }
    false
}

/// The validity flags whose names are among these.
pub fn raised(names: &[Text]) -> Flags
    ensures { result.0 ≡ raised names.now }
{
    Flags([
        has(names, "valueMissing"),
        has(names, "typeMismatch"),
        has(names, "patternMismatch"),
        has(names, "tooLong"),
        has(names, "tooShort"),
        has(names, "rangeUnderflow"),
        has(names, "rangeOverflow"),
        has(names, "stepMismatch"),
        has(names, "badInput"),
        has(names, "customError"),
    ])
}

fn pieces(alloc: Global, text: &str) -> Result<Vec<&str>, AllocError>
    ensures { IfOk result (λ v. map (λ x. x.now) v.items ≡ slice_split is_comma text.now) }
{
    text.split(',').collect(alloc)
}

fn names_in(alloc: Global, text: &str) -> Result<Texts, NoMemory>
    ensures { IfOk result (λ names. names ≡ slice_split is_comma text.now) }
{
    let parts = pieces(alloc, text)?;
    let mut names = Texts::make(alloc);
    for part in &parts {
        names.push(alloc, Text::of(alloc, part)?)?;
    }
    Ok(names)
}

/// The flags that the token names: `none`, or names joined by commas. A flag named twice is raised once. It is refused
/// as `Bad::Word` where it is quoted, or a name is no flag's. `NoMemory`: see `LineRefused`.
pub fn flags(alloc: Global, t: &Token) -> Result<Flags, LineRefused>
    ensures { GivesSeen (λ f. f.0) result (or_word (flags t.now)) }
{
    if t.quoted {
        return Err(LineRefused::Bad(Bad::Word));
    }
    if t.text.as_str() == "none" {
        return Ok(raised(&[]));
    }
    let names = names_in(alloc, t.text.as_str())?;
    if !are_flag_names(names.as_slice()) {
        return Err(LineRefused::Bad(Bad::Word));
    }
    Ok(raised(names.as_slice()))
}

fn flag_name(i: usize) -> &'static str
    requires { i < 10 }
    ensures { result.now ≡ slice_index_or flag_names i [] }
{
    match i {
        0 => "valueMissing",
        1 => "typeMismatch",
        2 => "patternMismatch",
        3 => "tooLong",
        4 => "tooShort",
        5 => "rangeUnderflow",
        6 => "rangeOverflow",
        7 => "stepMismatch",
        8 => "badInput",
        _ => "customError",
    }
}

fn push_name(
    out: &mut String,
    between: &str,
    named: bool,
    raised: bool,
    name: &str,
) -> Result<bool, NoMemory>
    ensures text { OnOk result (string_bytes out.new ≡ string_bytes out.old ++ put_name between.now named raised name.now) }
    ensures named { IfOk result (λ r. r ≡ (named || raised)) }
{
    if !raised {
        return Ok(named);
    }
    if named {
        out.push_str(between)?;
    }
    out.push_str(name)?;
    Ok(true)
}

/// Puts the names of the validity flags that are raised at the end, in their order, with a text between
/// them, or the text for none. `NoMemory` comes only where memory was refused, and then what is written to is only
/// dropped.
pub fn push_names(
    out: &mut String,
    raised: &Flags,
    between: &str,
    none: &str,
) -> Result<(), NoMemory>
    ensures { OnOk result (string_bytes out.new ≡ string_bytes out.old ++ names_joined between.now none.now (raised_names flag_names raised.now.0)) }
{
    let mut named = false;
    for i in 0..10 {
        named = push_name(out, between, named, raised.0[i], flag_name(i))?;
    }
    if !named {
        out.push_str(none)?;
    }
    Ok(())
}

/// Puts the canonical text of validity flags at the end: their names with commas between them, or `none`. `NoMemory`:
/// see `push_names`.
pub fn push_flags(out: &mut String, raised: &Flags) -> Result<(), NoMemory>
    ensures { OnOk result (string_bytes out.new ≡ string_bytes out.old ++ flags_text raised.now.0) }
{
    push_names(out, raised, ",", "none")
}
