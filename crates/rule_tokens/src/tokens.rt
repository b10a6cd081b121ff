// The tokens of a line, or what is wrong with it.
ghost use Rattle.std.specs.Prelude.{◌≡◌, List, IfOk, Ok, Option, Some, None, encode_utf8_all, option_copied, if◌then◌else◌};
ghost use Rattle.std.specs.Char.{is_ascii_control};
ghost use Rattle.std.specs.List.{list_any};
ghost use Rattle.std.specs.Str.{chars, is_utf8};
ghost use Rattle.rule_tokens.specs.Cases.{ReadsTo, RefusedFor};
ghost use Rattle.rule_tokens.specs.Gives.{Gives, IfBad};
ghost use Rattle.rule_tokens.specs.declared.token.Token.{Token};
ghost use Rattle.rule_tokens.specs.Tokens.{has_bare_backslash, is_backslash, is_blank, token_of, tokens_in, tokens_of, tokens_of_chars};

use crate::cutting::{Raw, cut};
use crate::escapes::unescape;
use crate::{Bad, LineRefused, Token, Tokens};
use ce_base::{NoMemory, Text};
use std::alloc::{AllocError, Global};

/// The text that the bytes are. None exactly where they are not UTF-8.
#[tactic(auto, using(ce_base::proofs::Utf8::utf8_tests))]
pub fn text_in(bytes: &[u8]) -> Option<&str>
    ensures { option_copied result ≡ (if is_utf8 bytes.now then Some bytes.now else None) }
{
    match std::str::from_utf8(bytes) {
        Ok(text) => Some(text),
        Err(_) => None,
    }
}

#[tactic(auto, using(crate::proofs::Utf8::char_lists))]
pub(crate) fn chars_in(alloc: Global, text: &str) -> Result<Vec<char>, AllocError>
    ensures { IfOk result (λ v. v.items ≡ chars text.now) }
{
    text.chars().collect(alloc)
}

fn is_blank(line: &[char]) -> bool
    ensures { result ≡ is_blank line.now }
{
    for c in line {
        if *c != ' ' {
            return *c == '#';
        }
    }
    true
}

fn text_of(alloc: Global, chars: &[char]) -> Result<Text, NoMemory>
    ensures { IfOk result (λ text. text ≡ encode_utf8_all chars.now) }
{
    let mut s = String::new(alloc);
    for c in chars {
        s.push(*c)?;
    }
    Ok(Text::from(s))
}

fn token_of(alloc: Global, raw: &Raw) -> Result<Token, LineRefused>
    ensures { Gives result (token_of raw.now) }
{
    if raw.quoted {
        let chars = unescape(alloc, raw.chars.as_slice())?;
        let text = text_of(alloc, chars.as_slice())?;
        return Ok(Token { quoted: true, text });
    }
    let text = text_of(alloc, raw.chars.as_slice())?;
    Ok(Token {
        quoted: false,
        text,
    })
}

fn tokens_in(alloc: Global, raws: &[Raw]) -> Result<Tokens, LineRefused>
    ensures { Gives result (tokens_in raws.now) }
{
    let mut tokens = Tokens::make(alloc);
    for raw in raws {
        tokens.push(token_of(alloc, raw)?)?;
    }
    Ok(tokens)
}

fn has_control(chars: &[char]) -> bool
    ensures { result ≡ list_any is_ascii_control chars.now }
{
    for c in chars {
        if c.is_ascii_control() {
            return true;
        }
    }
    false
}

fn has_backslash(chars: &[char]) -> bool
    ensures { result ≡ list_any is_backslash chars.now }
{
    for c in chars {
        if *c == '\\' {
            return true;
        }
    }
    false
}

fn any_bare_backslash(raws: &[Raw]) -> bool
    ensures { result ≡ list_any has_bare_backslash raws.now }
{
    for raw in raws {
        if !raw.quoted && has_backslash(raw.chars.as_slice()) {
            return true;
        }
    }
    false
}

#[tactic(auto, unfolding(crate::specs::Tokens::tokens_of_chars))]
fn tokens_of_chars(alloc: Global, line: &[char]) -> Result<Tokens, LineRefused>
    ensures { Gives result (tokens_of_chars line.now) }
{
    let raws = cut(alloc, line)?;
    let tokens = tokens_in(alloc, raws.as_slice())?;
    if has_control(line) || any_bare_backslash(raws.as_slice()) {
        return Err(LineRefused::Bad(Bad::Word));
    }
    Ok(tokens)
}

fn lex(alloc: Global, limit: usize, bytes: &[u8]) -> Result<Option<Tokens>, LineRefused>
    ensures { Gives result (tokens_of limit bytes.now) }
{
    if bytes.len() > limit {
        return Err(LineRefused::Bad(Bad::Long));
    }
    let Some(text) = text_in(bytes) else {
        return Err(LineRefused::Bad(Bad::Utf8));
    };
    let line = chars_in(alloc, text)?;
    if is_blank(line.as_slice()) {
        return Ok(None);
    }
    Ok(Some(tokens_of_chars(alloc, line.as_slice())?))
}

/// The tokens of a line, without its end, or the first thing that is wrong with them. None for a blank
/// line: one of spaces alone or of nothing, or a comment. A line may have `limit` bytes. `NoMemory` comes only
/// where memory was refused, and tells nothing of the line.
pub fn tokens_of(alloc: Global, limit: usize, bytes: &[u8]) -> Result<Option<Tokens>, LineRefused>
    // What is wrong with the line is the first of the cases that tokens show.
    ensures refused { IfBad result (RefusedFor limit bytes.now) }

    // What is read is what the line says, and none of these cases holds.
    ensures read { IfOk result (ReadsTo limit bytes.now) }

    // What a line says without such a fault is read, unless memory is refused.
    ensures only { (said : Option (List Token)) → ReadsTo limit bytes.now said → Gives result (Ok said) }

    // Which it is, as a function that computes.
    ensures exact { Gives result (tokens_of limit bytes.now) }
{
    lex(alloc, limit, bytes)
}
