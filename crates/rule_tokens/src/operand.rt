// What a token says as an operand.
ghost use Rattle.std.specs.Prelude.{◌≡◌, IfOk, option_copied};
ghost use Rattle.std.specs.List.{list_all};
ghost use Rattle.rule_tokens.specs.Gives.{Gives, or_word};
ghost use Rattle.rule_tokens.specs.OperandForms.{call_name, class_name, is_class, is_class_part, is_marked, is_variable, is_variable_part};
ghost use Rattle.rule_tokens.specs.OperandForms.{is_word, node, text, value, variable, variable_in};

use crate::{Bad, CallName, LineRefused, Token};
use ce_base::{NoMemory, Text};
use std::alloc::Global;

/// A node, as a line names it.
#[derive(Drop)]
pub enum Operand {
    /// `doc`: the page's document.
    Doc,
    /// `this`: in a body, the element whose callback runs or that is constructed.
    This,
    /// The node that a variable holds. Its text is kept without its `$`.
    Variable(Text),
}

/// A text, as a line names it.
#[derive(Drop)]
pub enum Val {
    /// This text.
    Fixed(Text),
    /// `@count`: the class's counter, in decimal.
    Count,
    /// `@kept`: the text that the class keeps.
    Kept,
    /// `@1`: the callback's first argument.
    First,
    /// `@2`: the callback's second argument.
    Second,
    /// `@3`: the callback's third argument.
    Third,
}

impl Operand {
    /// A second operand that names the same node. `NoMemory` comes only where memory was refused.
    pub fn copy(&self, alloc: Global) -> Result<Operand, NoMemory>
        ensures { IfOk result (λ x. x ≡ self.now) }
    {
        match self {
            Operand::Doc => Ok(Operand::Doc),
            Operand::This => Ok(Operand::This),
            Operand::Variable(name) => Ok(Operand::Variable(name.copy(alloc)?)),
        }
    }
}

impl Val {
    /// A second value that names the same text. `NoMemory` comes only where memory was refused.
    pub fn copy(&self, alloc: Global) -> Result<Val, NoMemory>
        ensures { IfOk result (λ x. x ≡ self.now) }
    {
        match self {
            Val::Fixed(text) => Ok(Val::Fixed(text.copy(alloc)?)),
            Val::Count => Ok(Val::Count),
            Val::Kept => Ok(Val::Kept),
            Val::First => Ok(Val::First),
            Val::Second => Ok(Val::Second),
            Val::Third => Ok(Val::Third),
        }
    }
}

fn is_variable_part(b: u8) -> bool
    ensures { result ≡ is_variable_part b }
{
    b.is_ascii_lowercase() || b.is_ascii_digit() || b == b'_'
}

fn are_variable_parts(bytes: &[u8]) -> bool
    ensures { result ≡ list_all is_variable_part bytes.now }
{
    for b in bytes {
        if !is_variable_part(*b) {
            return false;
        }
    }
    true
}

fn is_variable(bytes: &[u8]) -> bool
    ensures { result ≡ is_variable bytes.now }
{
    match bytes {
        [] => false,
        [first, rest @ ..] => {
            if !first.is_ascii_lowercase() || rest.len() >= 32 {
                return false;
            }
            are_variable_parts(rest)
        }
    }
}

fn is_class_part(b: u8) -> bool
    ensures { result ≡ is_class_part b }
{
    b.is_ascii_alphanumeric() || b == b'_'
}

fn are_class_parts(bytes: &[u8]) -> bool
    ensures { result ≡ list_all is_class_part bytes.now }
{
    for b in bytes {
        if !is_class_part(*b) {
            return false;
        }
    }
    true
}

fn is_class(bytes: &[u8]) -> bool
    ensures { result ≡ is_class bytes.now }
{
    match bytes {
        [] => false,
        [first, rest @ ..] => {
            if !first.is_ascii_uppercase() || rest.len() >= 32 {
                return false;
            }
            are_class_parts(rest)
        }
    }
}

fn is_marked(bytes: &[u8]) -> bool
    ensures { result ≡ is_marked bytes.now }
{
    match bytes {
        [] => false,
        [first, ..] => *first == b'$' || *first == b'@',
    }
}

fn variable_in(token: &str) -> Option<&str>
    ensures { variable_in token.now ≡ option_copied result }
{
    match token.as_bytes() {
        [] => None,
        [first, rest @ ..] => {
            if *first != b'$' || !is_variable(rest) {
                return None;
            }
            Some(&token[1..])
        }
    }
}

/// Whether the token is bare, and this word.
pub fn is_word(t: &Token, word: &str) -> bool
    ensures { result ≡ is_word word.now t.now }
{
    !t.quoted && t.text.as_str() == word
}

/// The variable that the token names, without its `$`. It is refused as `Bad::Word` where it names none. `NoMemory`:
/// see `LineRefused`.
pub fn variable(alloc: Global, t: &Token) -> Result<Text, LineRefused>
    ensures { Gives result (or_word (variable t.now)) }
{
    if t.quoted {
        return Err(LineRefused::Bad(Bad::Word));
    }
    match variable_in(t.text.as_str()) {
        None => Err(LineRefused::Bad(Bad::Word)),
        Some(name) => Ok(Text::of(alloc, name)?),
    }
}

/// The node that the token names. It is refused as `Bad::Word` where it names none. `NoMemory`: see `LineRefused`.
pub fn node(alloc: Global, t: &Token) -> Result<Operand, LineRefused>
    ensures { Gives result (or_word (node t.now)) }
{
    if is_word(t, "doc") {
        return Ok(Operand::Doc);
    }
    if is_word(t, "this") {
        return Ok(Operand::This);
    }
    Ok(Operand::Variable(variable(alloc, t)?))
}

/// The name of a class that the token is. It is refused as `Bad::Word` where it is none. `NoMemory`: see `LineRefused`.
pub fn class_name(alloc: Global, t: &Token) -> Result<Text, LineRefused>
    ensures { Gives result (or_word (class_name t.now)) }
{
    if t.quoted || !is_class(t.text.as_str().as_bytes()) {
        return Err(LineRefused::Bad(Bad::Word));
    }
    Ok(t.text.copy(alloc)?)
}

/// The text that the token is. It is refused as `Bad::Word` where it is bare and begins with `$` or `@`. `NoMemory`:
/// see `LineRefused`.
pub fn text(alloc: Global, t: &Token) -> Result<Text, LineRefused>
    ensures { Gives result (or_word (text t.now)) }
{
    if !t.quoted && is_marked(t.text.as_str().as_bytes()) {
        return Err(LineRefused::Bad(Bad::Word));
    }
    Ok(t.text.copy(alloc)?)
}

/// The value that the token names. It is refused as `Bad::Word` where it names none. `NoMemory`: see `LineRefused`.
pub fn value(alloc: Global, t: &Token) -> Result<Val, LineRefused>
    ensures { Gives result (or_word (value t.now)) }
{
    if is_word(t, "@count") {
        return Ok(Val::Count);
    }
    if is_word(t, "@kept") {
        return Ok(Val::Kept);
    }
    if is_word(t, "@1") {
        return Ok(Val::First);
    }
    if is_word(t, "@2") {
        return Ok(Val::Second);
    }
    if is_word(t, "@3") {
        return Ok(Val::Third);
    }
    Ok(Val::Fixed(text(alloc, t)?))
}

/// The callback that the token names.
pub fn call_name(t: &Token) -> Option<CallName>
    ensures { result ≡ call_name t.now }
{
    if t.quoted {
        return None;
    }
    CallName::named(t.text.as_str())
}
