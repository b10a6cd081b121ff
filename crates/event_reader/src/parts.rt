// Numbers, nodes, texts and faults.
ghost use Rattle.std.specs.Prelude.{◌≡◌, ◌+◌, ◌*◌, ◌^◌, nat_lt, if◌then◌else◌, IfOk, IfSome, Some, None};
ghost use Rattle.std.specs.Str.{IsUtf8};
ghost use Rattle.event_reader.specs.IsEvent.{AreNumbers, AreTexts, IsFault, IsNumber, IsNumberOrNone, IsTextOrNone};
ghost use Rattle.event_reader.specs.Parts.{begins_node, begins_number, fault_named, fault_of, node_in};
ghost use Rattle.event_reader.specs.Parts.{node_or_none, nodes_of, number_in, text_or_none, texts_of};
ghost use Rattle.event_reader.specs.Read.{Reads};

use crate::EventRefused;
use ce_base::{Fault, NoMemory, NodeNo, Nodes, Text, Texts};
use rule_tokens::Token;
use std::alloc::Global;

// The number with one more digit. None where it is none of the type.
fn with_digit(n: u64, digit: u8) -> Option<u64>
    ensures same { result ≡ (if nat_lt (n * 10 + digit) (2 ^ 64) then Some (n * 10 + digit) else None) }
    ensures fits { IfSome result IsNumber }
{
    let next = u128::from(n) * 10 + u128::from(digit);
    if next > u128::from(u64::MAX) {
        return None;
    }
    Some(next as u64)
}

// The number that the digits in front write; 0 where it is none of the type.
#[tactic(auto, unfolding(crate::specs::Parts::number_from))]
pub(crate) fn number_in(bytes: &[u8]) -> u64
    ensures same { result ≡ number_in bytes.now }
    ensures fits { IsNumber result }
{
    let mut n = 0;
    for b in bytes {
        if !b.is_ascii_digit() {
            return n;
        }
        let Some(next) = with_digit(n, *b - b'0') else {
            return 0;
        };
        n = next;
    }
    n
}

// The node whose number stands behind the sign of nodes.
pub(crate) fn node_in(word: &str) -> NodeNo
    ensures same { result ≡ node_in word.now }
    ensures fits { IsNumber result }
{
    match word.as_bytes() {
        [] => NodeNo(0),
        [_, digits @ ..] => NodeNo(number_in(digits)),
    }
}

pub(crate) fn begins_node(word: &str) -> bool
    ensures { result ≡ begins_node word.now }
{
    match word.as_bytes() {
        [] => false,
        [first, ..] => *first == b'#',
    }
}

pub(crate) fn begins_number(word: &str) -> bool
    ensures { result ≡ begins_number word.now }
{
    match word.as_bytes() {
        [] => false,
        [first, ..] => first.is_ascii_digit(),
    }
}

pub(crate) fn node_or_none(word: &str) -> Option<NodeNo>
    ensures same { result ≡ node_or_none word.now }
    ensures fits { IsNumberOrNone result }
{
    if begins_node(word) {
        Some(node_in(word))
    } else {
        None
    }
}

// The text that a token says.
pub(crate) fn text_of(alloc: Global, t: &Token) -> Result<Text, NoMemory>
    ensures same { IfOk result (λ text. text ≡ t.now.text) }
    ensures fits { IfOk result IsUtf8 }
{
    let text = t.text.as_str();
    Text::of(alloc, text)
}

pub(crate) fn text_or_none(alloc: Global, t: &Token) -> Result<Option<Text>, NoMemory>
    ensures same { IfOk result (λ text. text ≡ text_or_none t.now) }
    ensures fits { IfOk result IsTextOrNone }
{
    if !t.quoted {
        return Ok(None);
    }
    Ok(Some(text_of(alloc, t)?))
}

pub(crate) fn texts_of(alloc: Global, tokens: &[Token]) -> Result<Texts, NoMemory>
    ensures same { IfOk result (λ texts. texts ≡ texts_of tokens.now) }
    ensures fits { IfOk result AreTexts }
{
    let mut texts = Texts::make(alloc);
    for t in tokens {
        texts.push(alloc, text_of(alloc, t)?)?;
    }
    Ok(texts)
}

pub(crate) fn nodes_of(alloc: Global, tokens: &[Token]) -> Result<Nodes, NoMemory>
    ensures same { IfOk result (λ nodes. nodes ≡ nodes_of tokens.now) }
    ensures fits { IfOk result AreNumbers }
{
    let mut nodes = Nodes::make(alloc);
    for t in tokens {
        nodes.push(alloc, node_in(t.text.as_str()))?;
    }
    Ok(nodes)
}

fn fault_named(word: &str) -> Option<Fault>
    ensures same { result ≡ fault_named word.now }
    ensures fits { IfSome result IsFault }
{
    match word {
        "TypeError" => Some(Fault::TypeError),
        "ReferenceError" => Some(Fault::ReferenceError),
        "SyntaxError" => Some(Fault::SyntaxError),
        "NotSupportedError" => Some(Fault::NotSupportedError),
        "HierarchyRequestError" => Some(Fault::HierarchyRequestError),
        "NotFoundError" => Some(Fault::NotFoundError),
        "InvalidCharacterError" => Some(Fault::InvalidCharacterError),
        _ => None,
    }
}

pub(crate) fn fault_of(alloc: Global, tokens: &[Token]) -> Result<Fault, EventRefused>
    ensures reads { Reads result (fault_of tokens.now) }
    ensures fits { IfOk result IsFault }
{
    match tokens {
        [name] => match fault_named(name.text.as_str()) {
            Some(fault) => Ok(fault),
            None => Err(EventRefused::NotAnEvent),
        },
        [_, thrown] => Ok(Fault::UserThrow(text_of(alloc, thrown)?)),
        _ => Err(EventRefused::NotAnEvent),
    }
}
