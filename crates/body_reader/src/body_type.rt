// The types of bodies, and which of them words ask for.
ghost use Rattle.std.specs.Prelude.{◌≡◌, map, string_bytes, IfOk, IsOk, None};
ghost use Rattle.body_reader.specs.Asked.{asked, asked_by_one, asked_by_two};

use ce_base::{NoMemory, Text};
use form_submission::is_boundary;
use std::alloc::Global;

/// A type of body.
#[derive(Drop)]
pub enum BodyType {
    /// application/x-www-form-urlencoded.
    Urlencoded,
    /// text/plain.
    Plain,
    /// multipart/form-data, with this boundary.
    Multipart(Text),
}

impl BodyType {
    /// The type that the words of a call ask for: `urlencoded`, which no words at all ask for too, `plain`, or `multipart` and
    /// a boundary. None: the words are others, and then no memory was asked for.
    pub fn of(alloc: Global, words: &Vec<String>) -> Result<Option<BodyType>, NoMemory>
        ensures asked { IfOk result (λ t. t ≡ asked (map (λ w. string_bytes w) words.now.items)) }
        ensures refused { asked (map (λ w. string_bytes w) words.now.items) ≡ None → IsOk result }
    {
        match words.as_slice() {
            [] => Ok(Some(BodyType::Urlencoded)),
            [word] => Ok(asked_by_one(word)),
            [word, boundary] => asked_by_two(alloc, word, boundary),
            _ => Ok(None),
        }
    }
}

// The type that one word asks for.
fn asked_by_one(word: &str) -> Option<BodyType>
    ensures { result ≡ asked_by_one word.now }
{
    match word {
        "urlencoded" => Some(BodyType::Urlencoded),
        "plain" => Some(BodyType::Plain),
        _ => None,
    }
}

// The type that two words ask for.
fn asked_by_two(alloc: Global, word: &str, boundary: &str) -> Result<Option<BodyType>, NoMemory>
    ensures asked { IfOk result (λ t. t ≡ asked_by_two word.now boundary.now) }
    ensures refused { asked_by_two word.now boundary.now ≡ None → IsOk result }
{
    if word == "multipart" && is_boundary(boundary) {
        return Ok(Some(BodyType::Multipart(Text::of(alloc, boundary)?)));
    }
    Ok(None)
}
