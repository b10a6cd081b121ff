// What a call asks for.
ghost use Rattle.std.specs.Prelude.{◌≡◌, ◌++◌, map, string_bytes, IfOk, OnOk};
ghost use Rattle.page_runner.specs.Asked.{asked, option_words, site_words, with_session};
ghost use Rattle.command_words.specs.Words.{meaning};

use ce_base::NoMemory;
use command_words::{Meaning, Options};
use rule_tokens::text_in;
use std::alloc::Global;

// The most fuel that a session may have.
const MOST_FUEL: u32 = 200_000;

// The options that are asked for. An empty text says nothing. None where the words that ask for them would be refused.
pub(crate) fn asked(
    alloc: Global,
    fuel: u32,
    trace: bool,
    url: &[u8],
    boundary: &[u8],
) -> Result<Option<Options>, NoMemory>
    ensures { IfOk result (λ o. o ≡ asked fuel trace url.now boundary.now) }
{
    if fuel == 0 || fuel > MOST_FUEL {
        return Ok(None);
    }
    let Some(url) = text_in(url) else {
        return Ok(None);
    };
    let Some(boundary) = text_in(boundary) else {
        return Ok(None);
    };
    let words = site_words(alloc, url, boundary)?;
    Ok(with_session(fuel, trace, Meaning::of(alloc, &words)?))
}

// What words mean, with so much fuel, and with the trace or without it.
fn with_session(fuel: u32, trace: bool, said: Meaning) -> Option<Options>
    ensures { result ≡ with_session fuel trace said }
{
    match said {
        Meaning::Script(Options { site, .. }) => Some(Options { fuel, site, trace }),
        _ => None,
    }
}

// The words that say where the page stands.
fn site_words(alloc: Global, url: &str, boundary: &str) -> Result<Vec<String>, NoMemory>
    ensures { IfOk result (λ words. map (λ w. string_bytes w) words.items ≡ site_words url.now boundary.now) }
{
    let mut words = Vec::new(alloc);
    push_option(alloc, &mut words, "--url", url)?;
    push_option(alloc, &mut words, "--boundary", boundary)?;
    Ok(words)
}

// Puts an option behind the words, with its value, where that is not empty.
fn push_option(
    alloc: Global,
    words: &mut Vec<String>,
    name: &str,
    value: &str,
) -> Result<(), NoMemory>
    ensures { OnOk result (map (λ w. string_bytes w) words.new.items ≡ map (λ w. string_bytes w) words.old.items ++ option_words name.now value.now) }
{
    if !value.is_empty() {
        words.push(String::from_str(alloc, name)?)?;
        words.push(String::from_str(alloc, value)?)?;
    }
    Ok(())
}
