// What words choose, while they are read one after the other.
ghost use Rattle.std.specs.Prelude.{◌≡◌, ◌≤◌, ◌∷◌, map, length, string_bytes, option_map, false, IfOk, IfSome, MatchOption};
ghost use Rattle.std.specs.List.{list_any};
ghost use Rattle.command_words.specs.Choices.{Splits, chosen_of, read_on};
ghost use Rattle.command_words.specs.Words.{and_then, has_value, is_equals_sign, meaning_of, nothing, options_of, read};
ghost use Rattle.command_words.specs.Words.{with_boundary, with_fuel, with_make, with_option, with_trace, with_url, with_word};

use crate::page_url::is_page_url;
use crate::values::{count_in, fuel_in};
use crate::words::{Meaning, Options};
use ce_base::{NoMemory, Text};
use form_submission::{Site, is_boundary};
use std::alloc::Global;

// What holds where no word says it.
const FUEL: u32 = 20_000;

const BOUNDARY: &str = "cepageboundary";

const PAGE_URL: &str = "http://page.test/";

// What the words so far have chosen.
#[derive(Clone, Copy)]
pub(crate) struct Choice<'a> {
    fuel: Option<u32>,
    boundary: Option<&'a str>,
    url: Option<&'a str>,
    trace: bool,
    make: Option<u32>,
}

// Whether an option of this name has a value.
fn has_value(name: &str) -> bool
    ensures { result ≡ has_value name.now }
{
    name == "--fuel" || name == "--boundary" || name == "--url" || name == "--make"
}

// What stands before the first `=` of a word, and what stands behind it. None where there is no `=`.
fn name_and_value(word: &str) -> Option<(&str, &str)>
    ensures { MatchOption result (list_any is_equals_sign word.now ≡ false) (λ parts. Splits word.now parts.0.now parts.1.now) }
{
    word.split_once('=')
}

// What is chosen, and the words that are left.
fn with_left<'a>(
    choice: Option<Choice<'a>>,
    left: &'a [String],
) -> Option<(Choice<'a>, &'a [String])>
    ensures chosen { read_on result ≡ and_then (option_map (λ c. chosen_of c) choice.entry) (read (map (λ w. string_bytes w) left.now)) }
    ensures left { IfSome result (λ x. x.1.now ≡ left.now) }
{
    Some((choice?, left))
}

impl<'a> Choice<'a> {
    // What these words choose. None where they are refused.
    pub(crate) fn of(alloc: Global, words: &'a [String]) -> Result<Option<Choice<'a>>, NoMemory>
        ensures { IfOk result (λ r. option_map (λ c. chosen_of c) r ≡ read (map (λ w. string_bytes w) words.now) nothing) }
    {
        let mut choice = Choice {
            fuel: None,
            boundary: None,
            url: None,
            trace: false,
            make: None,
        };
        let mut left = words;
        while let [word, behind @ ..] = left {
            match choice.with_first(alloc, word, behind)? {
                None => return Ok(None),
                Some((more, after)) => (choice, left) = (more, after),
            }
        }
        Ok(Some(choice))
    }

    // With the first of some words, and the word behind it where that is its value; and the words that are left. None where
    // they are refused.
    fn with_first(
        self,
        alloc: Global,
        word: &'a str,
        behind: &'a [String],
    ) -> Result<Option<(Choice<'a>, &'a [String])>, NoMemory>
        ensures chosen { IfOk result (λ r. read_on r ≡ read (word.now ∷ map (λ w. string_bytes w) behind.now) (chosen_of self.entry)) }
        ensures fewer { IfOk result (λ r. IfSome r (λ x. length x.1.now ≤ length behind.now)) }
    {
        if !has_value(word) {
            return Ok(with_left(self.with_word(alloc, word)?, behind));
        }
        match behind {
            [] => Ok(None),
            [value, after @ ..] => Ok(with_left(self.with_option(alloc, word, value)?, after)),
        }
    }

    // With a word that needs no other one. None where it is refused.
    fn with_word(self, alloc: Global, word: &'a str) -> Result<Option<Choice<'a>>, NoMemory>
        ensures { IfOk result (λ r. option_map (λ c. chosen_of c) r ≡ with_word word.now (chosen_of self.entry)) }
    {
        if word == "--trace" {
            return Ok(self.with_trace());
        }
        match name_and_value(word) {
            Some((name, value)) => self.with_option(alloc, name, value),
            None => Ok(None),
        }
    }

    // With the option of this name set to this value. None where it is refused.
    fn with_option(
        self,
        alloc: Global,
        name: &str,
        value: &'a str,
    ) -> Result<Option<Choice<'a>>, NoMemory>
        ensures { IfOk result (λ r. option_map (λ c. chosen_of c) r ≡ with_option name.now value.now (chosen_of self.entry)) }
    {
        match name {
            "--fuel" => Ok(self.with_fuel(value)),
            "--boundary" => Ok(self.with_boundary(value)),
            "--url" => self.with_url(alloc, value),
            "--make" => Ok(self.with_make(value)),
            _ => Ok(None),
        }
    }

    fn with_fuel(self, value: &str) -> Option<Choice<'a>>
        ensures { option_map (λ c. chosen_of c) result ≡ with_fuel value.now (chosen_of self.entry) }
    {
        match (self.fuel, fuel_in(value)) {
            (None, Some(units)) => Some(Choice {
                fuel: Some(units),
                ..self
            }),
            _ => None,
        }
    }

    fn with_boundary(self, value: &'a str) -> Option<Choice<'a>>
        ensures { option_map (λ c. chosen_of c) result ≡ with_boundary value.now (chosen_of self.entry) }
    {
        if self.boundary.is_some() || !is_boundary(value) {
            return None;
        }
        Some(Choice {
            boundary: Some(value),
            ..self
        })
    }

    fn with_url(self, alloc: Global, value: &'a str) -> Result<Option<Choice<'a>>, NoMemory>
        ensures { IfOk result (λ r. option_map (λ c. chosen_of c) r ≡ with_url value.now (chosen_of self.entry)) }
    {
        if self.url.is_some() || !is_page_url(alloc, value)? {
            return Ok(None);
        }
        Ok(Some(Choice {
            url: Some(value),
            ..self
        }))
    }

    fn with_trace(self) -> Option<Choice<'a>>
        ensures { option_map (λ c. chosen_of c) result ≡ with_trace (chosen_of self.entry) }
    {
        if self.trace {
            return None;
        }
        Some(Choice {
            trace: true,
            ..self
        })
    }

    fn with_make(self, value: &str) -> Option<Choice<'a>>
        ensures { option_map (λ c. chosen_of c) result ≡ with_make value.now (chosen_of self.entry) }
    {
        match (self.make, count_in(value)) {
            (None, Some(count)) => Some(Choice {
                make: Some(count),
                ..self
            }),
            _ => None,
        }
    }

    // What is meant where no word is left.
    pub(crate) fn meaning(self, alloc: Global) -> Result<Meaning, NoMemory>
        ensures { IfOk result (λ m. m ≡ meaning_of (chosen_of self.entry)) }
    {
        match self.make {
            None => Ok(Meaning::Script(self.options(alloc)?)),
            Some(_) if self.trace => Ok(Meaning::Refused),
            Some(count) => Ok(Meaning::Made(count, self.options(alloc)?)),
        }
    }

    // What is chosen, and what holds where nothing is.
    fn options(self, alloc: Global) -> Result<Options, NoMemory>
        ensures { IfOk result (λ set. set ≡ options_of (chosen_of self.entry)) }
    {
        let url = Text::of(alloc, self.url.unwrap_or(PAGE_URL))?;
        let boundary = Text::of(alloc, self.boundary.unwrap_or(BOUNDARY))?;
        Ok(Options {
            fuel: self.fuel.unwrap_or(FUEL),
            site: Site { url, boundary },
            trace: self.trace,
        })
    }
}
