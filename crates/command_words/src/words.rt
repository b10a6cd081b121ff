// What the words of a call mean.
ghost use Rattle.std.specs.Prelude.{◌≡◌, map, string_bytes, IfOk};
ghost use Rattle.command_words.specs.Words.{meaning};

use crate::choice::Choice;
use ce_base::NoMemory;
use form_submission::Site;
use std::alloc::Global;

/// How a script is run.
#[derive(Drop)]
pub struct Options {
    /// How much fuel its session has.
    pub fuel: u32,
    /// Where its page stands.
    pub site: Site,
    /// Whether the transcript shows the trace.
    pub trace: bool,
}

/// What the words of a call mean.
#[derive(Drop)]
pub enum Meaning {
    /// They are refused.
    Refused,
    /// The script of the source is run, with these options.
    Script(Options),
    /// A script is made, of so many elements, and run with these options.
    Made(u32, Options),
}

impl Meaning {
    /// The meaning of these words: options in any order, each at most once, its value in the next word or behind `=`.
    /// `--fuel N` takes a number from 1 to 200,000, `--boundary T` 1 to 70 ASCII letters and digits, `--url U` at most
    /// 4096 bytes that parse as a URL with scheme http or https (URL Standard), `--trace` no value, and `--make N`, which does
    /// not go with `--trace`, a number from 1 to 19,999. A number is one to nine ASCII digits. All else is refused.
    pub fn of(alloc: Global, words: &Vec<String>) -> Result<Meaning, NoMemory>
        ensures { IfOk result (λ m. m ≡ meaning (map (λ w. string_bytes w) words.now.items)) }
    {
        match Choice::of(alloc, words)? {
            None => Ok(Meaning::Refused),
            Some(choice) => choice.meaning(alloc),
        }
    }
}
