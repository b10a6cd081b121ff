// The values that options may have.
ghost use Rattle.std.specs.Prelude.{◌≡◌};
ghost use Rattle.command_words.specs.Words.{count_in, fuel_in};

use ce_base::number_in;

// The most fuel that a session may have.
const MOST_FUEL: u32 = 200_000;

// Of how many elements a script may be made.
const MOST_ELEMENTS: u32 = 19_999;

// How much fuel a text says. None where it says no amount that a session may have.
pub(crate) fn fuel_in(text: &str) -> Option<u32>
    ensures { result ≡ fuel_in text.now }
{
    match number_in(text) {
        Some(units) if 1 <= units && units <= MOST_FUEL => Some(units),
        _ => None,
    }
}

// Of how many elements a text says that a script is made. None where it says no such number.
pub(crate) fn count_in(text: &str) -> Option<u32>
    ensures { result ≡ count_in text.now }
{
    match number_in(text) {
        Some(count) if 1 <= count && count <= MOST_ELEMENTS => Some(count),
        _ => None,
    }
}
