// The length of a text that stands in one piece.
ghost use Rattle.std.specs.Prelude.{◌≡◌, ◌-◌, ◌^◌, min};
ghost use Rattle.form_controls.specs.Texts.{units_of, without_newlines};

use crate::bytes::{is_newline, units_at};

/// The length of a text (Infra Standard, section "Strings"): how many code units of UTF-16 it takes. The greatest u64 where it
/// is longer than that.
pub fn units(text: &str) -> u64
    ensures { result ≡ min (units_of text.now) (2 ^ 64 - 1) }
{
    let mut count = 0u64;
    for b in text.as_bytes() {
        count = count.saturating_add(units_at(*b));
    }
    count
}

/// The length of a text once its newlines are stripped.
pub fn units_without_newlines(text: &str) -> u64
    ensures { result ≡ min (units_of (without_newlines text.now)) (2 ^ 64 - 1) }
{
    let mut count = 0u64;
    for b in text.as_bytes() {
        if !is_newline(*b) {
            count = count.saturating_add(units_at(*b));
        }
    }
    count
}
