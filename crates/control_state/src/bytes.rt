// One byte of a text.
ghost use Rattle.std.specs.Prelude.{◌≡◌};
ghost use Rattle.std.specs.Char.{is_ascii_whitespace};
ghost use Rattle.std.specs.List.{list_all};
ghost use Rattle.form_controls.specs.Texts.{is_newline as is_newline_byte, normal_byte, units_at as units_at_byte, units_of};
ghost use Rattle.control_state.specs.Reading.{collapsed_byte};

// U+000A LF or U+000D CR.
pub(crate) fn is_newline(b: u8) -> bool
    ensures { result ≡ is_newline_byte b }
{
    b == b'\r' || b == b'\n'
}

// Only U+000A LF and U+000D CR.
pub(crate) fn are_newlines(bytes: &[u8]) -> bool
    ensures { result ≡ list_all is_newline_byte bytes.now }
{
    for b in bytes {
        if !is_newline(*b) {
            return false;
        }
    }
    true
}

// Only ASCII white space.
pub(crate) fn are_whitespace(bytes: &[u8]) -> bool
    ensures { result ≡ list_all is_ascii_whitespace bytes.now }
{
    for b in bytes {
        if !b.is_ascii_whitespace() {
            return false;
        }
    }
    true
}

// How many code units of UTF-16 begin at a byte.
pub(crate) fn units_at(b: u8) -> u64
    ensures { result ≡ units_at_byte b }
{
    match b {
        0..=0x7F => 1,
        0x80..=0xBF => 0,
        0xC0..=0xEF => 1,
        _ => 2,
    }
}

// How many code units a byte adds to a text with normalized newlines, right behind a U+000D CR or not.
pub(crate) fn normal_units(behind: bool, b: u8) -> u64
    ensures { result ≡ units_of (normal_byte behind b) }
{
    if behind && b == b'\n' { 0 } else { units_at(b) }
}

// How many a byte adds to a text with collapsed white space, where something was kept of what came before it or not, and where
// white space stands right before it or not.
pub(crate) fn collapsed_units(begun: bool, apart: bool, b: u8) -> u64
    ensures { result ≡ units_of (collapsed_byte begun apart b) }
{
    if b.is_ascii_whitespace() {
        0
    } else if begun && apart {
        1 + units_at(b)
    } else {
        units_at(b)
    }
}
