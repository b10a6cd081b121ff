// Numbers of one to nine ASCII digits.
ghost use Rattle.std.specs.Prelude.{◌≡◌, ◌<◌, ◌^◌, IfSome};
ghost use Rattle.std.specs.Char.{is_ascii_digit};
ghost use Rattle.std.specs.List.{list_all};
ghost use Rattle.ce_base.specs.Digits.{is_numeral, number_in};

// How many digits a number may have.
const MOST_DIGITS: usize = 9;

/// The number that a text of one to nine ASCII digits writes, which may begin with zeros. None for any other text.
pub fn number_in(text: &str) -> Option<u32>
    ensures number { result ≡ number_in text.now }
    ensures small { IfSome result (λ number. number < 10 ^ 9) }
{
    if !is_numeral(text.as_bytes()) {
        return None;
    }
    text.parse::<u32>().ok()
}

fn is_numeral(bytes: &[u8]) -> bool
    ensures { result ≡ is_numeral bytes.now }
{
    !bytes.is_empty() && bytes.len() <= MOST_DIGITS && are_digits(bytes)
}

fn are_digits(bytes: &[u8]) -> bool
    ensures { result ≡ list_all is_ascii_digit bytes.now }
{
    bytes.iter().all(|b| b.is_ascii_digit())
}
