// Boundaries of multipart bodies.
ghost use Rattle.std.specs.Prelude.{◌≡◌};
ghost use Rattle.std.specs.Char.{is_ascii_alphanumeric};
ghost use Rattle.std.specs.List.{list_all};
ghost use Rattle.form_submission.specs.Encodings.{is_boundary};

// How long a boundary may be (RFC 2046, section 5.1.1).
const MOST: usize = 70;

/// Whether the text is a boundary: 1 to 70 ASCII letters and digits.
pub fn is_boundary(text: &str) -> bool
    ensures { result ≡ is_boundary text.now }
{
    !text.is_empty() && text.len() <= MOST && are_letters_and_digits(text.as_bytes())
}

fn are_letters_and_digits(bytes: &[u8]) -> bool
    ensures { result ≡ list_all is_ascii_alphanumeric bytes.now }
{
    bytes.iter().all(|b| b.is_ascii_alphanumeric())
}
