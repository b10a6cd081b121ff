// Whether anything is left of a text.
ghost use Rattle.std.specs.Prelude.{◌≡◌};
ghost use Rattle.form_controls.specs.Texts.{collapsed, is_empty, without_newlines};

use crate::bytes::{are_newlines, are_whitespace};

/// Nothing is left of a text once its newlines are stripped (Infra Standard, "strip newlines").
pub fn is_only_newlines(text: &str) -> bool
    ensures { result ≡ is_empty (without_newlines text.now) }
{
    are_newlines(text.as_bytes())
}

/// Nothing is left of a text once its white space is stripped and collapsed (Infra Standard, "strip and collapse ASCII
/// whitespace").
pub fn is_only_whitespace(text: &str) -> bool
    ensures { result ≡ is_empty (collapsed text.now) }
{
    are_whitespace(text.as_bytes())
}
