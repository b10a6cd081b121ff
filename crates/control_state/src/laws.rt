// When nothing is left of a text that stands in several pieces: statements, each proved as the contract of a function that does
// nothing.
ghost use Rattle.std.specs.Prelude.{◌≡◌, ◌&&◌, ◌++◌, ℕ, List};
ghost use Rattle.form_controls.specs.Texts.{collapsed, is_empty, normalized, without_newlines};

/// Nothing is left of two pieces, once white space is stripped and collapsed, exactly where nothing is left of either.
pub fn white_space_is_asked_by_the_piece()
    ensures { (a b : List ℕ) → is_empty (collapsed (a ++ b)) ≡ (is_empty (collapsed a) && is_empty (collapsed b)) }
{}

/// Normalized newlines leave something of each text that is not empty. So nothing is left of two pieces exactly where both are
/// empty.
pub fn normalized_newlines_leave_something()
    ensures alone { (text : List ℕ) → is_empty (normalized text) ≡ is_empty text }
    ensures pieces { (a b : List ℕ) → is_empty (normalized (a ++ b)) ≡ (is_empty a && is_empty b) }
{}

/// Nothing is left of two pieces, once newlines are stripped, exactly where nothing is left of either.
pub fn stripped_newlines_are_asked_by_the_piece()
    ensures { (a b : List ℕ) → is_empty (without_newlines (a ++ b)) ≡ (is_empty (without_newlines a) && is_empty (without_newlines b)) }
{}
