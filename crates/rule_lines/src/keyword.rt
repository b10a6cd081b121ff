// The keywords of optional parts.
ghost use Rattle.std.specs.Prelude.{◌≡◌};
ghost use Rattle.rule_lines.specs.FixedWords.{keyword};

/// The keyword of an optional part.
#[derive(Clone, Copy)]
pub enum Keyword {
    /// `is`
    Is,
    /// `in`
    In,
    /// `extends`
    Extends,
    /// `state`
    State,
    /// `deep`
    Deep,
}

impl Keyword {
    /// Its text.
    pub fn text(self) -> &'static str
        ensures { result.now ≡ keyword self }
    {
        match self {
            Keyword::Is => "is",
            Keyword::In => "in",
            Keyword::Extends => "extends",
            Keyword::State => "state",
            Keyword::Deep => "deep",
        }
    }
}
