// What holds of what lines say, as the contract of a function that does nothing.
ghost use Rattle.rule_tokens.specs.Laws.{FlagsAreBare, FlagsAreNamed, FlagsAreRead, FlagsAreTen, LinesAreAnswered, SaidIsRead, SaidOnce};
ghost use Rattle.rule_tokens.specs.Spaced.{WrittenIsRead, WrittenIsText};

/// A line says one thing at most.
pub fn a_line_says_one_thing()
    ensures { SaidOnce }
{}

/// The function that computes what a line says answers each line as the cases say.
pub fn lines_are_answered()
    ensures answered { LinesAreAnswered }
    ensures read { SaidIsRead }
{}

/// Clean tokens that are written as a line, with one space between them, are read again, where the first is bare and begins no
/// comment, and the line is within the limit. Clean is a quoted token that says a text, and a bare one of one or more bytes of
/// visible ASCII, none of them a quote or a backslash.
pub fn what_is_written_is_read()
    ensures { WrittenIsRead }
{}

/// Clean tokens that are written as a line, with one space between them, are a text.
pub fn what_is_written_is_text()
    ensures { WrittenIsText }
{}

/// The canonical text of validity flags is read as those flags, and can stand in a bare token; what is
/// read as flags is ten of them. The names of those that are raised raise them.
pub fn flags_are_read()
    ensures read { FlagsAreRead }
    ensures bare { FlagsAreBare }
    ensures ten { FlagsAreTen }
    ensures named { FlagsAreNamed }
{}
