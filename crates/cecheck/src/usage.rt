// The text that says that there are no words.
use program_words::Usage;

pub(crate) const USAGE: Usage = Usage {
    program: "cecheck",
    about: "Checks a trace from standard input against the law of order.",
    words: &[],
};
