// The text that says which words there are.
use program_words::{Usage, Word};

pub(crate) const USAGE: Usage = Usage {
    program: "cepage",
    about: "Runs a script from standard input, and writes its transcript.",
    words: &[
        Word::Valued(
            "fuel",
            "N",
            "units of fuel, from 1 to 200000 [default: 20000]",
        ),
        Word::Valued(
            "boundary",
            "T",
            "boundary of multipart bodies, 1 to 70 ASCII letters and digits [default: cepageboundary]",
        ),
        Word::Valued(
            "url",
            "U",
            "URL of the page, http or https [default: http://page.test/]",
        ),
        Word::Flag("trace", "show how reactions are enqueued and run"),
        Word::Valued(
            "make",
            "N",
            "make a script of 1 to 19999 elements, and write the summary of its run; not beside --trace",
        ),
    ],
};
