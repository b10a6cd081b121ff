// The text that says which words there are.
use program_words::{Usage, Word};

pub(crate) const USAGE: Usage = Usage {
    program: "formread",
    about: "Reads the body of a request from standard input, and writes its entries.",
    words: &[
        Word::Plain(
            "TYPE",
            "type of the body: urlencoded, plain or multipart [default: urlencoded]",
        ),
        Word::Plain(
            "BOUNDARY",
            "behind multipart: its boundary, 1 to 70 ASCII letters and digits",
        ),
    ],
};
