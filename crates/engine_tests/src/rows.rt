// Rows of tables: a step in words, and what it gives.
use ce_base::Text;
use std::alloc::{AllocError, Global};
use std::process::Abort;

// The two sides of a row.
pub(crate) fn sides(row: &str) -> (&str, &str) {
    match row.split_once(" => ") {
        Some(sides) => sides,
        None => (row, "a row of one side"),
    }
}

// A word of a step: `''` is the empty one, and so is what stands past its end.
pub(crate) fn word(step: &str, i: usize) -> &str {
    match step.split_whitespace().nth(i) {
        None => "",
        Some("''") => "",
        Some(word) => word,
    }
}

// The same, where `-` stands for none.
pub(crate) fn word_or_none(step: &str, i: usize) -> Option<&str> {
    match word(step, i) {
        "-" => None,
        word => Some(word),
    }
}

// Compares what a step gave with what is wanted.
pub(crate) fn same(rt: &impl Abort, given: &str, want: &str, step: &str) {
    assert_eq!(rt; given, want, "at {step}");
}

// The character that a sign of a table stands for.
fn spelled(c: char) -> char {
    match c {
        '␍' => '\r',
        '␊' => '\n',
        '·' => ' ',
        other => other,
    }
}

// The text that a word spells. `∅` is the empty one.
pub(crate) fn text_of(alloc: Global, word: &str) -> Result<Text, AllocError> {
    let mut text = String::new(alloc);
    for c in word.chars() {
        if c != '∅' {
            text.push(spelled(c))?;
        }
    }
    Ok(Text::from(text))
}
