// How long texts are as controls read them, and whether anything is left.
use crate::rows::{same, sides, text_of};
use control_state::*;
use std::alloc::{AllocError, Global};
use std::process::Abort;
use std::test::Fail;

// Each row is a text in pieces, with signs for spaces and newlines, and then its length in code units of UTF-16, that without
// newlines, with normalized newlines and with collapsed white space; and whether it is empty without newlines, and without
// white space.
const LENGTHS: &str = "\
∅ => 0 0 0 0 true true
abc => 3 3 3 3 false false
a␍␊b => 4 2 3 3 false false
a␍␍␊␊b => 6 2 5 3 false false
␊␍a => 3 1 3 1 false false
␍␊ => 2 0 1 0 true true
·\ta\u{c}··b␊ => 8 7 8 3 false false
·␍· => 3 2 3 0 false true
\t\u{c} => 2 2 2 0 false true
a\u{b}·\u{a0}b => 5 5 5 5 false false
é€😀␍😀 => 7 6 7 7 false false
a␍|␊b => 4 2 3 3 false false
a|␍||␊|b => 4 2 3 3 false false
␍|␊|␍|␊ => 4 0 2 0 true true
a·|·b => 4 4 4 3 false false
·|a|b|·|c· => 6 6 6 4 false false
␊|😀|😀 => 5 4 5 4 false false";

// What is told of a text by itself.
fn tell(alloc: Global, text: &str, normal: u64, words: u64) -> Result<String, AllocError> {
    let (all, line) = (units(text), units_without_newlines(text));
    let (newlines, white) = (is_only_newlines(text), is_only_whitespace(text));
    Ok(format!(in alloc; "{all} {line} {normal} {words} {newlines} {white}")?)
}

fn same_lengths(rt: &impl Abort, alloc: Global, row: &str) -> Result<(), Fail> {
    let (pieces, want) = sides(row);
    let mut normal = NormalizedUnits::make();
    let mut words = CollapsedUnits::make();
    for piece in pieces.split('|') {
        let piece = text_of(alloc, piece)?;
        normal.take(piece.as_str());
        words.take(piece.as_str());
    }
    let text = text_of(alloc, pieces.replace(alloc, "|", "")?.as_str())?;
    let told = tell(alloc, text.as_str(), normal.count(), words.count())?;
    same(rt, told.as_str(), want, pieces);
    Ok(())
}

#[test]
fn lengths_are_counted_as_controls_read_a_text(rt: HostRuntime) -> Result<(), Fail> {
    for row in LENGTHS.lines() {
        same_lengths(&rt, rt.alloc(), row)?;
    }
    Ok(())
}
