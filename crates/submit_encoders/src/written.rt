// Writes texts as they are sent.
ghost use Rattle.std.specs.Prelude.{◌≡◌, ◌++◌, IfOk, OnOk, true, false, string_bytes};
ghost use Rattle.std.specs.Cow.{cow_str_bytes};
ghost use Rattle.std.specs.List.{flat_map};
ghost use Rattle.form_submission.specs.Encodings.{escaped, escaped_byte};
ghost use Rattle.form_submission.specs.LineEnds.{with_full_newlines};
ghost use Rattle.submit_encoders.specs.Cuts.{has_line_end};

use crate::cuts::{cut_line, cut_quote};
use ce_base::NoMemory;
use std::alloc::Global;
use std::borrow::CowStr;

// Puts a text, and what stands behind it.
pub(crate) fn put(made: &mut String, text: &str, behind: &str) -> Result<(), NoMemory>
    ensures { OnOk result (string_bytes made.new ≡ string_bytes made.old ++ text.now ++ behind.now) }
{
    made.push_str(text)?;
    made.push_str(behind)?;
    Ok(())
}

// Puts a text, each line end as U+000D CR U+000A LF, and what stands behind it.
#[tactic(auto, using(crate::proofs::Lines::full_one_line))]
pub(crate) fn put_text(made: &mut String, text: &str, behind: &str) -> Result<(), NoMemory>
    ensures { OnOk result (string_bytes made.new ≡ string_bytes made.old ++ with_full_newlines text.now ++ behind.now) }
{
    let mut left = text;
    while let Some((line, rest)) = cut_line(left) {
        put(made, line, "\r\n")?;
        left = rest;
    }
    put(made, left, behind)
}

// Each line end of the text is U+000D CR U+000A LF, so that it is sent as it stands.
#[tactic(auto, using(crate::proofs::Lines::full_one_line, crate::proofs::Lines::full_behind))]
fn is_full(text: &str) -> bool
    ensures { result ≡ true → with_full_newlines text.now ≡ text.now }
{
    let mut left = text;
    while let Some((line, rest)) = cut_line(left) {
        if left.len() - rest.len() - line.len() < 2 {
            return false;
        }
        left = rest;
    }
    true
}

// The text with each line end as U+000D CR U+000A LF: itself where they are so.
pub(crate) fn full_text(alloc: Global, text: &str) -> Result<CowStr<'_>, NoMemory>
    ensures { IfOk result (λ full. cow_str_bytes full ≡ with_full_newlines text.now) }
{
    if is_full(text) {
        return Ok(CowStr::Borrowed(text));
    }
    Ok(CowStr::Owned(full_copy(alloc, text)?))
}

// A copy of the text with each line end as U+000D CR U+000A LF.
fn full_copy(alloc: Global, text: &str) -> Result<String, NoMemory>
    ensures { IfOk result (λ made. string_bytes made ≡ with_full_newlines text.now) }
{
    let mut made = String::new(alloc);
    put_text(&mut made, text, "")?;
    Ok(made)
}

// Puts a line of a name, with its quotes escaped, and what stands behind it.
#[tactic(auto, using(crate::proofs::Quotes::escaped_as_it_stands))]
fn put_quoted(made: &mut String, line: &str, behind: &str) -> Result<(), NoMemory>
    requires { has_line_end line.now ≡ false }
    ensures { OnOk result (string_bytes made.new ≡ string_bytes made.old ++ flat_map escaped_byte line.now ++ behind.now) }
{
    let mut left = line;
    while let Some((front, rest)) = cut_quote(left) {
        put(made, front, "%22")?;
        left = rest;
    }
    put(made, left, behind)
}

// Puts a name as it stands in quotes, and what stands behind it: its line ends and quotes are escaped (RFC 7578, section 2;
// HTML Standard, section "Multipart form data").
#[tactic(auto, using(crate::proofs::Quotes::escaped_one_line))]
pub(crate) fn put_name(made: &mut String, name: &str, behind: &str) -> Result<(), NoMemory>
    ensures { OnOk result (string_bytes made.new ≡ string_bytes made.old ++ escaped name.now ++ behind.now) }
{
    let mut left = name;
    while let Some((line, rest)) = cut_line(left) {
        put_quoted(made, line, "%0D%0A")?;
        left = rest;
    }
    put_quoted(made, left, behind)
}
