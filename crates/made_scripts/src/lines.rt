// The lines of made scripts.
ghost use Rattle.std.specs.Prelude.{◌≡◌, ◌<◌, [], slice_index_or, IfOk};
ghost use Rattle.made_scripts.specs.Made.{first_lines, element_lines, submit_line, line_count};

use ce_base::{NoMemory, Text};
use std::alloc::Global;

/// How many lines stand before those of the first element.
pub(crate) const FIRST_LINES: u64 = 12;

/// How many lines an element has.
pub(crate) const ELEMENT_LINES: u64 = 4;

/// How many lines the made script of n has.
pub fn line_count(n: u32) -> u64
    ensures { result ≡ line_count n }
{
    FIRST_LINES + ELEMENT_LINES * u64::from(n) + 1
}

/// The line at a place before the first element.
#[tactic(auto, unfolding(crate::specs::Made::first_lines))]
pub(crate) fn first_line(place: u64) -> &'static str
    requires { place < FIRST_LINES }
    ensures { result.now ≡ slice_index_or first_lines place [] }
{
    match place {
        0 => "class A",
        1 => "associate A",
        2 => "observe A k",
        3 => "on A constructor : super",
        4 => "on A constructor : internals this",
        5 => "on A attribute : formvalue this @3",
        6 => "has A formAssociated",
        7 => "define x-a A",
        8 => "create $h html",
        9 => "append doc $h",
        10 => "create $f form",
        _ => "append $h $f",
    }
}

/// The line at a place among those of the element of this number.
#[tactic(auto, unfolding(crate::specs::Made::element_lines))]
pub(crate) fn element_line(alloc: Global, number: u64, place: u64) -> Result<Text, NoMemory>
    requires { place < ELEMENT_LINES }
    ensures { IfOk result (λ line. line ≡ slice_index_or (element_lines number) place []) }
{
    match place {
        0 => Text::of(alloc, "create $e x-a"),
        1 => Text::of(alloc, "setattr $e name n"),
        2 => Ok(Text::from(format!(in alloc; "setattr $e k {number}")?)),
        _ => Text::of(alloc, "append $f $e"),
    }
}

/// The last line.
#[tactic(auto, unfolding(crate::specs::Made::submit_line))]
pub(crate) fn submit_line(alloc: Global) -> Result<Text, NoMemory>
    ensures { IfOk result (λ line. line ≡ submit_line) }
{
    Text::of(alloc, "submit $f")
}
