// Scripts that are read in pieces.
use crate::script::{FIRST, comes_in, ends, script_of, transcript_of};
use page_runner::Status;
use std::test::Fail;

#[test]
fn a_script_may_come_in_pieces_of_any_size(rt: HostRuntime) -> Result<(), Fail> {
    comes_in(&rt, rt.alloc(), "", FIRST, 1)?;
    comes_in(&rt, rt.alloc(), "", FIRST, 2)?;
    comes_in(&rt, rt.alloc(), "", FIRST, 16)?;
    comes_in(&rt, rt.alloc(), "", FIRST, 4096)
}

#[test]
fn an_empty_script_writes_nothing(rt: HostRuntime) -> Result<(), Fail> {
    ends(&rt, rt.alloc(), "", b"", 1, Status::Done, "")
}

#[test]
fn odd_lines_are_refused_and_the_next_ones_run(rt: HostRuntime) -> Result<(), Fail> {
    let script =
        b"create $a p\r\n\0\n\xff\ncreate $a p\rcreate $b p\n# \xc3\x81 \r\n\n  \ncreate $a p".as_slice();
    let wanted = "1: bad word\n2: bad word\n3: bad utf8\n4: bad word\n8: #2\n";
    ends(&rt, rt.alloc(), "", script, 3, Status::BadLines, wanted)
}

// A line for each cause of a refusal, but that it is too long or no UTF-8.
const BAD: &str = r#"> create $a
> frob
> setattr this k v
> log x
> text $t "a\q"
> text $t "a"b
> text $t "\u{D800}"
> on A connected : super
> text $t a b
< 1: bad arity
< 2: bad word
< 3: bad place
< 4: bad place
< 5: bad escape
< 6: bad quote
< 7: bad escape
< 8: bad place
< 9: bad arity"#;

#[test]
fn a_bad_line_says_what_is_wrong(rt: HostRuntime) -> Result<(), Fail> {
    let alloc = rt.alloc();
    let script = script_of(alloc, BAD)?;
    let transcript = transcript_of(alloc, BAD)?;
    let (script, transcript) = (script.as_bytes(), transcript.as_str());
    ends(&rt, alloc, "", script, 1, Status::BadLines, transcript)?;
    let open = r#"text $t "ab"#.as_bytes();
    ends(&rt, alloc, "", open, 1, Status::BadLines, "1: bad quote\n")
}
