// Made scripts as whole texts. The program makes them line by line.
use made_scripts::made_script;
use std::test::Fail;

// The made script of 1.
const OF_ONE: &str = "class A
associate A
observe A k
on A constructor : super
on A constructor : internals this
on A attribute : formvalue this @3
has A formAssociated
define x-a A
create $h html
append doc $h
create $f form
append $h $f
create $e x-a
setattr $e name n
setattr $e k 1
append $f $e
submit $f
";

#[test]
fn a_made_script_of_one_is_written_out(rt: HostRuntime) -> Result<(), Fail> {
    let script = made_script(rt.alloc(), 1)?;
    assert_eq!(rt; script.as_str(), OF_ONE);
    Ok(())
}

// It has 217 bytes before the first element, 59 for each element and its number, which is 6893 digits in all, and 10 behind
// the last one.
#[test]
fn a_made_script_of_2000_has_8013_lines(rt: HostRuntime) -> Result<(), Fail> {
    let script = made_script(rt.alloc(), 2000)?;
    let text = script.as_str();
    assert_eq!(rt; text.lines().count(), 8013);
    assert_eq!(rt; text.len(), 125120);
    assert_eq!(rt; text.lines().next(), Some("class A"));
    assert!(rt; text.ends_with("setattr $e k 2000\nappend $f $e\nsubmit $f\n"));
    Ok(())
}
