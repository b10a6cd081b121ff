// Bodies of classes, classes that extend elements, and moves that tell of form owners.
use crate::script::comes;
use std::test::Fail;

// Definitions that extend an element of HTML.
pub(crate) const EXTENDED: &str = r#"> class P
> observe P k
> has P attribute
> define x-p P extends p
> create $e p is x-p
> setattr $e k 1
> clone $f $e
> create $g p
> ask state $f
> ask state $g
> upgrade $g
> create $h div is x-p
> ask state $h
< 4: ok
< construct P
< 5: #2
< call #2 attribute "k" null "1"
< 6: ok
< construct P
< call #3 attribute "k" null "1"
< 7: #3
< 8: #4
< 9: custom
< 10: uncustomized
< 11: ok
< 12: #5
< 13: undefined"#;

// A constructor that makes the base call twice, in an upgrade and by `new`; a class without one; and a class that was never made.
pub(crate) const CONSTRUCTORS: &str = r#"> class C
> on C constructor : super
> on C constructor : super
> create $h html
> append doc $h
> create $e x-c
> append $h $e
> define x-c C
> ask state $e
> new $n C
> class K
> define x-k K
> new $k K
> ask state $k
> new $z Q
< 4: #2
< 5: ok
< 6: #3
< 7: ok
< construct C
< report TypeError
< 8: ok
< 9: precustomized
< construct C
< 10: throw ReferenceError
< 12: ok
< construct K
< 13: #6
< 14: custom
< 15: throw TypeError"#;

// What a body tries is caught, and what it tests is done or left.
pub(crate) const TRIED: &str = r#"> class A
> observe A k
> on A attribute : keep @3
> on A attribute : try throw a
> on A attribute : try append this this
> on A attribute : if eq @kept 2 : append this this
> on A attribute : log @kept
> define x-a A
> create $e x-a
> setattr $e k 1
> setattr $e k 2
< 8: ok
< construct A
< 9: #2
< call #2 attribute "k" null "1"
< caught user "a"
< caught HierarchyRequestError
< log "1"
< 10: ok
< call #2 attribute "k" "1" "2"
< caught user "a"
< caught HierarchyRequestError
< report HierarchyRequestError
< 11: ok"#;

// Moves into a form and a fieldset, and of the tree that has the form; and attributes that come and go.
pub(crate) const MOVED: &str = r#"> class A
> associate A
> has A formAssociated
> has A formDisabled
> define x-a A
> create $h html
> append doc $h
> create $d div
> append $h $d
> create $f form
> setattr $f id g
> append $d $f
> create $e x-a
> setattr $e form g
> append $h $e
> detach $d
> append $d $e
> append $f $e
> append $h $d
> setattr $f id k
> delattr $e form
> create $o fieldset
> setattr $o disabled ""
> append $f $o
> append $o $e
> detach $f
> ask owner $e
> ask disabled $e
< 5: ok
< 6: #2
< 7: ok
< 8: #3
< 9: ok
< 10: #4
< 11: ok
< 12: ok
< construct A
< 13: #5
< 14: ok
< call #5 formAssociated #4
< 15: ok
< call #5 formAssociated null
< 16: ok
< 17: ok
< call #5 formAssociated #4
< 18: ok
< 19: ok
< call #5 formAssociated null
< 20: ok
< call #5 formAssociated #4
< 21: ok
< 22: #6
< 23: ok
< 24: ok
< call #5 formAssociated null
< call #5 formAssociated #4
< call #5 formDisabled true
< 25: ok
< 26: ok
< 27: #4
< 28: yes"#;

#[test]
fn bodies_do_what_they_say(rt: HostRuntime) -> Result<(), Fail> {
    comes(&rt, rt.alloc(), "", EXTENDED)?;
    comes(&rt, rt.alloc(), "", CONSTRUCTORS)?;
    comes(&rt, rt.alloc(), "", TRIED)?;
    comes(&rt, rt.alloc(), "", MOVED)
}
