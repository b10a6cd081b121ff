// Callbacks that change the tree while they run.
use crate::script::comes;
use std::test::Fail;

// An element that a callback takes out hears that it came in, and then that it left.
pub(crate) const INNER: &str = r#"> class A
> on A connected : detach $q
> class B
> has B connected
> has B disconnected
> define x-a A
> define x-b B
> create $h html
> append doc $h
> create $p x-a
> create $q x-b
> append $p $q
> append $h $p
< 6: ok
< 7: ok
< 8: #2
< 9: ok
< construct A
< 10: #3
< construct B
< 11: #4
< 12: ok
< call #3 connected
< call #4 connected
< call #4 disconnected
< 13: ok"#;

// A callback that sets the attribute it was told of is told again, within itself.
pub(crate) const REENTERED: &str = r#"> class A
> observe A k
> on A attribute : bump
> on A attribute : log @count @3
> on A attribute : if ne @count 3 : setattr this k @count
> on A attribute : log @count
> define x-a A
> create $e x-a
> setattr $e k z
> ask attr $e k
< 7: ok
< construct A
< 8: #2
< call #2 attribute "k" null "z"
< log "1" "z"
< call #2 attribute "k" "z" "1"
< log "2" "1"
< call #2 attribute "k" "1" "2"
< log "3" "2"
< log "3"
< log "3"
< log "3"
< 9: ok
< 10: "2""#;

// Where a constructor throws, the creation gives another element, which is failed; the one that the base call made stays custom.
pub(crate) const FAILED: &str = r#"> class A
> observe A k
> has A attribute
> on A constructor : super
> on A constructor : let $s this
> on A constructor : throw no
> define x-a A
> create $e x-a
> ask state $e
> ask state $s
> setattr $s k 1
> setattr $e k 1
< 7: ok
< construct A
< report user "no"
< 8: #3
< 9: failed
< 10: custom
< call #2 attribute "k" null "1"
< 11: ok
< 12: ok"#;

// An element, and one in its shadow tree, are told that they were connected, and both that they were disconnected.
pub(crate) const CONNECTED: &str = r#"> class A
> on A connected : log in
> on A disconnected : log out
> define x-a A
> create $h html
> append doc $h
> create $e x-a
> create $d div
> append $d $e
> append $h $d
> shadow $s $e
> create $i x-a
> append $s $i
> detach $d
> ask kids $d
> ask parent $d
< 4: ok
< 5: #2
< 6: ok
< construct A
< 7: #3
< 8: #4
< 9: ok
< call #3 connected
< log "in"
< 10: ok
< 11: #5
< construct A
< 12: #6
< call #6 connected
< log "in"
< 13: ok
< call #3 disconnected
< log "out"
< call #6 disconnected
< log "out"
< 14: ok
< 15: #3
< 16: null"#;

#[test]
fn callbacks_run_within_callbacks(rt: HostRuntime) -> Result<(), Fail> {
    comes(&rt, rt.alloc(), "", INNER)?;
    comes(&rt, rt.alloc(), "", REENTERED)?;
    comes(&rt, rt.alloc(), "", FAILED)?;
    comes(&rt, rt.alloc(), "", CONNECTED)
}
