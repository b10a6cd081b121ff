// Reactions in their queues.
use crate::script::comes;
use std::test::Fail;

// With its trace: an upgrade puts callbacks behind itself; a reset by the user goes to the backup queue, one by a call to the
// queue of its line.
const TRACED: &str = r#"> create $h html
> append doc $h
> create $f form
> append $h $f
> create $e x-a
> append $f $e
> class A
> associate A
> has A connected
> has A formReset
> has A formAssociated
> define x-a A
> user reset $f
> reset $f
< ~ open 1
< ~ drain 1
< ~ close 1
< 1: #2
< ~ open 2
< ~ drain 2
< ~ close 2
< 2: ok
< ~ open 3
< ~ drain 3
< ~ close 3
< 3: #3
< ~ open 4
< ~ drain 4
< ~ close 4
< 4: ok
< ~ open 5
< ~ drain 5
< ~ close 5
< 5: #4
< ~ open 6
< ~ drain 6
< ~ close 6
< 6: ok
< ~ open 7
< ~ enq 1 #4 upgrade 7
< ~ drain 7
< ~ start 1
< ~ up #4
< ~ enq 2 #4 connected 0
< construct A
< ~ enq 3 #4 formAssociated 0
< ~ done #4
< ~ finish 1
< ~ start 2
< call #4 connected
< ~ finish 2
< ~ start 3
< call #4 formAssociated #3
< ~ finish 3
< ~ close 7
< ~ drain 0
< ~ close 0
< 12: ok
< ~ enq 4 #4 formReset 0
< ~ drain 0
< ~ start 4
< call #4 formReset
< ~ finish 4
< ~ close 0
< 13: ok
< ~ open 8
< ~ enq 5 #4 formReset 8
< ~ drain 8
< ~ start 5
< call #4 formReset
< ~ finish 5
< ~ close 8
< 14: ok"#;

// An element and what its shadow root has are adopted together, by a call and by an insertion from another document; one that
// was made in a document without a browsing context is upgraded only in the page.
const ADOPTED: &str = r#"> class A
> has A adopted
> has A connected
> define x-a A
> doc $d
> create $h html
> append doc $h
> create $e x-a
> shadow $s $e
> create $i x-a
> append $s $i
> adopt $d $e
> create $u x-a in $d
> append $e $u
> append $h $e
< 4: ok
< 5: #2
< 6: #3
< 7: ok
< construct A
< 8: #4
< 9: #5
< construct A
< 10: #6
< 11: ok
< call #4 adopted #1 #2
< call #6 adopted #1 #2
< 12: ok
< 13: #7
< 14: ok
< call #4 adopted #2 #1
< call #4 connected
< call #6 adopted #2 #1
< call #6 connected
< construct A
< call #7 connected
< 15: ok"#;

#[test]
fn reactions_are_called_in_the_order_of_their_queues(rt: HostRuntime) -> Result<(), Fail> {
    comes(&rt, rt.alloc(), "--trace", TRACED)?;
    comes(&rt, rt.alloc(), "", ADOPTED)
}
