// Queues as the trace shows them, and the tree as it is asked.
use crate::script::comes;
use std::test::Fail;

// The queues of upgrades and of what they enqueue.
pub(crate) const TRACED: &str = r#"> create $h html
> append doc $h
> create $e x-a
> append $h $e
> class A
> observe A k
> has A connected
> on A attribute : log @3
> define x-a A
> setattr $e k 1
< ~ open 1
< ~ drain 1
< ~ close 1
< 1: #2
< ~ open 2
< ~ drain 2
< ~ close 2
< 2: ok
< ~ open 3
< ~ drain 3
< ~ close 3
< 3: #3
< ~ open 4
< ~ drain 4
< ~ close 4
< 4: ok
< ~ open 5
< ~ enq 1 #3 upgrade 5
< ~ drain 5
< ~ start 1
< ~ up #3
< ~ enq 2 #3 connected 0
< construct A
< ~ done #3
< ~ finish 1
< ~ start 2
< call #3 connected
< ~ finish 2
< ~ close 5
< ~ drain 0
< ~ close 0
< 9: ok
< ~ open 6
< ~ enq 3 #3 attribute 6
< ~ drain 6
< ~ start 3
< call #3 attribute "k" null "1"
< log "1"
< ~ finish 3
< ~ close 6
< 10: ok"#;

// The queues where a constructor throws.
pub(crate) const THREW: &str = r#"> create $h html
> append doc $h
> create $e x-a
> setattr $e k 1
> append $h $e
> class A
> observe A k
> has A attribute
> has A connected
> on A constructor : super
> on A constructor : throw boom
> define x-a A
> ask state $e
> setattr $e k 2
> upgrade $e
< ~ open 1
< ~ drain 1
< ~ close 1
< 1: #2
< ~ open 2
< ~ drain 2
< ~ close 2
< 2: ok
< ~ open 3
< ~ drain 3
< ~ close 3
< 3: #3
< ~ open 4
< ~ drain 4
< ~ close 4
< 4: ok
< ~ open 5
< ~ drain 5
< ~ close 5
< 5: ok
< ~ open 6
< ~ enq 1 #3 upgrade 6
< ~ drain 6
< ~ start 1
< ~ up #3
< ~ enq 2 #3 attribute 0
< ~ enq 3 #3 connected 0
< construct A
< ~ drop 2
< ~ drop 3
< ~ threw #3
< report user "boom"
< ~ finish 1
< ~ close 6
< ~ drain 0
< ~ close 0
< 12: ok
< 13: precustomized
< ~ open 7
< ~ drain 7
< ~ close 7
< 14: ok
< ~ open 8
< ~ enq 4 #3 upgrade 8
< ~ drain 8
< ~ start 4
< ~ finish 4
< ~ close 8
< 15: ok"#;

// Changes of the tree, taken and refused, and what is asked of it.
pub(crate) const ASKED: &str = r#"> create $h html
> append doc $h
> create $a div
> append doc $a
> append $h $a
> append $a $h
> text $t hi
> append doc $t
> append $t $a
> before $h $t $h
> shadow $s $a
> append $s $h
> remove $h $t
> append $h $nobody
> before $h $a $a
> ask kids $h
> create $i input
> shadow $r $i
> shadow $r $a
> create $j "a b"
> clone $k $s
< 1: #2
< 2: ok
< 3: #3
< 4: throw HierarchyRequestError
< 5: ok
< 6: throw HierarchyRequestError
< 7: #4
< 8: throw HierarchyRequestError
< 9: throw HierarchyRequestError
< 10: throw NotFoundError
< 11: #5
< 12: throw HierarchyRequestError
< 13: throw NotFoundError
< 14: throw TypeError
< 15: ok
< 16: #3
< 17: #6
< 18: throw NotSupportedError
< 19: throw NotSupportedError
< 20: throw InvalidCharacterError
< 21: throw NotSupportedError"#;

#[test]
fn queues_and_trees_are_shown(rt: HostRuntime) -> Result<(), Fail> {
    comes(&rt, rt.alloc(), "--trace", TRACED)?;
    comes(&rt, rt.alloc(), "--trace", THREW)?;
    comes(&rt, rt.alloc(), "", ASKED)
}
