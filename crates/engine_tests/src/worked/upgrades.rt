// Definitions, and the construction of elements by upgrade, by `new` and by `create`.
use crate::script::comes;
use std::test::Fail;

// Which names may be defined, and which names and classes are taken. A class that extends a local name needs an element of
// HTML that is known; a class that is not there can't be defined.
const NAMES: &str = r#"> class A
> class B
> class D
> define font-face A
> define X-a A
> define xa A
> define a- A
> define a- B
> define x-É A
> define x-É B
> define x-p D extends x-q
> define x-p D extends blink
> define x-p D extends p
> define x-p C
< 4: throw SyntaxError
< 5: throw SyntaxError
< 6: throw SyntaxError
< 7: ok
< 8: throw NotSupportedError
< 9: throw NotSupportedError
< 10: ok
< 11: throw NotSupportedError
< 12: throw NotSupportedError
< 13: ok
< 14: throw TypeError"#;

// A definition upgrades the page's elements of its name in shadow-including tree order, so those in the shadow root of an
// element before its children; one that stands outside is upgraded once it is inserted.
const CANDIDATES: &str = r#"> create $h html
> append doc $h
> create $d div
> append $h $d
> create $a x-a
> append $d $a
> shadow $s $d
> create $b x-a
> append $s $b
> create $c x-a
> class A
> has A connected
> define x-a A
> append $s $c
< 1: #2
< 2: ok
< 3: #3
< 4: ok
< 5: #4
< 6: ok
< 7: #5
< 8: #6
< 9: ok
< 10: #7
< construct A
< call #6 connected
< construct A
< call #4 connected
< 13: ok
< construct A
< call #7 connected
< 14: ok"#;

// A constructor that throws is reported; the callbacks of its element that waited are dropped, and it is not upgraded again.
const THROWN: &str = r#"> create $h html
> append doc $h
> create $e x-a
> setattr $e k 1
> append $h $e
> class A
> observe A k
> has A attribute
> has A connected
> on A constructor : super
> on A constructor : throw boom
> define x-a A
> ask state $e
> setattr $e k 2
> upgrade $e
< 1: #2
< 2: ok
< 3: #3
< 4: ok
< 5: ok
< construct A
< report user "boom"
< 12: ok
< 13: precustomized
< 14: ok
< 15: ok"#;

// A constructor that makes an element of its own class first gives that one what is upgraded, and its own base call throws;
// `new` throws where there is no base call, and where there are two, of which each makes an element; another element may be
// returned to `new`, and not to `create`.
const CONSTRUCTED: &str = r#"> create $e x-a
> class A
> on A constructor : bump
> on A constructor : if eq @count 1 : new $n A
> on A constructor : super
> define x-a A
> upgrade $e
> ask state $e
> ask state $n
> class B
> has B constructor
> define x-b B
> new $b B
> class C
> on C constructor : super
> on C constructor : super
> define x-c C
> new $c C
> class D
> on D constructor : return $h
> define x-d D
> create $h p
> create $d x-d
> new $k D
< 1: #2
< 6: ok
< construct A
< construct A
< report TypeError
< 7: ok
< 8: precustomized
< 9: precustomized
< 12: ok
< construct B
< 13: throw ReferenceError
< 17: ok
< construct C
< 18: throw ReferenceError
< 21: ok
< 22: #5
< construct D
< report NotSupportedError
< 23: #6
< construct D
< 24: #5"#;

#[test]
fn elements_are_constructed_once(rt: HostRuntime) -> Result<(), Fail> {
    comes(&rt, rt.alloc(), "", NAMES)?;
    comes(&rt, rt.alloc(), "", CANDIDATES)?;
    comes(&rt, rt.alloc(), "", THROWN)?;
    comes(&rt, rt.alloc(), "", CONSTRUCTED)
}
