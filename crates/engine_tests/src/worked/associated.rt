// Form-associated custom elements.
use crate::script::comes;
use std::test::Fail;

// The form owner: the form around an element, or the one that its attribute `form` names, whatever changes which that is.
pub(crate) const OWNERS: &str = r#"> create $h html
> append doc $h
> create $f form
> append $h $f
> class A
> associate A
> has A formAssociated
> define x-a A
> create $e x-a
> append $f $e
> setattr $e form g
> ask owner $e
> create $g form
> setattr $g id g
> append $h $g
> create $p p
> setattr $p id g
> before $h $p $f
> remove $h $p
> delattr $g id
> delattr $e form
> detach $f
< 1: #2
< 2: ok
< 3: #3
< 4: ok
< 8: ok
< construct A
< 9: #4
< call #4 formAssociated #3
< 10: ok
< call #4 formAssociated null
< 11: ok
< 12: null
< 13: #5
< 14: ok
< call #4 formAssociated #5
< 15: ok
< 16: #6
< 17: ok
< call #4 formAssociated null
< 18: ok
< call #4 formAssociated #5
< 19: ok
< call #4 formAssociated null
< 20: ok
< call #4 formAssociated #3
< 21: ok
< 22: ok"#;

// A fieldset disables what it has, but for what its first legend has.
pub(crate) const DISABLED: &str = r#"> class A
> associate A
> has A formDisabled
> define x-a A
> create $f fieldset
> create $l legend
> create $m legend
> create $e x-a
> append $f $l
> append $f $m
> append $m $e
> setattr $f disabled ""
> append $l $e
> remove $f $l
> append $m $e
> before $f $l $m
> ask disabled $e
< 4: ok
< 5: #2
< 6: #3
< 7: #4
< construct A
< 8: #5
< 9: ok
< 10: ok
< 11: ok
< call #5 formDisabled true
< 12: ok
< call #5 formDisabled false
< 13: ok
< 14: ok
< 15: ok
< call #5 formDisabled true
< 16: ok
< 17: yes"#;

// Who may have internals, and once only; a value needs an element that is form-associated, and flags need a message; states,
// and a restore by the user.
const INTERNALS: &str = r#"> class A
> associate A
> has A formStateRestore
> define x-a A
> create $d div
> internals $d
> create $e x-a
> formvalue $e v
> internals $e
> internals $e
> validity $e valueMissing ""
> validity $e valueMissing,tooLong "fill in"
> ask valid $e
> ask message $e
> validity $e none ""
> ask valid $e
> state $e add hi
> ask states $e
> class B
> define x-b B
> create $f x-b
> internals $f
> formvalue $f v
> user restore $e s1
< 4: ok
< 5: #2
< 6: throw NotSupportedError
< construct A
< 7: #3
< 8: throw TypeError
< 9: ok
< 10: throw NotSupportedError
< 11: throw TypeError
< 12: ok
< 13: valueMissing tooLong
< 14: "fill in"
< 15: ok
< 16: valid
< 17: ok
< 18: "hi"
< 20: ok
< construct B
< 21: #4
< 22: ok
< 23: throw NotSupportedError
< call #3 formStateRestore "s1" restore
< 24: ok"#;

#[test]
fn form_associated_elements_are_told_of_their_forms(rt: HostRuntime) -> Result<(), Fail> {
    comes(&rt, rt.alloc(), "", OWNERS)?;
    comes(&rt, rt.alloc(), "", DISABLED)?;
    comes(&rt, rt.alloc(), "", INTERNALS)
}
