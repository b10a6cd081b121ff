// Values, checkedness and validity of controls.
use crate::script::comes;
use std::test::Fail;

// One radio button of a group is checked, and a reset goes back to what the attributes say; a textarea's value has line feeds
// alone, and an option's is its text with single spaces; what is disabled is not edited by the user.
const CONTROLS: &str = r#"> create $h html
> append doc $h
> create $f form
> append $h $f
> create $i input
> setattr $i type radio
> setattr $i name r
> setattr $i checked ""
> append $f $i
> clone $j $i
> append $f $j
> ask checked $i
> ask checked $j
> user check $i on
> ask checked $j
> user reset $f
> ask checked $j
> create $t textarea
> text $x "a\r\nb\rc"
> append $t $x
> ask value $t
> value $t z
> setattr $t disabled ""
> user edit $t q
> ask value $t
> create $s select
> create $o option
> text $y "  two   words "
> append $o $y
> append $s $o
> ask value $s
< 1: #2
< 2: ok
< 3: #3
< 4: ok
< 5: #4
< 6: ok
< 7: ok
< 8: ok
< 9: ok
< 10: #5
< 11: ok
< 12: no
< 13: yes
< 14: ok
< 15: no
< 16: ok
< 17: yes
< 18: #6
< 19: #7
< 20: ok
< 21: "a\nb\nc"
< 22: ok
< 23: ok
< 24: ignored
< 25: "z"
< 26: #8
< 27: #9
< 28: #10
< 29: ok
< 30: ok
< 31: "two words""#;

// Lengths bind what a user typed; a custom message makes a control invalid, also where it is barred from validation.
const VALIDITY: &str = r#"> create $f form
> create $a input
> setattr $a required ""
> append $f $a
> ask valid $a
> user edit $a "\u{1F600}"
> setattr $a minlength 3
> ask valid $a
> setattr $a maxlength 1
> ask valid $a
> value $a abcd
> ask valid $a
> custom $a "no good"
> ask valid $a
> ask message $a
> setattr $a readonly ""
> ask candidate $a
> ask valid $a
< 1: #2
< 2: #3
< 3: ok
< 4: ok
< 5: valueMissing
< 6: ok
< 7: ok
< 8: tooShort
< 9: ok
< 10: tooLong tooShort
< 11: ok
< 12: valid
< 13: ok
< 14: customError
< 15: "no good"
< 16: ok
< 17: no
< 18: customError"#;

// Controls that are invalid block a request for submission; those that are readonly, disabled or below a datalist are barred.
// A submitter may say that nothing is validated, and must be a submit button.
pub(crate) const INVALID: &str = r#"> create $h html
> append doc $h
> create $f form
> append $h $f
> create $a input
> setattr $a name a
> setattr $a required ""
> append $f $a
> clone $b $a
> setattr $b readonly ""
> append $f $b
> clone $c $a
> setattr $c disabled ""
> append $f $c
> create $d datalist
> append $f $d
> clone $e $a
> append $d $e
> create $t textarea
> setattr $t name t
> setattr $t minlength 3
> append $f $t
> user edit $t ab
> create $s button
> append $f $s
> request $f
> setattr $s formnovalidate ""
> request $f $s
> request $f $a
> user edit $a x
> user edit $t abc
> request $f
< 1: #2
< 2: ok
< 3: #3
< 4: ok
< 5: #4
< 6: ok
< 7: ok
< 8: ok
< 9: #5
< 10: ok
< 11: ok
< 12: #6
< 13: ok
< 14: ok
< 15: #7
< 16: ok
< 17: #8
< 18: ok
< 19: #9
< 20: ok
< 21: ok
< 22: ok
< 23: ok
< 24: #10
< 25: ok
< submit #3 blocked invalid #4 #9
< 26: ok
< 27: ok
< submit #3 get "http://page.test/?a=&a=&t=ab"
< 28: ok
< 29: throw TypeError
< 30: ok
< 31: ok
< submit #3 get "http://page.test/?a=x&a=&t=abc"
< 32: ok"#;

#[test]
fn controls_have_values_and_are_validated(rt: HostRuntime) -> Result<(), Fail> {
    comes(&rt, rt.alloc(), "", CONTROLS)?;
    comes(&rt, rt.alloc(), "", VALIDITY)?;
    comes(&rt, rt.alloc(), "", INVALID)
}
