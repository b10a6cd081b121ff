// Forms that are submitted, and forms that are reset.
use crate::script::comes;
use std::test::Fail;

// A button sends what was typed, checked and chosen, what a custom element gave its internals, and the button itself.
pub(crate) const SUBMITTED: &str = r#"> class Rating
> associate Rating
> observe Rating stars
> on Rating constructor : super
> on Rating constructor : internals this
> on Rating attribute : formvalue this @3
> define x-rating Rating
> create $h html
> append doc $h
> create $f form
> setattr $f method post
> setattr $f action /send?x=1
> append $h $f
> create $n input
> setattr $n name "full name"
> append $f $n
> create $p input
> setattr $p type password
> setattr $p name pw
> append $f $p
> create $c input
> setattr $c type checkbox
> setattr $c name news
> setattr $c checked ""
> append $f $c
> create $s select
> setattr $s name size
> create $o option
> setattr $o value M
> create $q option
> setattr $q value "L&XL"
> append $s $o
> append $s $q
> append $f $s
> create $r x-rating
> setattr $r name rating
> append $f $r
> create $b button
> setattr $b name go
> setattr $b value Send
> append $f $b
> user edit $n "Ána Lee"
> user edit $p "a+b=c"
> user choose $q on
> setattr $r stars 4
> user press $b
< 7: ok
< 8: #2
< 9: ok
< 10: #3
< 11: ok
< 12: ok
< 13: ok
< 14: #4
< 15: ok
< 16: ok
< 17: #5
< 18: ok
< 19: ok
< 20: ok
< 21: #6
< 22: ok
< 23: ok
< 24: ok
< 25: ok
< 26: #7
< 27: ok
< 28: #8
< 29: ok
< 30: #9
< 31: ok
< 32: ok
< 33: ok
< 34: ok
< construct Rating
< 35: #10
< 36: ok
< 37: ok
< 38: #11
< 39: ok
< 40: ok
< 41: ok
< 42: ok
< 43: ok
< 44: ok
< call #10 attribute "stars" null "4"
< 45: ok
< submit #3 post "http://page.test/send?x=1" "application/x-www-form-urlencoded" "full+name=%C3%81na+Lee&pw=a%2Bb%3Dc&news=on&size=L%26XL&rating=4&go=Send"
< 46: ok"#;

// Which radio button is sent before and after it is checked, and after the form is reset; the hidden control `_charset_` sends
// an encoding.
const RESET: &str = r#"> create $h html
> append doc $h
> create $f form
> append $h $f
> create $i input
> setattr $i type radio
> setattr $i name r
> setattr $i value 1
> setattr $i checked ""
> append $f $i
> clone $j $i
> setattr $j value 2
> append $f $j
> submit $f
> check $i on
> submit $f
> create $c input
> setattr $c type hidden
> setattr $c name _Charset_
> append $f $c
> reset $f
> submit $f
< 1: #2
< 2: ok
< 3: #3
< 4: ok
< 5: #4
< 6: ok
< 7: ok
< 8: ok
< 9: ok
< 10: ok
< 11: #5
< 12: ok
< 13: ok
< submit #3 get "http://page.test/?r=2"
< 14: ok
< 15: ok
< submit #3 get "http://page.test/?r=1"
< 16: ok
< 17: #6
< 18: ok
< 19: ok
< 20: ok
< 21: ok
< submit #3 get "http://page.test/?r=2&_Charset_=UTF-8"
< 22: ok"#;

#[test]
fn what_controls_have_is_sent(rt: HostRuntime) -> Result<(), Fail> {
    comes(&rt, rt.alloc(), "", SUBMITTED)?;
    comes(&rt, rt.alloc(), "", RESET)
}
