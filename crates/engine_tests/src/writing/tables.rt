// Tables of lines of scripts.

// Each operation. Behind the empty line at the head each stands on a line of its own.
pub(super) const OPERATIONS: &str = r#"
create $a "div"
create $a "div" is "x-b" in doc
create $a "" in $d
new $a A
text $a "\"\\\n\r\t\u{0}\u{1f}\u{7f}é😀"
text $a "" in $d
shadow $a $b
append $a doc
before $a $b $c
remove $a $b
detach $a
setattr $a "k" "v"
delattr $a "k"
clone $a $b
clone $a $b deep
adopt $a $b
define "x-a" A
define "x-a" A extends "p"
upgrade $a
reset $a
internals $a
formvalue $a "v"
formvalue $a "v" state "state"
formlist $a
formlist $a "n" "v" "" "w"
formnull $a
validity $a none ""
validity $a valueMissing,typeMismatch,patternMismatch,tooLong,tooShort,rangeUnderflow,rangeOverflow,stepMismatch,badInput,customError "m"
state $a add "s"
state $a delete "s"
state $a clear
custom $a "m"
value $a "v"
check $a on
choose $a off
submit $a
request $a
request $a $b
ask attr $a "k"
ask parent $a
ask kids $a
ask state $a
ask owner $a
ask controls $a
ask disabled $a
ask candidate $a
ask valid $a
ask message $a
ask value $a
ask saved $a
ask checked $a
ask states $a
let $a $b"#;

// Bodies of callbacks, with what only stands in them.
pub(super) const ACTIONS: &str = r#"on A attribute : log "a" @1 @2 @3 @count @kept
on A constructor : super
on A connected : return
on A connected : return this
on A formReset : throw "x"
on A disconnected : bump
on A formAssociated : keep @1
on A formDisabled : append this $a
on A adopted : try bump
on A formStateRestore : if eq "a" @2 : bump
on A formStateRestore : if ne @kept ":" : keep ""
on A connected : try try try try try try try try bump
on A connected : log "" "" "" "" "" "" "" ""
on A connected : if eq @1 "" : if ne "" @1 : try if eq "" "" : try throw @count"#;

// Parts of classes, and what stands in no body.
pub(super) const CLASSES: &str = r#"
class A
has A formStateRestore
observe A "0" "1" "2" "3" "4" "5" "6" "7" "8" "9" "a" "b" "c" "d" "e" "f"
associate A
disable A shadow
disable A internals
doc $a
user edit $a "v"
user check $a on
user choose $a off
user reset $a
user restore $a "s"
user autofill $a "s"
user press $a"#;

// Lines that are spelled otherwise, each with its canonical line.
pub(super) const SPELLINGS: &str = r#"  # nothing => 
 create  $a div  is x-b in $d  => create $a "div" is "x-b" in $d
text $a in in doc => text $a "in" in doc
text $a "\u{61}\u{22}\u{A}\u{1f600}" => text $a "a\"\n😀"
setattr doc is in => setattr doc "is" "in"
define extends A extends extends => define "extends" A extends "extends"
formvalue $a state state state => formvalue $a "state" state "state"
validity $a tooLong,valueMissing,tooLong m => validity $a valueMissing,tooLong "m"
validity $a none "@" => validity $a none "@"
observe A K "$k" => observe A "K" "$k"
on A attribute :  log log "@1" @1 => on A attribute : log "log" "@1" @1
on A formReset : if ne : : : throw : => on A formReset : if ne ":" ":" : throw ":"
user edit doc edit => user edit doc "edit""#;

// A script of a custom element in a form, as it is typed.
pub(super) const RATING: &str = r#"class Rating
associate Rating
observe Rating stars => observe Rating "stars"
on Rating constructor : super
on Rating constructor : internals this
on Rating attribute : formvalue this @3
define x-rating Rating => define "x-rating" Rating
create $h html => create $h "html"
append doc $h
create $f form => create $f "form"
setattr $f method post => setattr $f "method" "post"
setattr $f action /send?x=1 => setattr $f "action" "/send?x=1"
append $h $f
create $n input => create $n "input"
setattr $n name "full name" => setattr $n "name" "full name"
append $f $n
create $p input => create $p "input"
setattr $p type password => setattr $p "type" "password"
setattr $p name pw => setattr $p "name" "pw"
append $f $p
create $c input => create $c "input"
setattr $c type checkbox => setattr $c "type" "checkbox"
setattr $c name news => setattr $c "name" "news"
setattr $c checked "" => setattr $c "checked" ""
append $f $c
create $s select => create $s "select"
setattr $s name size => setattr $s "name" "size"
create $o option => create $o "option"
setattr $o value M => setattr $o "value" "M"
create $q option => create $q "option"
setattr $q value "L&XL" => setattr $q "value" "L&XL"
append $s $o
append $s $q
append $f $s
create $r x-rating => create $r "x-rating"
setattr $r name rating => setattr $r "name" "rating"
append $f $r
create $b button => create $b "button"
setattr $b name go => setattr $b "name" "go"
setattr $b value Send => setattr $b "value" "Send"
append $f $b
user edit $n "Ána Lee"
user edit $p "a+b=c"
user choose $q on
setattr $r stars 4 => setattr $r "stars" "4"
user press $b"#;
