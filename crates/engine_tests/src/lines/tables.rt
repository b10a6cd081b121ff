// Tables of lines.

// Each kind of line that a transcript has, and some that no script gives.
pub(super) const LINES: &str = r#"construct A
call #2 connected
call #2 disconnected
call #2 adopted #1 #18446744073709551615
call #2 attribute "k" null "1"
call #2 attribute "k" "" null
call #2 formAssociated #3
call #2 formAssociated null
call #2 formDisabled true
call #2 formDisabled false
call #2 formReset
call #2 formStateRestore "s 1" restore
call #2 formStateRestore "s 1" autocomplete
log
log "a b" "" "c"
log "a\"b\\c\nd\re\tf\u{0}g\u{1f}h\u{7f}iÁ"
6: throw TypeError
6: throw ReferenceError
6: throw SyntaxError
6: throw NotSupportedError
6: throw HierarchyRequestError
6: throw NotFoundError
6: throw InvalidCharacterError
6: throw user "a \"b\""
caught TypeError
report user "no"
ask null
ask ""
ask list
ask #2
ask yes
ask no
ask empty
ask #7 #3 #10
ask "hi" "a b"
ask undefined
ask failed
ask uncustomized
ask precustomized
ask custom
ask valid
ask tooLong
ask valueMissing tooLong
ask valueMissing typeMismatch patternMismatch tooLong tooShort
ask rangeUnderflow rangeOverflow stepMismatch badInput customError
1: ok
18446744073709551615: #2
8: null
8: #7 #3
40: ignored
fuel
3: bad long
3: bad utf8
3: bad quote
3: bad escape
3: bad word
3: bad arity
3: bad place
submit #2 blocked disconnected
submit #2 blocked invalid
submit #2 blocked invalid #5 #4
submit #2 blocked dialog
submit #2 blocked url
submit #2 blocked scheme
submit #2 blocked size
submit #2 blocked boundary
submit #2 get "http://page.test/?r=2"
submit #2 post "http://page.test/" "text/plain" "a=\"1\""
~ open 3
~ enq 1 #2 attribute 3
~ enq 1 #2 upgrade 0
~ drain 3
~ start 1
~ finish 1
~ drop 1
~ close 3
~ up #2
~ done #2
~ threw #2"#;

// The lines of a whole transcript, with its trace: an upgrade by a definition, and two resets.
pub(super) const TRACED: &str = r#"~ open 1
~ drain 1
~ close 1
1: #2
~ open 2
~ drain 2
~ close 2
2: ok
~ open 3
~ drain 3
~ close 3
3: #3
~ open 4
~ drain 4
~ close 4
4: ok
~ open 5
~ drain 5
~ close 5
5: #4
~ open 6
~ drain 6
~ close 6
6: ok
~ open 7
~ enq 1 #4 upgrade 7
~ drain 7
~ start 1
~ up #4
~ enq 2 #4 connected 0
construct A
~ enq 3 #4 formAssociated 0
~ done #4
~ finish 1
~ start 2
call #4 connected
~ finish 2
~ start 3
call #4 formAssociated #3
~ finish 3
~ close 7
~ drain 0
~ close 0
12: ok
~ enq 4 #4 formReset 0
~ drain 0
~ start 4
call #4 formReset
~ finish 4
~ close 0
13: ok
~ open 8
~ enq 5 #4 formReset 8
~ drain 8
~ start 5
call #4 formReset
~ finish 5
~ close 8
14: ok"#;

// Lines that are read although they look odd, with a bar between them.
pub(super) const ODD: &str = concat!(
    "log|ask empty|3: empty|submit #2 blocked invalid|construct x y|construct |",
    "construct  A |construct a\nb|construct construct A|construct \"A|construct Á|",
    "log \"3: ok\" \"log\" \"#2\" \"null\"|",
    "log \"\\\\\\\"\\n\\r\\t\\u{0}\\u{1f}\\u{7f}Á\"|log \"\" \"\"|ask \"\"|ask \"empty\"|",
    "ask \"valid\"|ask \"#2\"|ask \"null\" \"yes\"|3: \"ok\"|3: \"ignored\" \"bad\"|",
    "call #18446744073709551615 attribute \"\" \"\" null|",
    "call #0 attribute \"null\" null \"null\"|18446744073709551615: #0|0: valid|",
    "caught user \"TypeError\"|~ enq 1 #4 constructor 0",
);

// What is the text of no event, with a bar between.
pub(super) const REFUSED: &str = concat!(
    "|#|fuel | fuel|Fuel|fuel x|\"fuel\"|03: ok|00: ok|18446744073709551616: ok|+3: ok|",
    "3 ok|3:|3: |3:ok|3: ok then|x: ok|: ok|3: throw|3: bad|3: bad luck|3: ignored x|",
    "call #02 connected|call #18446744073709551616 connected|call 2 connected|call #2|",
    "call #2 connected x|call #2 renamed|call  #2 connected|call #2 formDisabled yes|",
    "call #2 formStateRestore \"a\" undo|call #2 attribute \"a\" \"b\"|",
    "call #2 attribute \"a\" none null|log  \"a\"|log \"a\" |log a|log \"a|log \"a\"b|",
    "log \"a\" b|log \"\\u{0A}\"|log \"\\u{00}\"|log \"\\u{41}\"|log \"\\u{a}\"|",
    "log \"\\u{1F}\"|log \"\\q\"|log \"a\\\"|log \"a\tb\"|log \"a\nb\"|ask|ask null null|",
    "ask \"a\" b|ask #1 x|ask #1 2|ask tooLong valueMissing|ask tooLong tooLong|",
    "ask valid valid|ask none|ask maybe|caught|caught NoError|caught user|caught user a|",
    "caught TypeError x|submit #2 get|submit #2 post \"a\" \"b\"|",
    "submit #2 blocked size #1|submit #2 blocked none|~ open|~ open 07|~ open #1|~ up 1|",
    "~ enq 1 #4 renamed 7|~ enq 1 #4 upgrade|~open 1|construct|constructor A|Construct A",
);
