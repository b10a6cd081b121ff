// Forms that are submitted, with words, in scripts that are read in pieces.
use crate::script::comes;
use std::test::Fail;

// The empty list, as multipart, and one of a textarea and of a custom element's entries, by each encoding; a boundary that
// occurs blocks.
const ENCODED: &str = r#"> create $h html
> append doc $h
> create $f form
> setattr $f enctype multipart/form-data
> setattr $f method POST
> append $h $f
> submit $f
> create $i textarea
> setattr $i name "a\"\n"
> append $f $i
> value $i "p\nq"
> class L
> associate L
> on L constructor : super
> on L constructor : internals this
> on L constructor : formlist this u 1 v ""
> define x-l L
> create $l x-l
> append $f $l
> submit $f
> value $i aXXb
> submit $f
> setattr $f enctype text/plain
> submit $f
> setattr $f method get
> submit $f
< 1: #2
< 2: ok
< 3: #3
< 4: ok
< 5: ok
< 6: ok
< submit #3 post "http://page.test/" "multipart/form-data; boundary=XX" "--XX--\r\n"
< 7: ok
< 8: #4
< 9: ok
< 10: ok
< 11: ok
< 17: ok
< construct L
< 18: #5
< 19: ok
< submit #3 post "http://page.test/" "multipart/form-data; boundary=XX" "--XX\r\nContent-Disposition: form-data; name=\"a%22%0D%0A\"\r\n\r\np\r\nq\r\n--XX\r\nContent-Disposition: form-data; name=\"u\"\r\n\r\n1\r\n--XX\r\nContent-Disposition: form-data; name=\"v\"\r\n\r\n\r\n--XX--\r\n"
< 20: ok
< 21: ok
< submit #3 blocked boundary
< 22: ok
< 23: ok
< submit #3 post "http://page.test/" "text/plain" "a\"\r\n=aXXb\r\nu=1\r\nv=\r\n"
< 24: ok
< 25: ok
< submit #3 get "http://page.test/?a%22%0D%0A=aXXb&u=1&v="
< 26: ok"#;

// A form with nothing to send, before it has controls and after they are removed; in between it is sent as multipart and as
// plain text.
const EMPTIED: &str = r#"> create $h html
> append doc $h
> create $f form
> setattr $f enctype multipart/form-data
> setattr $f method POST
> append $h $f
> submit $f
> create $i textarea
> setattr $i name "a\"\n"
> append $f $i
> value $i "p\nq"
> class L
> associate L
> on L constructor : super
> on L constructor : internals this
> on L constructor : formlist this u 1 v ""
> define x-l L
> create $l x-l
> append $f $l
> submit $f
> value $i aXXb
> submit $f
> setattr $f enctype text/plain
> submit $f
> setattr $f method get
> remove $f $i
> remove $f $l
> submit $f
< 1: #2
< 2: ok
< 3: #3
< 4: ok
< 5: ok
< 6: ok
< submit #3 post "http://page.test/" "multipart/form-data; boundary=XX" "--XX--\r\n"
< 7: ok
< 8: #4
< 9: ok
< 10: ok
< 11: ok
< 17: ok
< construct L
< 18: #5
< 19: ok
< submit #3 post "http://page.test/" "multipart/form-data; boundary=XX" "--XX\r\nContent-Disposition: form-data; name=\"a%22%0D%0A\"\r\n\r\np\r\nq\r\n--XX\r\nContent-Disposition: form-data; name=\"u\"\r\n\r\n1\r\n--XX\r\nContent-Disposition: form-data; name=\"v\"\r\n\r\n\r\n--XX--\r\n"
< 20: ok
< 21: ok
< submit #3 blocked boundary
< 22: ok
< 23: ok
< submit #3 post "http://page.test/" "text/plain" "a\"\r\n=aXXb\r\nu=1\r\nv=\r\n"
< 24: ok
< 25: ok
< 26: ok
< 27: ok
< submit #3 get "http://page.test/?"
< 28: ok"#;

#[test]
fn a_form_is_sent_by_each_encoding(rt: HostRuntime) -> Result<(), Fail> {
    comes(&rt, rt.alloc(), "--boundary XX", ENCODED)?;
    comes(&rt, rt.alloc(), "--boundary XX", EMPTIED)
}

// The action is parsed against the page's URL; with GET the entries take the place of its query; a character that pieces cut is whole.
const RELATIVE: &str = r#"> create $h html
> append doc $h
> create $f form
> append $h $f
> create $i input
> setattr $i name "full name"
> append $f $i
> user edit $i "Ána Lee"
> submit $f
> setattr $f action ../send?x=1#end
> submit $f
> setattr $f method post
> request $f
< 1: #2
< 2: ok
< 3: #3
< 4: ok
< 5: #4
< 6: ok
< 7: ok
< 8: ok
< submit #3 get "https://a.test/b/c?full+name=%C3%81na+Lee#d"
< 9: ok
< 10: ok
< submit #3 get "https://a.test/send?full+name=%C3%81na+Lee#end"
< 11: ok
< 12: ok
< submit #3 post "https://a.test/send?x=1#end" "application/x-www-form-urlencoded" "full+name=%C3%81na+Lee"
< 13: ok"#;

#[test]
fn a_form_is_sent_from_the_page(rt: HostRuntime) -> Result<(), Fail> {
    comes(
        &rt,
        rt.alloc(),
        "--url=https://a.test/b/c?q#d --fuel 100",
        RELATIVE,
    )
}
