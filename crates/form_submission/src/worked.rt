// The definitions compute: forms submitted, each as the contract of a function that does nothing.
ghost use Rattle.std.specs.Prelude.{◌≡◌, ◌∷◌, [], Some, None, true, false, codes};
ghost use Rattle.ce_base.specs.declared.fault.Fault.TheVariants.{NotFoundError, TypeError};
ghost use Rattle.ce_base.specs.Texts.{entry};
ghost use Rattle.form_controls.specs.Worked.Invalid as invalid;
ghost use Rattle.form_controls.specs.Worked.Kept as controls;
ghost use Rattle.form_controls.specs.Worked.Told.{with_forest};
ghost use Rattle.form_submission.specs.declared.plan.Plan.TheVariants.{Get, Post, Blocked};
ghost use Rattle.form_submission.specs.declared.plan.Why.TheVariants.{Disconnected, Invalid, Dialog, Url, Scheme, Boundary};
ghost use Rattle.form_submission.specs.Encodings.{is_broken_by};
ghost use Rattle.form_submission.specs.EntryList.{entry_list};
ghost use Rattle.form_submission.specs.LineEnds.{with_full_newlines};
ghost use Rattle.form_submission.specs.Plans.{entry_size, plan};
ghost use Rattle.form_submission.specs.Requests.{request_fit};
ghost use Rattle.form_submission.specs.Worked.Bodies as bodies;
ghost use Rattle.form_submission.specs.Worked.Button.{rating};
ghost use Rattle.form_submission.specs.Worked.Causes as causes;
ghost use Rattle.form_submission.specs.Worked.Entries as entries;
ghost use Rattle.form_submission.specs.Worked.Groups.{pair, with_charset};
ghost use Rattle.form_submission.specs.Worked.Kept as kept;

/// The definitions compute: a form with controls of many kinds, which a button submits.
#[tactic(auto, unfolding(url::proofs::OnLiterals::url_on_literals))]
pub fn worked_button()
    ensures { plan (with_forest (10 ∷ []) rating) kept.filled_in kept.four_stars kept.page (codes "XX") 3 (Some 11) false
        ≡ Post (codes "http://page.test/send?x=1") (codes "application/x-www-form-urlencoded")
        (codes "full+name=%C3%81na+Lee&pw=a%2Bb%3Dc&news=on&size=L%26XL&rating=4&go=Send") }
{}

/// The definitions compute: invalid controls block a submission, unless the submitter says that they are not
/// validated; and what is no submit button does not fit.
#[tactic(auto, unfolding(url::proofs::OnLiterals::url_on_literals))]
pub fn worked_validation()
    ensures invalid { plan (with_forest [] invalid.barred) controls.two_letters [] kept.page (codes "XX") 3 None false
        ≡ Blocked (Invalid (4 ∷ 9 ∷ [])) }
    ensures by_call { plan (with_forest [] invalid.barred) controls.two_letters [] kept.page (codes "XX") 3 None true
        ≡ Get (codes "http://page.test/?a=&a=&t=ab") }
    ensures form_unchecked { plan (with_forest [] causes.form_unchecked) [] [] kept.page (codes "XX") 3 None false ≡ Get (codes "http://page.test/?a=") }
    ensures fits { request_fit (with_forest [] invalid.unchecked) 3 (Some 10) ≡ None }
    ensures unchecked { plan (with_forest [] invalid.unchecked) controls.two_letters [] kept.page (codes "XX") 3 (Some 10) false
        ≡ Get (codes "http://page.test/?a=&a=&t=ab") }
    ensures no_button { request_fit (with_forest [] invalid.unchecked) 3 (Some 4) ≡ Some TypeError }
    ensures mended { plan (with_forest [] invalid.unchecked) controls.three_letters [] kept.page (codes "XX") 3 None false
        ≡ Get (codes "http://page.test/?a=x&a=&t=abc") }
{}

/// The definitions compute: multipart bodies, a boundary that occurs in a value, plain text, and an empty query.
#[tactic(auto, unfolding(url::proofs::OnLiterals::url_on_literals))]
pub fn worked_bodies()
    ensures empty { plan (with_forest [] bodies.empty) [] [] kept.page (codes "XX") 3 None true
        ≡ Post kept.page (codes "multipart/form-data; boundary=XX") (kept.lines (codes "--XX--" ∷ [])) }
    ensures filled { plan (with_forest (5 ∷ []) bodies.filled) kept.two_lines kept.two_entries kept.page (codes "XX") 3 None true
        ≡ Post kept.page (codes "multipart/form-data; boundary=XX") kept.multipart_body }
    ensures broken { plan (with_forest (5 ∷ []) bodies.filled) kept.with_boundary kept.two_entries kept.page (codes "XX") 3 None true
        ≡ Blocked Boundary }
    ensures plain { plan (with_forest (5 ∷ []) bodies.plain) kept.with_boundary kept.two_entries kept.page (codes "XX") 3 None true
        ≡ Post kept.page (codes "text/plain") kept.plain_body }
    ensures emptied { plan (with_forest (5 ∷ []) bodies.emptied) kept.with_boundary kept.two_entries kept.page (codes "XX") 3 None true
        ≡ Get (codes "http://page.test/?") }
{}

/// The definitions compute: of radio buttons that are all flagged the last is sent; one that is set on alone; and
/// the same again after a reset, with the name of the encoding.
#[tactic(auto, unfolding(url::proofs::OnLiterals::url_on_literals))]
pub fn worked_groups()
    ensures last { plan (with_forest [] pair) kept.cloned [] kept.page (codes "XX") 3 None true ≡ Get (codes "http://page.test/?r=2") }
    ensures first { plan (with_forest [] pair) kept.first_on [] kept.page (codes "XX") 3 None true ≡ Get (codes "http://page.test/?r=1") }
    ensures reset { plan (with_forest [] with_charset) kept.reset_again [] kept.page (codes "XX") 3 None true
        ≡ Get (codes "http://page.test/?r=2&_Charset_=UTF-8") }
{}

/// The definitions compute: who gives entries, and which.
pub fn worked_entries()
    ensures by_script { entry_list (with_forest (16 ∷ 17 ∷ 18 ∷ []) entries.mixed) [] entries.kept 3 None ≡ entries.given }
    ensures by_button { entry_list (with_forest (16 ∷ 17 ∷ 18 ∷ []) entries.mixed) [] entries.kept 3 (Some 11) ≡ entries.given_to_button }
{}

/// The definitions compute: line ends as they are sent, where a boundary occurs, and how an entry counts.
pub fn worked_texts()
    ensures line_ends { with_full_newlines kept.line_ends ≡ kept.full_line_ends }
    ensures in_name { is_broken_by (entry (codes "aXX") [] ∷ []) (codes "XX") ≡ true }
    ensures in_value { is_broken_by (entry [] [] ∷ entry [] (codes "XaXXb") ∷ []) (codes "XX") ≡ true }
    ensures in_neither { is_broken_by (entry (codes "X") (codes "X") ∷ entry (codes "x") (codes "Xx") ∷ []) (codes "XX") ≡ false }
    ensures size { entry_size (entry (codes "ab") (codes "c")) ≡ 4 }
{}

/// The definitions compute: what blocks a submission, the first cause of all, and whose form a button submits.
#[tactic(auto, unfolding(url::proofs::OnLiterals::url_on_literals))]
pub fn worked_causes()
    ensures apart { plan (with_forest [] causes.form_apart) [] [] kept.page (codes "XX") 3 None true ≡ Blocked Disconnected }
    ensures in_shadow { plan (with_forest [] causes.form_in_shadow) [] [] kept.page (codes "XX") 3 None true ≡ Get (codes "http://page.test/?a=1") }
    ensures dialog { plan (with_forest [] (causes.form_in_page ((codes "method", codes "Dialog") ∷ (codes "action", codes "http://[") ∷ []) []))
        [] [] kept.page (codes "XX") 3 None true
        ≡ Blocked Dialog }
    ensures url { plan (with_forest [] (causes.form_in_page ((codes "action", codes "http://[") ∷ []) [])) [] [] kept.page (codes "XX") 3 None true
        ≡ Blocked Url }
    ensures scheme { plan (with_forest [] (causes.form_in_page ((codes "action", codes "mailto:a@b") ∷ []) [])) [] [] kept.page (codes "XX") 3 None true
        ≡ Blocked Scheme }
    ensures https { plan (with_forest [] (causes.form_in_page ((codes "action", codes "https://other.test") ∷ []) [])) [] [] kept.page (codes "XX") 3 None true
        ≡ Get (codes "https://other.test/?a=1") }
    ensures fits_not { request_fit (with_forest [] causes.two_forms) 3 (Some 5) ≡ Some NotFoundError }
    ensures fits { request_fit (with_forest [] causes.two_forms) 6 (Some 5) ≡ None }
{}

/// The definitions compute: where a submission goes, by the page, the form and the submitter.
#[tactic(auto, unfolding(url::proofs::OnLiterals::url_on_literals))]
pub fn worked_actions()
    ensures own_by_get { plan (with_forest [] (causes.form_in_page [] [])) [] [] causes.full_page (codes "XX") 3 None true
        ≡ Get (codes "http://page.test/d/e?a=1#top") }
    ensures own_by_post { plan (with_forest [] (causes.form_in_page ((codes "method", codes "post") ∷ []) [])) [] [] causes.full_page (codes "XX") 3 None true
        ≡ Post causes.full_page (codes "application/x-www-form-urlencoded") (codes "a=1") }
    ensures space { plan (with_forest [] (causes.form_in_page ((codes "action", codes " ") ∷ []) [])) [] [] causes.full_page (codes "XX") 3 None true
        ≡ Get (codes "http://page.test/d/e?a=1") }
    ensures submitter { plan (with_forest [] (causes.form_in_page ((codes "action", codes "/f") ∷ (codes "method", codes "post") ∷ [])
        ((codes "formaction", codes "/b#c") ∷ (codes "formmethod", codes "GET") ∷ [])))
        [] [] causes.full_page (codes "XX") 3 (Some 5) false
        ≡ Get (codes "http://page.test/b?a=1#c") }
    ensures submitter_empty { plan (with_forest [] (causes.form_in_page ((codes "action", codes "/f") ∷ []) ((codes "formaction", []) ∷ [])))
        [] [] causes.full_page (codes "XX") 3 (Some 5) false
        ≡ Get (codes "http://page.test/d/e?a=1#top") }
{}
