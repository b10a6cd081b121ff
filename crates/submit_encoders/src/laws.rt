// What holds of the encodings: statements, each proved as the contract of a function that does nothing.
ghost use Rattle.std.specs.Prelude.{◌≡◌, ◌++◌, ◌∷◌, [], ℕ, List, codes, false, map};
ghost use Rattle.std.specs.List.{list_any};
ghost use Rattle.ce_base.specs.declared.entries.Entry.{Entry};
ghost use Rattle.form_submission.specs.Encodings.{is_broken_by, multipart, occurs};
ghost use Rattle.form_submission.specs.LineEnds.{with_full_newlines};
ghost use Rattle.submit_encoders.specs.Cuts.{has_line_end};
ghost use Rattle.submit_encoders.specs.Lines.{delimiter, delimiting_lines};

/// A boundary of one line that stands in no name and no value, as the list has them, stands in no value as it is sent.
#[tactic(auto, using(crate::proofs::Free::no_value_holds))]
pub fn no_value_holds_the_boundary()
    ensures { (entries : List Entry) (boundary : List ℕ) → has_line_end boundary ≡ false → is_broken_by entries boundary ≡ false
        → list_any (λ (e : Entry). occurs boundary (with_full_newlines e.value)) entries ≡ false }
{}

/// With such a boundary, the lines of a multipart body that begin with two hyphens and it are one for each entry, and the
/// one that closes.
#[tactic(auto, using(crate::proofs::Frame::frame_delimits))]
pub fn only_the_frame_begins_with_the_delimiter()
    ensures { (entries : List Entry) (boundary : List ℕ) → has_line_end boundary ≡ false → is_broken_by entries boundary ≡ false
        → delimiting_lines boundary (multipart entries boundary)
        ≡ map (λ (e : Entry). delimiter boundary) entries ++ (delimiter boundary ++ codes "--") ∷ [] }
{}
