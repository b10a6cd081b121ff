// What holds of bodies: statements, each proved as the contract of a function that does nothing.
ghost use Rattle.std.specs.Prelude.{◌≡◌, ℕ, List, All, false, map};
ghost use Rattle.ce_base.specs.declared.entries.Entry.{Entry};
ghost use Rattle.ce_base.specs.Texts.{HasTexts};
ghost use Rattle.form_submission.specs.Encodings.{is_broken_by, multipart, plain, urlencoded};
ghost use Rattle.body_grammars.specs.Bodies.{IsBoundary, IsPlain, PartText, PlainText, UrlText};
ghost use Rattle.body_grammars.specs.Written.{as_part, as_sent};

/// Bytes are the body of one list at most, of each type.
pub fn one_list()
    ensures urlencoded { (bytes : List ℕ) (a b : List Entry) → UrlText a bytes → UrlText b bytes → a ≡ b }
    ensures plain { (bytes : List ℕ) (a b : List Entry) → PlainText a bytes → PlainText b bytes → a ≡ b }
    ensures multipart { (boundary bytes : List ℕ) (a b : List Entry) → IsBoundary boundary → PartText a boundary bytes → PartText b boundary bytes → a ≡ b }
{}

/// What is written urlencoded is the body of the list, with the line ends of its names and values as they are sent.
pub fn urlencoded_is_read_back()
    ensures { (entries : List Entry) → All HasTexts entries → UrlText (map as_sent entries) (urlencoded entries) }
{}

/// What is written as plain text is the body of the list, where no name has `=` and no name or value has a line end.
pub fn plain_is_read_back()
    ensures { (entries : List Entry) → All HasTexts entries → All IsPlain entries → PlainText entries (plain entries) }
{}

/// What is written multipart is the body of the list with its names escaped and the line ends of its values as they are
/// sent, where the boundary stands in no name and no value.
pub fn multipart_is_read_back()
    ensures { (entries : List Entry) (boundary : List ℕ) → IsBoundary boundary → All HasTexts entries → is_broken_by entries boundary ≡ false
        → PartText (map as_part entries) boundary (multipart entries boundary) }
{}
