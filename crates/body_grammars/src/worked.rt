// Bodies that are read, and bytes that are none, computed.
ghost use Rattle.std.specs.Prelude.{◌≡◌, ◌++◌, ◌∷◌, [], Some, None, codes};
ghost use Rattle.ce_base.specs.Texts.{entry};
ghost use Rattle.form_submission.specs.LineEnds.{newline};
ghost use Rattle.body_grammars.specs.ReadParts.{multipart_entries};
ghost use Rattle.body_grammars.specs.ReadPlain.{plain_entries};
ghost use Rattle.body_grammars.specs.ReadUrl.{urlencoded_entries};

/// The definitions compute.
#[tactic(auto, unfolding(crate::specs::Escapes::unspell, crate::specs::Cuts::cut_at, crate::specs::ReadUrl::read_parts, crate::specs::ReadPlain::plain_entries))]
pub fn worked_bodies()
    ensures empty { urlencoded_entries [] ≡ Some [] }
    ensures spelled { urlencoded_entries (codes "full+name=%C3%81na+Lee&pw=a%2bb%3Dc&go=")
        ≡ Some (entry (codes "full name") (195 ∷ 129 ∷ codes "na Lee") ∷ entry (codes "pw") (codes "a+b=c") ∷ entry (codes "go") [] ∷ []) }
    ensures end { urlencoded_entries (codes "a=1&") ≡ None }
    ensures no_value { urlencoded_entries (codes "a") ≡ None }
    ensures two { urlencoded_entries (codes "a=b=c") ≡ None }
    ensures no_digit { urlencoded_entries (codes "a=%zz") ≡ None }
    ensures not_utf8 { urlencoded_entries (codes "a=%FF") ≡ None }
    ensures plain { plain_entries (codes "a=b=c" ++ 13 ∷ 10 ∷ []) ≡ Some (entry (codes "a") (codes "b=c") ∷ []) }
    ensures line_feed { plain_entries (codes "a=1" ++ 10 ∷ []) ≡ None }
    ensures multipart { multipart_entries (codes "XX")
        (codes "--XX" ++ newline ++ codes "Content-Disposition: form-data; name=\"a%22%0D%0A\"" ++ newline ++ newline
        ++ codes "p" ++ newline ++ codes "q" ++ newline
        ++ codes "--XX" ++ newline ++ codes "Content-Disposition: form-data; name=\"v\"" ++ newline ++ newline ++ newline
        ++ codes "--XX--" ++ newline)
        ≡ Some (entry (codes "a%22%0D%0A") (codes "p" ++ newline ++ codes "q") ∷ entry (codes "v") [] ∷ []) }
    ensures none_sent { multipart_entries (codes "XX") (codes "--XX--" ++ newline) ≡ Some [] }
    ensures unfinished { multipart_entries (codes "XX") (codes "--XX--") ≡ None }
{}
