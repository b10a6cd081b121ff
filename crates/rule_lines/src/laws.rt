// What holds of reading a form, as the contract of a function that does nothing.
ghost use Rattle.rule_lines.specs.Laws.{CanonicalIsClean, CanonicalIsSpelled, FaultsAreApart, FormsAreRead, SpelledIsRead};
ghost use Rattle.rule_lines.specs.Worked.{ActionRows, CreateRows, OtherRows, UserRows};

use rule_tokens::flags_are_read;

/// What is read is a form. What is refused has a token that does not have the form that is wanted, or lacks
/// an operand, or has one over, as the refusal says.
pub fn forms_are_read()
    ensures { FormsAreRead }
{}

/// The definitions compute: these lines are read, or refused so.
pub fn worked_forms()
    ensures create { CreateRows }
    ensures actions { ActionRows }
    ensures others { OtherRows }
    ensures user { UserRows }
{}

/// What is read of tokens is what they spell by the table of forms, and what they spell is read.
pub fn what_is_spelled_is_read()
    ensures { SpelledIsRead }
{}

/// No tokens are a form and have a fault of words too, or have both faults of words.
pub fn faults_are_apart()
    ensures { FaultsAreApart }
{}

/// What tokens spell is spelled by its canonical tokens too.
pub fn canonical_tokens_are_spelled()
    ensures { CanonicalIsSpelled }
{
    flags_are_read();
}

/// The canonical tokens of what is spelled can be written as a line and read again, where the quoted ones say texts.
pub fn canonical_tokens_are_clean()
    ensures { CanonicalIsClean }
{
    flags_are_read();
}
