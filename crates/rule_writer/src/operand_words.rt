// The words that operands are written as.
ghost use Rattle.std.specs.Prelude.{◌≡◌};
ghost use Rattle.rule_reader.specs.AsRead.{ask_as, switch, test};

use rule_lines::{AskWord, Word};

pub(crate) fn switch(on: bool) -> Word
    ensures { result ≡ switch on }
{
    if on {
        return Word::On;
    }
    Word::Off
}

pub(crate) fn test(equal: bool) -> Word
    ensures { result ≡ test equal }
{
    if equal {
        return Word::Eq;
    }
    Word::Ne
}

pub(crate) fn ask_as(what: AskWord) -> Word
    ensures { result ≡ ask_as what }
{
    match what {
        AskWord::Attr => Word::Attr,
        AskWord::Parent => Word::Parent,
        AskWord::Kids => Word::Kids,
        AskWord::State => Word::State,
        AskWord::Owner => Word::Owner,
        AskWord::Controls => Word::Controls,
        AskWord::Disabled => Word::Disabled,
        AskWord::Candidate => Word::Candidate,
        AskWord::Valid => Word::Valid,
        AskWord::Message => Word::Message,
        AskWord::Value => Word::Value,
        AskWord::Saved => Word::Saved,
        AskWord::Checked => Word::Checked,
        AskWord::States => Word::States,
    }
}
