// The first words of forms.
ghost use Rattle.std.specs.Prelude.{◌≡◌};
ghost use Rattle.rule_reader.specs.First.{first_named, word_in};

use rule_lines::Word;

/// The words that forms begin with.
const FIRST_WORDS: [Word; 45] = [
    Word::Create,
    Word::New,
    Word::Text,
    Word::Shadow,
    Word::Append,
    Word::Before,
    Word::Remove,
    Word::Detach,
    Word::SetAttr,
    Word::DelAttr,
    Word::Clone,
    Word::Adopt,
    Word::Define,
    Word::Upgrade,
    Word::Reset,
    Word::Internals,
    Word::FormValue,
    Word::FormList,
    Word::FormNull,
    Word::Validity,
    Word::State,
    Word::Custom,
    Word::Value,
    Word::Check,
    Word::Choose,
    Word::Submit,
    Word::Request,
    Word::Ask,
    Word::Let,
    Word::Log,
    Word::Super,
    Word::Return,
    Word::Throw,
    Word::Bump,
    Word::Keep,
    Word::Try,
    Word::If,
    Word::Class,
    Word::On,
    Word::Has,
    Word::Observe,
    Word::Associate,
    Word::Disable,
    Word::Doc,
    Word::User,
];

fn word_in(words: &[Word], text: &str) -> Option<Word>
    ensures { result ≡ word_in words.now text.now }
{
    for word in words {
        if text == word.text() {
            return Some(*word);
        }
    }
    None
}

/// The form's first word with this text.
pub(crate) fn first_named(text: &str) -> Option<Word>
    ensures { result ≡ first_named text.now }
{
    word_in(&FIRST_WORDS, text)
}
