// What can be asked.
ghost use Rattle.std.specs.Prelude.{◌≡◌};
ghost use Rattle.rule_lines.specs.AskWords.{ask_named, ask_word};

/// What `ask` asks of a node.
#[derive(Clone, Copy, Debug, PartialEq, Eq)]
pub enum AskWord {
    /// `attr`: an attribute's value.
    Attr,
    /// `parent`: the parent.
    Parent,
    /// `kids`: the children.
    Kids,
    /// `state`: the custom element state.
    State,
    /// `owner`: the form owner.
    Owner,
    /// `controls`: a form's listed elements.
    Controls,
    /// `disabled`: whether it is disabled.
    Disabled,
    /// `candidate`: whether it is a candidate for constraint validation.
    Candidate,
    /// `valid`: its validity flags.
    Valid,
    /// `message`: the message that `custom` or `validity` has set for it.
    Message,
    /// `value`: its value.
    Value,
    /// `saved`: the state that is kept for restoring.
    Saved,
    /// `checked`: its checkedness.
    Checked,
    /// `states`: its custom states.
    States,
}

impl AskWord {
    /// Its word in a script.
    pub fn word(self) -> &'static str
        ensures { result.now ≡ ask_word self }
    {
        match self {
            AskWord::Attr => "attr",
            AskWord::Parent => "parent",
            AskWord::Kids => "kids",
            AskWord::State => "state",
            AskWord::Owner => "owner",
            AskWord::Controls => "controls",
            AskWord::Disabled => "disabled",
            AskWord::Candidate => "candidate",
            AskWord::Valid => "valid",
            AskWord::Message => "message",
            AskWord::Value => "value",
            AskWord::Saved => "saved",
            AskWord::Checked => "checked",
            AskWord::States => "states",
        }
    }

    /// What is asked by this word.
    pub fn named(word: &str) -> Option<AskWord>
        ensures { result ≡ ask_named word.now }
    {
        match word {
            "attr" => Some(AskWord::Attr),
            "parent" => Some(AskWord::Parent),
            "kids" => Some(AskWord::Kids),
            "state" => Some(AskWord::State),
            "owner" => Some(AskWord::Owner),
            "controls" => Some(AskWord::Controls),
            "disabled" => Some(AskWord::Disabled),
            "candidate" => Some(AskWord::Candidate),
            "valid" => Some(AskWord::Valid),
            "message" => Some(AskWord::Message),
            "value" => Some(AskWord::Value),
            "saved" => Some(AskWord::Saved),
            "checked" => Some(AskWord::Checked),
            "states" => Some(AskWord::States),
            _ => None,
        }
    }
}
