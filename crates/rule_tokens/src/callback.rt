// The names of callbacks.
ghost use Rattle.std.specs.Prelude.{◌≡◌};
ghost use Rattle.rule_tokens.specs.Callbacks.{call_named, call_word};

/// The name of a callback (HTML Standard, section "Custom element reactions"), or of the constructor.
#[derive(Clone, Copy, Debug, PartialEq, Eq)]
pub enum CallName {
    /// `constructor`: the class's constructor.
    Constructor,
    /// `connected`: connectedCallback.
    Connected,
    /// `disconnected`: disconnectedCallback.
    Disconnected,
    /// `adopted`: adoptedCallback.
    Adopted,
    /// `attribute`: attributeChangedCallback.
    Attribute,
    /// `formAssociated`: formAssociatedCallback.
    FormAssociated,
    /// `formDisabled`: formDisabledCallback.
    FormDisabled,
    /// `formReset`: formResetCallback.
    FormReset,
    /// `formStateRestore`: formStateRestoreCallback.
    FormStateRestore,
}

/// What a reaction is for.
#[derive(Clone, Copy, Debug, PartialEq, Eq)]
pub enum CallOrUpgrade {
    /// A callback.
    Call(CallName),
    /// An upgrade.
    Upgrade,
}

impl CallName {
    /// Its word in a script and in a transcript.
    pub fn word(self) -> &'static str
        ensures { result.now ≡ call_word self }
    {
        match self {
            CallName::Constructor => "constructor",
            CallName::Connected => "connected",
            CallName::Disconnected => "disconnected",
            CallName::Adopted => "adopted",
            CallName::Attribute => "attribute",
            CallName::FormAssociated => "formAssociated",
            CallName::FormDisabled => "formDisabled",
            CallName::FormReset => "formReset",
            CallName::FormStateRestore => "formStateRestore",
        }
    }

    /// The callback with this word.
    pub fn named(word: &str) -> Option<CallName>
        ensures { result ≡ call_named word.now }
    {
        match word {
            "constructor" => Some(CallName::Constructor),
            "connected" => Some(CallName::Connected),
            "disconnected" => Some(CallName::Disconnected),
            "adopted" => Some(CallName::Adopted),
            "attribute" => Some(CallName::Attribute),
            "formAssociated" => Some(CallName::FormAssociated),
            "formDisabled" => Some(CallName::FormDisabled),
            "formReset" => Some(CallName::FormReset),
            "formStateRestore" => Some(CallName::FormStateRestore),
            _ => None,
        }
    }
}
