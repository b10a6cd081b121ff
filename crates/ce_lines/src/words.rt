// The words of a line.
ghost use Rattle.std.specs.Prelude.{◌≡◌};
ghost use Rattle.ce_events.specs.Text.{bad_word, custom_state, what, yes_or_no};

use ce_base::CustomState;
use rule_tokens::{Bad, CallOrUpgrade};

/// The word for what a reaction is for.
pub(crate) fn what_word(reaction: CallOrUpgrade) -> &'static str
    ensures { result.now ≡ what reaction }
{
    match reaction {
        CallOrUpgrade::Call(name) => name.word(),
        CallOrUpgrade::Upgrade => "upgrade",
    }
}

/// The word for what is wrong with a line.
pub(crate) fn bad_word(bad: Bad) -> &'static str
    ensures { result.now ≡ bad_word bad }
{
    match bad {
        Bad::Long => "long",
        Bad::Utf8 => "utf8",
        Bad::Quote => "quote",
        Bad::Escape => "escape",
        Bad::Word => "word",
        Bad::Arity => "arity",
        Bad::Place => "place",
    }
}

/// The word for the answer yes or no.
pub(crate) fn yes_or_no(yes: bool) -> &'static str
    ensures { result.now ≡ yes_or_no yes }
{
    if yes { "yes" } else { "no" }
}

/// The word for a custom element state.
pub(crate) fn state_word(state: CustomState) -> &'static str
    ensures { result.now ≡ custom_state state }
{
    match state {
        CustomState::Undefined => "undefined",
        CustomState::Failed => "failed",
        CustomState::Uncustomized => "uncustomized",
        CustomState::Precustomized => "precustomized",
        CustomState::Custom => "custom",
    }
}
