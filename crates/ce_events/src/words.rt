// The words of callbacks' arguments.
ghost use Rattle.std.specs.Prelude.{◌≡◌};
ghost use Rattle.ce_events.specs.Text.{mode, truth};

use reaction_queue::Mode;

/// The word for whether an element is disabled.
pub fn truth_word(disabled: bool) -> &'static str
    ensures { result.now ≡ truth disabled }
{
    if disabled { "true" } else { "false" }
}

/// The word for why a state comes back.
pub fn mode_word(why: Mode) -> &'static str
    ensures { result.now ≡ mode why }
{
    match why {
        Mode::Restore => "restore",
        Mode::Autocomplete => "autocomplete",
    }
}
