// What an element is at first.
ghost use Rattle.std.specs.Prelude.{◌≡◌};
ghost use Rattle.ce_algorithms.specs.CreateLater.{first_state};

use ce_base::{CustomState, Text};
use element_names::is_custom_name;

/// The state of an element that is made without a definition (DOM Standard, section "Interface Element", "create an
/// element").
pub fn first_state(local: &str, is: &Option<Text>) -> CustomState
    ensures { result ≡ first_state local.now is.now }
{
    if is_custom_name(local) || is.is_some() {
        return CustomState::Undefined;
    }
    CustomState::Uncustomized
}
