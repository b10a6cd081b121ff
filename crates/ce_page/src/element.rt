// What a node is as a custom element.
ghost use Rattle.std.specs.Prelude.{◌≡◌};
ghost use Rattle.ce_algorithms.specs.Page.{uncustomized, is_custom_state};

use ce_base::{CustomState, DefNo};
use std::marker::Model;

/// The custom element state and the custom element definition of a node (DOM Standard, section "Interface
/// Element").
#[derive(Drop)]
pub(crate) struct Element {
    pub(crate) state: CustomState,
    pub(crate) definition: Option<DefNo>,
}

impl Model for Element {
    ghost use Rattle.ce_algorithms.specs.Page.{Element as ElementState};

    ghost Value = { ElementState };

    ghost view = { λ e. record { state = e.state; definition = e.definition } };
}

impl Element {
    /// A node that is no custom element.
    pub(crate) fn uncustomized() -> Element
        ensures { result ≡ uncustomized }
    {
        Element {
            state: CustomState::Uncustomized,
            definition: None,
        }
    }

    pub(crate) fn state(&self) -> CustomState
        ensures { result ≡ self.now.state }
    {
        self.state
    }

    pub(crate) fn definition(&self) -> Option<DefNo>
        ensures { result ≡ self.now.definition }
    {
        self.definition
    }

    pub(crate) fn set_state(&mut self, state: CustomState)
        ensures { self.new ≡ record self.old { state = state } }
    {
        self.state = state;
    }

    pub(crate) fn set_definition(&mut self, d: Option<DefNo>)
        ensures { self.new ≡ record self.old { definition = d } }
    {
        self.definition = d;
    }
}

/// Whether the state is "custom".
pub(crate) fn is_custom_state(state: CustomState) -> bool
    ensures { result ≡ is_custom_state state }
{
    match state {
        CustomState::Undefined => false,
        CustomState::Failed => false,
        CustomState::Uncustomized => false,
        CustomState::Precustomized => false,
        CustomState::Custom => true,
    }
}
