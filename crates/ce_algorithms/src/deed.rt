// Deeds: operations whose operands were read and fit.
ghost use Rattle.std.specs.Prelude.{◌≡◌};
ghost use Rattle.ce_algorithms.specs.Deeds.{is_reacting, is_reacting_on_forms, is_reacting_on_page};

use ce_base::{ClassNo, Flags, NodeNo, Text};
use form_controls::Value;
use reaction_queue::Mode;
use rule_lines::AskWord;

/// What an operation comes to on the page alone: no body of a class runs before its steps have ended.
#[derive(Drop)]
pub enum PageDeed {
    /// Makes a text node (DOM Standard, section "Interface Document", `createTextNode`).
    MakeText {
        chars: Text,
        document: NodeNo,
    },
    /// Attaches a shadow root (section "Interface Element", "attach a shadow root").
    Shadow {
        host: NodeNo,
    },
    /// Inserts a node before a child, or at the end (section "Mutation algorithms", "pre-insert").
    Insert {
        parent: NodeNo,
        node: NodeNo,
        before: Option<NodeNo>,
    },
    /// Removes a child from its parent ("pre-remove").
    Remove {
        parent: NodeNo,
        node: NodeNo,
    },
    /// Removes a node from its parent, if it has one (section "Mixin ChildNode", `remove`).
    Detach {
        node: NodeNo,
    },
    /// Sets an attribute (section "Interface Element", `setAttribute`).
    SetAttr {
        node: NodeNo,
        name: Text,
        value: Text,
    },
    /// Removes an attribute (`removeAttribute`).
    DelAttr {
        node: NodeNo,
        name: Text,
    },
    /// Clones a node (section "Interface Node", "clone a node").
    Clone {
        node: NodeNo,
        deep: bool,
    },
    /// Adopts a node into a document (section "Interface Document", `adoptNode`).
    Adopt {
        document: NodeNo,
        node: NodeNo,
    },
    /// Tries to upgrade a node's shadow-including inclusive descendants (HTML Standard, section "The
    /// CustomElementRegistry interface", `upgrade`).
    Upgrade {
        node: NodeNo,
    },
}

impl PageDeed {
    /// Whether it pushes an element queue ([CEReactions]; HTML Standard, section "Custom element reactions").
    pub fn is_reacting(&self) -> bool
        ensures { result ≡ is_reacting_on_page self.now }
    {
        !matches!(self, PageDeed::MakeText { .. } | PageDeed::Shadow { .. })
    }
}

/// What is set on a control, by a script or by the user. It pushes no element queue.
#[derive(Drop)]
pub enum ControlDeed {
    /// Sets the raw value of a text control (HTML Standard, section "A form control's value").
    Edit {
        node: NodeNo,
        text: Text,
        by_user: bool,
    },
    /// Sets the checkedness of a checkbox or a radio button (section "The input element", `checked`).
    Tick {
        node: NodeNo,
        on: bool,
        by_user: bool,
    },
    /// Sets the selectedness of an option (section "The option element", `selected`).
    Choose {
        node: NodeNo,
        on: bool,
        by_user: bool,
    },
    /// Sets the custom validity error message (section "The constraint validation API", `setCustomValidity`).
    SetMessage {
        node: NodeNo,
        message: Text,
    },
}

/// What is written through ElementInternals. It pushes no element queue.
#[derive(Drop)]
pub enum InternalsDeed {
    /// Attaches internals to an element (HTML Standard, section "Element internals", `attachInternals`).
    Attach {
        node: NodeNo,
    },
    /// Sets a submission value and a state (section "Form-associated custom elements", `setFormValue`).
    SetValue {
        node: NodeNo,
        value: Value,
        saved: Value,
    },
    /// Sets all validity flags, and their message (section "Form-associated custom elements", `setValidity`).
    SetValidity {
        node: NodeNo,
        flags: Flags,
        message: Text,
    },
    /// Adds a custom state (section "Custom state pseudo-class").
    AddState {
        node: NodeNo,
        word: Text,
    },
    /// Deletes a custom state.
    DeleteState {
        node: NodeNo,
        word: Text,
    },
    /// Deletes all custom states.
    ClearStates {
        node: NodeNo,
    },
}

/// What is done to a whole form, or comes back to a form-associated custom element.
#[derive(Drop)]
pub enum FormDeed {
    /// Resets a form, by a script or by the user (HTML Standard, section "Resetting a form").
    Reset {
        form: NodeNo,
        by_user: bool,
    },
    /// Brings a state back to an element, or fills it in (section "Custom element reactions",
    /// formStateRestoreCallback).
    Restore {
        node: NodeNo,
        text: Text,
        mode: Mode,
    },
}

impl FormDeed {
    /// Whether it pushes an element queue ([CEReactions]; HTML Standard, section "Custom element reactions").
    pub fn is_reacting(&self) -> bool
        ensures { result ≡ is_reacting_on_forms self.now }
    {
        match self {
            FormDeed::Reset { by_user, .. } => !*by_user,
            FormDeed::Restore { .. } => false,
        }
    }
}

/// What submits a form, or may. It pushes no element queue.
#[derive(Drop)]
pub enum SubmitDeed {
    /// Submits a form (HTML Standard, section "The form element", `submit`).
    Submit {
        form: NodeNo,
    },
    /// Requests that a form be submitted, by a submitter or by none (`requestSubmit`).
    Request {
        form: NodeNo,
        submitter: Option<NodeNo>,
    },
    /// Presses a button (sections "The button element", "The input element", "activation behavior").
    Press {
        button: NodeNo,
    },
}

/// What an operation comes to: nodes by their numbers, classes by theirs, and texts.
#[derive(Drop)]
pub enum Deed {
    /// Creates an element (DOM Standard, section "Interface Document", `createElement`).
    Create {
        local: Text,
        is_value: Option<Text>,
        document: NodeNo,
    },
    /// Constructs a class (Web IDL, section "Invoking callback functions", "construct a callback function").
    New {
        class: ClassNo,
    },
    /// Defines a custom element (HTML Standard, section "The CustomElementRegistry interface", `define`).
    Define {
        name: Text,
        class: ClassNo,
        base: Option<Text>,
    },
    /// Does something on the page alone.
    OnPage(PageDeed),
    /// Sets something on a control.
    OnControls(ControlDeed),
    /// Writes something through ElementInternals.
    OnInternals(InternalsDeed),
    /// Does something to a form, or to a form-associated custom element.
    OnForms(FormDeed),
    /// Submits a form, or presses a button.
    Submits(SubmitDeed),
    /// Asks something of a node; of an attribute by its name.
    Ask {
        word: AskWord,
        node: NodeNo,
        name: Option<Text>,
    },
    /// Sets a variable.
    Let {
        var: Text,
        node: NodeNo,
    },
}

impl Deed {
    /// Whether it pushes an element queue ([CEReactions]; HTML Standard, section "Custom element reactions").
    pub fn is_reacting(&self) -> bool
        ensures { result ≡ is_reacting self.now }
    {
        match self {
            Deed::Create { .. } | Deed::Define { .. } => true,
            Deed::OnPage(what) => what.is_reacting(),
            Deed::OnForms(what) => what.is_reacting(),
            Deed::New { .. } | Deed::Ask { .. } | Deed::Let { .. } => false,
            Deed::OnControls(_) | Deed::OnInternals(_) | Deed::Submits(_) => false,
        }
    }
}
