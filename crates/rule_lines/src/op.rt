// Operations on the page.
use crate::AskWord;
use ce_base::{Entries, Flags, Text};
use rule_tokens::{Operand, Val};

/// An operation on the page: what may stand both at top level and in a body. A variable's text is kept
/// without its `$`.
#[derive(Drop)]
pub enum Op {
    /// `create $var local [is is_value] [in document]`: creates an element (DOM Standard, section
    /// "Interface Document", `createElement`).
    Create {
        var: Text,
        local: Text,
        is_value: Option<Text>,
        document: Option<Operand>,
    },
    /// `new $var class`: constructs a class.
    New {
        var: Text,
        class: Text,
    },
    /// `text $var chars [in document]`: makes a text node (DOM Standard, section "Interface Document",
    /// `createTextNode`).
    MakeText {
        var: Text,
        chars: Text,
        document: Option<Operand>,
    },
    /// `shadow $var host`: attaches a shadow root (DOM Standard, section "Interface Element",
    /// `attachShadow`).
    Shadow {
        var: Text,
        host: Operand,
    },
    /// `append parent node`: inserts a node as the last child (DOM Standard, section "Interface Node",
    /// `appendChild`).
    Append {
        parent: Operand,
        node: Operand,
    },
    /// `before parent node child`: inserts a node before a child (DOM Standard, section "Interface Node",
    /// `insertBefore`).
    Before {
        parent: Operand,
        node: Operand,
        before: Operand,
    },
    /// `remove parent node`: removes a child (DOM Standard, section "Interface Node", `removeChild`).
    Remove {
        parent: Operand,
        node: Operand,
    },
    /// `detach node`: removes a node from its parent, if it has one (DOM Standard, section "Mixin
    /// ChildNode", `remove`).
    Detach {
        node: Operand,
    },
    /// `setattr node name value`: sets an attribute (DOM Standard, section "Interface Element",
    /// `setAttribute`).
    SetAttr {
        node: Operand,
        name: Text,
        value: Val,
    },
    /// `delattr node name`: removes an attribute (DOM Standard, section "Interface Element",
    /// `removeAttribute`).
    DelAttr {
        node: Operand,
        name: Text,
    },
    /// `clone $var node [deep]`: clones a node (DOM Standard, section "Interface Node", `cloneNode`).
    Clone {
        var: Text,
        node: Operand,
        deep: bool,
    },
    /// `adopt document node`: adopts a node (DOM Standard, section "Interface Document", `adoptNode`).
    Adopt {
        document: Operand,
        node: Operand,
    },
    /// `define name class [extends base]`: defines a custom element (HTML Standard, section "The
    /// CustomElementRegistry interface", `define`).
    Define {
        name: Text,
        class: Text,
        base: Option<Text>,
    },
    /// `upgrade node`: tries to upgrade each element among a node's shadow-including inclusive descendants (HTML
    /// Standard, section "The CustomElementRegistry interface", `upgrade`).
    Upgrade {
        node: Operand,
    },
    /// `reset form`: resets a form (HTML Standard, section "Resetting a form").
    Reset {
        form: Operand,
    },
    /// `internals node`: attaches internals (HTML Standard, section "Element internals",
    /// `attachInternals`).
    Internals {
        node: Operand,
    },
    /// `formvalue node value [state saved]`: sets the submission value to one text, and the state to it or
    /// to another one (HTML Standard, section "Form-associated custom elements", `setFormValue`).
    FormValue {
        node: Operand,
        value: Val,
        saved: Option<Val>,
    },
    /// `formlist node name value ..`: sets the submission value and the state to a list of entries.
    FormList {
        node: Operand,
        entries: Entries,
    },
    /// `formnull node`: sets the submission value and the state to null.
    FormNull {
        node: Operand,
    },
    /// `validity node flags message`: sets the validity flags and message (HTML Standard, section
    /// "Form-associated custom elements", `setValidity`).
    Validity {
        node: Operand,
        flags: Flags,
        message: Val,
    },
    /// `state node add word`: adds a custom state (HTML Standard, section "Custom state pseudo-class").
    StateAdd {
        node: Operand,
        word: Text,
    },
    /// `state node delete word`: deletes a custom state.
    StateDelete {
        node: Operand,
        word: Text,
    },
    /// `state node clear`: deletes all custom states.
    StateClear {
        node: Operand,
    },
    /// `custom node message`: sets the custom validity message (HTML Standard, section "The constraint
    /// validation API", `setCustomValidity`).
    Custom {
        node: Operand,
        message: Val,
    },
    /// `value node value`: sets the value of a text control.
    Value {
        node: Operand,
        value: Val,
    },
    /// `check node on`: sets the checkedness of a checkbox or radio button.
    Check {
        node: Operand,
        on: bool,
    },
    /// `choose node on`: sets the selectedness of an option.
    Choose {
        node: Operand,
        on: bool,
    },
    /// `submit form`: submits a form by a call (HTML Standard, section "The form element", `submit`).
    Submit {
        form: Operand,
    },
    /// `request form [submitter]`: requests a submission (HTML Standard, section "The form element",
    /// `requestSubmit`).
    Request {
        form: Operand,
        submitter: Option<Operand>,
    },
    /// `ask word node`, and `ask attr node name`: asks something of a node. The name is given exactly for
    /// `attr`.
    Ask {
        word: AskWord,
        node: Operand,
        name: Option<Text>,
    },
    /// `let $var node`: sets a variable.
    Let {
        var: Text,
        node: Operand,
    },
}
