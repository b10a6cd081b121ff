// What an operand may name.

/// What a node has to be where an operand names it. Another node throws TypeError.
#[derive(Clone, Copy, Debug)]
pub enum Fit {
    /// Any node.
    Any,
    /// An element.
    Element,
    /// A document.
    Document,
    /// An element or a text node.
    ElementOrText,
    /// A `form` element.
    Form,
    /// A listed element (HTML Standard, section "Categories").
    Listed,
    /// An element that its local name makes a listed one: `button`, `fieldset`, `input`, `select` or `textarea`.
    ListedNative,
    /// A submittable element (section "Categories").
    Submittable,
    /// A submittable element, or an `option` element: what can be disabled.
    SubmittableOrOption,
    /// A text input or a `textarea` element: what has a text that is edited.
    TextControl,
    /// A checkbox or a radio button: what has a checkedness.
    Tickable,
    /// An `option` element.
    AnOption,
    /// A button (section "Categories"): one that submits, one that resets, or one that does nothing by itself.
    Button,
    /// A form-associated custom element (HTML Standard, section "Core concepts").
    FormAssociated,
    /// A form-associated custom element whose state is "custom".
    CustomFormAssociated,
    /// An element with internals (section "Element internals", "attached internals").
    WithInternals,
}
