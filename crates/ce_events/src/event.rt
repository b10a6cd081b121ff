// What a session writes down.
use ce_base::{CustomState, Fault, Flags, NodeNo, Nodes, QueueNo, ReactionNo, Text, Texts};
use reaction_queue::Mode;
use rule_tokens::{Bad, CallOrUpgrade};

/// What a question about a node found.
#[derive(Drop)]
pub enum Answer {
    /// There is none.
    Null,
    /// A text.
    One(Text),
    /// A list of entries.
    Many,
    /// A node.
    Node(NodeNo),
    /// Nodes.
    Nodes(Nodes),
    /// Texts.
    Texts(Texts),
    /// A custom element state.
    State(CustomState),
    /// Yes or no.
    Truth(bool),
    /// The validity flags that are raised.
    Raised(Flags),
}

/// What blocks a submission (HTML Standard, section "Form submission").
#[derive(Drop)]
pub enum Cause {
    /// The form is not in the page's document, nor in a shadow tree of it.
    Disconnected,
    /// Controls of the form are invalid.
    Invalid(Nodes),
    /// The method is `dialog`.
    Dialog,
    /// The action does not parse.
    Url,
    /// The action's scheme is neither http nor https.
    Scheme,
    /// The entries are too large.
    Size,
    /// The boundary occurs in an entry.
    Boundary,
}

/// One line of a session's log.
#[derive(Drop)]
pub enum Event {
    /// A class's constructor starts: the class's name.
    Construct(Text),
    /// connectedCallback starts.
    Connected(NodeNo),
    /// disconnectedCallback starts.
    Disconnected(NodeNo),
    /// adoptedCallback starts: the element, its old document and its new one.
    Adopted(NodeNo, NodeNo, NodeNo),
    /// attributeChangedCallback starts: the element, the attribute's name, its old value and its new one.
    Attribute(NodeNo, Text, Option<Text>, Option<Text>),
    /// formAssociatedCallback starts: the element and its form owner.
    FormAssociated(NodeNo, Option<NodeNo>),
    /// formDisabledCallback starts: the element, and whether it is disabled.
    FormDisabled(NodeNo, bool),
    /// formResetCallback starts.
    FormReset(NodeNo),
    /// formStateRestoreCallback starts: the element, the state that comes back, and why.
    FormStateRestore(NodeNo, Text, Mode),
    /// A body wrote these values.
    Logged(Texts),
    /// A body caught a fault.
    Caught(Fault),
    /// A fault was reported (HTML Standard, section "Runtime script errors", "report an exception").
    Reported(Fault),
    /// A body asked something.
    Asked(Answer),
    /// A form was submitted by GET: the form and the URL.
    SubmitGet(NodeNo, Text),
    /// A form was submitted by POST: the form, the URL, the body's type, the body.
    SubmitPost(NodeNo, Text, Text, Text),
    /// A form's submission was blocked.
    SubmitBlocked(NodeNo, Cause),
    /// The reply of a line: it gives nothing.
    Fine(u64),
    /// The reply of a line: it gives a node.
    Gave(u64, NodeNo),
    /// The reply of a line: it answers what was asked.
    Answered(u64, Answer),
    /// The reply of a line: the user could not do it.
    Ignored(u64),
    /// The reply of a line: it threw a fault.
    Threw(u64, Fault),
    /// The reply of a line: it was refused.
    WasBad(u64, Bad),
    /// The fuel is spent.
    FuelLine,
    /// A reacting operation pushed an element queue.
    QueueOpened(QueueNo),
    /// A reaction was enqueued: its number, its element, what it is for, and the element queue that the element came into.
    Enqueued(ReactionNo, NodeNo, CallOrUpgrade, QueueNo),
    /// The draining of a queue starts: of one that was popped, or of the backup element queue.
    DrainBegun(QueueNo),
    /// A reaction was taken, and runs.
    Started(ReactionNo),
    /// The reaction has ended.
    Finished(ReactionNo),
    /// A reaction was taken away, and does not run.
    Dropped(ReactionNo),
    /// The draining of a queue has ended.
    QueueClosed(QueueNo),
    /// An element's upgrade starts.
    UpgradeBegun(NodeNo),
    /// The upgrade has ended, and the element is custom.
    UpgradeDone(NodeNo),
    /// The upgrade threw.
    UpgradeThrew(NodeNo),
}
