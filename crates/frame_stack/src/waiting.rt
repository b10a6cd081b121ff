// What waits while others run, but for bodies.

use ce_algorithms::Given;
use ce_base::{DefNo, Fault, NodeNo, QueueNo, ReactionNo, Text};
use reaction_queue::ElementQueue;

/// What waits for an outcome from above, and goes on with it: all frames but those of bodies.
#[derive(Drop)]
pub enum Waiting {
    /// A command whose operation runs, by its line.
    Replying(u64),
    /// A command whose backup element queue is drained, by its line, with what its operation gave or threw.
    Checking(u64, Result<Given, Fault>),
    /// The backup element queue is drained: an element that was taken from it.
    DrainingBackup(NodeNo),
    /// An operation that gives a node: the variable that is set to it.
    Naming(Text),
    /// The steps of a reacting operation that wait: the number of their queue.
    Stepping(QueueNo),
    /// A popped queue is drained: its number, the element at hand, those behind it, and what the steps gave or
    /// threw.
    Draining(QueueNo, NodeNo, ElementQueue, Result<Given, Fault>),
    /// A reaction that runs, by its number.
    InReaction(ReactionNo),
    /// A creation that waits for a construction: the local name, and the document.
    CreatingFit(Text, NodeNo),
    /// A creation by a definition that extends an element: the new element, whose upgrade runs.
    CreatingExtended(NodeNo),
    /// An upgrade that waits for the construction of its definition's class: the element, and the definition.
    Upgrading(NodeNo, DefNo),
    /// A construction whose constructor's body runs.
    Constructing,
}
