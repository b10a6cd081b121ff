// What an operation gives.
use ce_base::NodeNo;
use ce_events::Answer;

/// What an operation gives.
#[derive(Drop)]
pub enum Given {
    /// It gives nothing.
    Nothing,
    /// It gives this node.
    Node(NodeNo),
    /// It answers what was asked.
    Answers(Answer),
    /// It was ignored, as a user's command on a disabled control is.
    Ignored,
}
