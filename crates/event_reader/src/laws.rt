// What holds of the texts of events: statements, each the contract of a function that does nothing.
ghost use Rattle.event_reader.specs.Guessed.{TextsAreGuessed};
ghost use Rattle.event_reader.specs.Steps.{TextsTellSteps};

use rule_tokens::{flags_are_read, what_is_written_is_read, what_is_written_is_text};

// The text of an event is guessed as an event with this text, which is the same step to the law of order.
pub(crate) fn texts_are_guessed()
    ensures { TextsAreGuessed }
{
    what_is_written_is_read();
    what_is_written_is_text();
    flags_are_read();
}

/// Two events with one text are one step to the law of order: what the law reads of an event is in its text.
#[tactic(auto, using(crate::proofs::StepLaws::texts_tell))]
pub fn texts_tell_steps()
    ensures { TextsTellSteps }
{
    texts_are_guessed();
}
