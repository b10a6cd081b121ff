// Worked scripts with their transcripts, by subject.
pub(crate) mod associated;
pub(crate) mod bodies;
mod callbacks;
pub(crate) mod controls;
pub(crate) mod forms;
mod reactions;
mod traces;
mod upgrades;
