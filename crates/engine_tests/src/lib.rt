//! Tests of what no script shows: of whole runs, and of the crates below.
//!
//! Of whole runs: `worked` has scripts with their transcripts (`script` reads them), `pieces` scripts in pieces, `devices` and
//! `faults` sources and sinks that fail, `limits` the greatest scripts and lines, `made` scripts that are made, `memory` a run
//! without a device, `submissions` bodies that are sent, and `tables` form owners beside the tree. `checks` are traces that are
//! checked by whole runs, and `readings` bodies that are read so.
//!
//! Of the crates below: `base` has devices at the edge and lists, `kinds` what elements are for forms, `lengths` how long texts
//! are as controls read them, `controls` what no line of a script asks of controls, `calls` single calls, `made_texts` scripts
//! that are made as texts, `writing` lines of scripts that are read, written and copied, and `lines` lines of transcripts that
//! are read and written again. `rows` has what they share.
#![tactic(auto)]

#[cfg(test)]
mod base;
#[cfg(test)]
mod calls;
#[cfg(test)]
mod checks;
#[cfg(test)]
mod controls;
#[cfg(test)]
mod devices;
#[cfg(test)]
mod faults;
#[cfg(test)]
mod kinds;
#[cfg(test)]
mod lengths;
#[cfg(test)]
mod limits;
#[cfg(test)]
mod lines;
#[cfg(test)]
mod made;
#[cfg(test)]
mod made_texts;
#[cfg(test)]
mod memory;
#[cfg(test)]
mod pieces;
#[cfg(test)]
mod readings;
#[cfg(test)]
mod rows;
#[cfg(test)]
mod script;
#[cfg(test)]
mod submissions;
#[cfg(test)]
mod tables;
#[cfg(test)]
mod worked;
#[cfg(test)]
mod writing;
