//! The law of construction stacks: each construction, upgrade, operation, command and line leaves the construction stack of
//! each custom element definition as deep as it was, unless the fuel is spent. The definitions stand in `specs/`.
#![tactic(auto)]

mod laws;

pub use laws::{
    each_construction_leaves_the_stacks, each_line_leaves_the_stacks,
    each_operation_leaves_the_stacks, each_upgrade_leaves_the_stacks,
    stacks_are_empty_between_lines,
};
