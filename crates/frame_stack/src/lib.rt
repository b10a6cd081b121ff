//! The frames of the machine, on a stack, and the behaviours of classes, each in one place: at home, or in the
//! topmost frame of its class's bodies.
#![tactic(auto)]

mod bodies;
mod chain;
mod classes;
mod frame;
mod moves;
mod stack;
mod waiting;

pub use stack::Stack;
pub use waiting::Waiting;
