//! What the crates of cepage stand on: numbers, texts, lists, faults, fuel, and the outside.
#![tactic(auto)]

mod bytes;
mod calls;
mod custom_state;
mod digits;
mod endless;
mod entries;
mod failing;
mod fault;
mod flags;
mod fuel;
mod gathering;
mod memory;
mod nodes;
mod numbers;
mod outside;
mod pending;
mod short;
mod standard;
mod stop;
mod sure;
mod text;
mod texts;
mod whole;

pub use bytes::Bytes;
pub use custom_state::CustomState;
pub use digits::number_in;
pub use endless::EndlessSource;
pub use entries::{Entries, Entry};
pub use failing::{MemSink, MemSource};
pub use fault::{Fault, Refused};
pub use flags::Flags;
pub use fuel::Fuel;
pub use gathering::Gathering;
pub use memory::NoMemory;
pub use nodes::Nodes;
pub use numbers::{ClassNo, DefNo, NodeNo, QueueNo, ReactionNo};
pub use outside::{Got, Put, Sink, Source, write_all};
pub use pending::Pending;
pub use short::ShortSink;
pub use standard::{StdSink, StdSource};
pub use stop::Stop;
pub use sure::{SureSink, SureSource};
pub use text::{Text, copy_of, owned};
pub use texts::Texts;
pub use whole::{Read, ask, make_buffer, read_all};
