//! The lines of a script, cut out of bytes that come in pieces.
#![tactic(auto)]

mod feed;

pub use feed::Feed;
