// The words that a program is given.
use std::{env, io};

/// Why a program has no words.
#[derive(Clone, Copy, Debug, PartialEq, Eq)]
pub enum NoWords {
    /// Memory was refused.
    NoMemory,
    /// They cannot be read as texts.
    NoTexts,
}

/// The words behind the program's name.
pub fn words(rt: &HostRuntime) -> Result<Vec<String>, NoWords> {
    read(rt).map_err(|error| match error.kind() {
        io::ErrorKind::OutOfMemory => NoWords::NoMemory,
        _ => NoWords::NoTexts,
    })
}

fn read(rt: &HostRuntime) -> io::Result<Vec<String>> {
    let mut words = Vec::new(rt.alloc());
    for word in env::args(rt)?.skip(1) {
        words.push(word)?;
    }
    Ok(words)
}
