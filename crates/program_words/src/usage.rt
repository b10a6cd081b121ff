// The text that says which words there are.
use clap::{Arg, ArgAction, Command};
use std::alloc::{AllocError, Global};
use std::io::Write;

/// A word that a program takes, and what the usage text says of it.
#[derive(Clone, Copy)]
pub enum Word {
    /// An option with a value: its name, what the value stands for, and what it says.
    Valued(&'static str, &'static str, &'static str),
    /// An option without a value: its name, and what it says.
    Flag(&'static str, &'static str),
    /// A word that stands by itself: what it stands for, and what it says.
    Plain(&'static str, &'static str),
}

/// What a program's usage text says.
pub struct Usage {
    /// The program's name.
    pub program: &'static str,
    /// What the program does.
    pub about: &'static str,
    /// The words that it takes, in the order of the text.
    pub words: &'static [Word],
}

impl Word {
    fn arg(self, alloc: Global) -> Arg<'static> {
        match self {
            Word::Valued(name, value, help) => Arg::new(alloc, name)
                .long(name)
                .help(help)
                .value_name(value)
                .action(ArgAction::Set),
            Word::Flag(name, help) => Arg::new(alloc, name)
                .long(name)
                .help(help)
                .action(ArgAction::SetTrue),
            Word::Plain(name, help) => Arg::new(alloc, name).action(ArgAction::Set).help(help),
        }
    }
}

impl Usage {
    /// Writes the usage text to standard error. It is left out where memory is refused or standard error fails.
    pub fn tell(&self, rt: &HostRuntime) {
        if let Ok(text) = self.text(rt.alloc()) {
            let _told = rt.stderr().write_all(text.as_bytes());
        }
    }

    // The text, rendered from a command that parses nothing.
    fn text(&self, alloc: Global) -> Result<String, AllocError> {
        let mut command = Command::new(alloc, self.program)
            .about(self.about)
            .disable_help_flag(true)
            .disable_version_flag(true);
        for word in self.words {
            command = command.arg(word.arg(alloc))?;
        }
        command.render_help()
    }
}
