// Whether a trace keeps the law.

/// Whether the lines of a trace are those of a lawful log.
#[derive(Clone, Copy)]
pub enum Verdict {
    /// They are: how many lines there are.
    Yes(u64),
    /// They are not: the number of the first line, from 1, with which the lines up to it are those of no lawful log.
    No(u64),
}
