// What a token is read as where something is wanted of it.
use crate::Word;
use ce_base::{Flags, Text};
use rule_tokens::{CallName, Operand, Val};

/// The form of an operand.
#[derive(Clone, Copy)]
pub enum Kind {
    /// `$v`: a variable.
    Variable,
    /// `P`: a node.
    Node,
    /// `C`: the name of a class.
    Class,
    /// `T`: a text.
    Chars,
    /// `V`: a value.
    Value,
    /// `F`: validity flags.
    Flags,
    /// `CB`: a callback.
    Callback,
}

/// What a token is read as: an operand; or a fixed word; or that an optional part is not there.
#[derive(Drop)]
pub enum ReadAs {
    /// A variable, without its `$`.
    Variable(Text),
    /// A node.
    Node(Operand),
    /// The name of a class.
    Class(Text),
    /// A text.
    Chars(Text),
    /// A value.
    Value(Val),
    /// Validity flags.
    Flags(Flags),
    /// A callback.
    Callback(CallName),
    /// A fixed word.
    Word(Word),
    /// The keyword of an optional part without an operand.
    There,
    /// An optional part is not there.
    NotThere,
}
