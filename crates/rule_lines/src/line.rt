// Lines.
use crate::{Action, Op};
use ce_base::{Text, Texts};
use rule_tokens::{CallName, Operand};

/// A line of a script, as it was read.
#[derive(Drop)]
pub enum Line {
    /// Spaces alone, nothing, or a comment.
    Blank,
    /// A command, which runs at once.
    Command(Cmd),
    /// A part of a class, which adds to what the class does.
    Part(ClassPart),
}

/// A command: it stands at top level, and runs at once.
#[derive(Drop)]
pub enum Cmd {
    /// An operation.
    Both(Op),
    /// `doc $var`: makes a document without a browsing context.
    Doc { var: Text },
    /// `user edit node value`: the user edits a text control.
    UserEdit { node: Operand, value: Text },
    /// `user check node on`: the user sets a checkbox or radio button.
    UserCheck { node: Operand, on: bool },
    /// `user choose node on`: the user chooses an option, or not.
    UserChoose { node: Operand, on: bool },
    /// `user reset form`: the user resets a form.
    UserReset { form: Operand },
    /// `user restore node value`: the user agent restores a state.
    UserRestore { node: Operand, value: Text },
    /// `user autofill node value`: the user agent fills in a state.
    UserAutofill { node: Operand, value: Text },
    /// `user press node`: the user presses a button.
    UserPress { node: Operand },
}

/// A part of a class.
#[derive(Drop)]
pub enum ClassPart {
    /// `class name`: a class without callbacks.
    Class(Text),
    /// `on class call : action`: the class has the callback, and the action comes last in its body.
    On {
        class: Text,
        call: CallName,
        action: Action,
    },
    /// `has class call`: the class has the callback, with its body as it was or empty.
    Has {
        class: Text,
        call: CallName,
    },
    /// `observe class name ..`: adds observed attribute names.
    Observe {
        class: Text,
        names: Texts,
    },
    /// `associate class`: the class is form-associated.
    Associate(Text),
    /// `disable class shadow`: its elements may not get a shadow root (HTML Standard, section "Core concepts",
    /// disable shadow).
    DisableShadow(Text),
    /// `disable class internals`: its elements may not get internals (HTML Standard, section "Core concepts",
    /// disable internals).
    DisableInternals(Text),
}
