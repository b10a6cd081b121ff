// What a line says, before its actions are put into one another.
use ce_base::{Text, Texts};
use rule_lines::{Op, Vals};
use rule_tokens::{CallName, Operand, Val};

/// A form up to the action after it.
#[derive(Drop)]
pub enum Wrap {
    /// `on class call : action`
    On { class: Text, call: CallName },
    /// `try action`
    Try,
    /// `if eq left right : action`, and with `ne`
    If { equal: bool, left: Val, right: Val },
}

/// A form without an action after it.
#[derive(Drop)]
pub enum Leaf {
    /// An operation.
    Both(Op),
    /// `log value ..`
    Log(Vals),
    /// `super`
    Super,
    /// `return [node]`
    Return(Option<Operand>),
    /// `throw value`
    Throw(Val),
    /// `bump`
    Bump,
    /// `keep value`
    Keep(Val),
    /// `class name`
    Class(Text),
    /// `has class call`
    Has { class: Text, call: CallName },
    /// `observe class name ..`
    Observe { class: Text, names: Texts },
    /// `associate class`
    Associate(Text),
    /// `disable class shadow`
    DisableShadow(Text),
    /// `disable class internals`
    DisableInternals(Text),
    /// `doc $var`
    Doc { var: Text },
    /// `user edit node value`
    UserEdit { node: Operand, value: Val },
    /// `user check node on`
    UserCheck { node: Operand, on: bool },
    /// `user choose node on`
    UserChoose { node: Operand, on: bool },
    /// `user reset form`
    UserReset { form: Operand },
    /// `user restore node value`
    UserRestore { node: Operand, value: Val },
    /// `user autofill node value`
    UserAutofill { node: Operand, value: Val },
    /// `user press node`
    UserPress { node: Operand },
}
