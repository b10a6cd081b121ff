// The fixed words of the language.
ghost use Rattle.std.specs.Prelude.{◌≡◌};
ghost use Rattle.rule_lines.specs.FixedWords.{spelling};

/// A fixed word: the first word of a form, or one that is wanted behind it.
#[derive(Clone, Copy)]
pub enum Word {
    /// `on`
    On,
    /// `off`
    Off,
    /// `attr`
    Attr,
    /// `parent`
    Parent,
    /// `kids`
    Kids,
    /// `state`
    State,
    /// `owner`
    Owner,
    /// `controls`
    Controls,
    /// `disabled`
    Disabled,
    /// `candidate`
    Candidate,
    /// `valid`
    Valid,
    /// `message`
    Message,
    /// `value`
    Value,
    /// `saved`
    Saved,
    /// `checked`
    Checked,
    /// `states`
    States,
    /// `edit`
    Edit,
    /// `check`
    Check,
    /// `choose`
    Choose,
    /// `reset`
    Reset,
    /// `restore`
    Restore,
    /// `autofill`
    Autofill,
    /// `press`
    Press,
    /// `add`
    Add,
    /// `delete`
    Delete,
    /// `clear`
    Clear,
    /// `:`
    Colon,
    /// `create`
    Create,
    /// `new`
    New,
    /// `text`
    Text,
    /// `shadow`
    Shadow,
    /// `append`
    Append,
    /// `before`
    Before,
    /// `remove`
    Remove,
    /// `detach`
    Detach,
    /// `setattr`
    SetAttr,
    /// `delattr`
    DelAttr,
    /// `clone`
    Clone,
    /// `adopt`
    Adopt,
    /// `define`
    Define,
    /// `upgrade`
    Upgrade,
    /// `internals`
    Internals,
    /// `formvalue`
    FormValue,
    /// `formlist`
    FormList,
    /// `formnull`
    FormNull,
    /// `validity`
    Validity,
    /// `custom`
    Custom,
    /// `submit`
    Submit,
    /// `request`
    Request,
    /// `ask`
    Ask,
    /// `let`
    Let,
    /// `log`
    Log,
    /// `super`
    Super,
    /// `return`
    Return,
    /// `throw`
    Throw,
    /// `bump`
    Bump,
    /// `keep`
    Keep,
    /// `try`
    Try,
    /// `if`
    If,
    /// `eq`
    Eq,
    /// `ne`
    Ne,
    /// `class`
    Class,
    /// `has`
    Has,
    /// `observe`
    Observe,
    /// `associate`
    Associate,
    /// `disable`
    Disable,
    /// `doc`
    Doc,
    /// `user`
    User,
}

impl Word {
    /// Its text.
    pub fn text(self) -> &'static str
        ensures { result.now ≡ spelling self }
    {
        match self {
            Word::On => "on",
            Word::Off => "off",
            Word::Attr => "attr",
            Word::Parent => "parent",
            Word::Kids => "kids",
            Word::State => "state",
            Word::Owner => "owner",
            Word::Controls => "controls",
            Word::Disabled => "disabled",
            Word::Candidate => "candidate",
            Word::Valid => "valid",
            Word::Message => "message",
            Word::Value => "value",
            Word::Saved => "saved",
            Word::Checked => "checked",
            Word::States => "states",
            Word::Edit => "edit",
            Word::Check => "check",
            Word::Choose => "choose",
            Word::Reset => "reset",
            Word::Restore => "restore",
            Word::Autofill => "autofill",
            Word::Press => "press",
            Word::Add => "add",
            Word::Delete => "delete",
            Word::Clear => "clear",
            Word::Colon => ":",
            Word::Create => "create",
            Word::New => "new",
            Word::Text => "text",
            Word::Shadow => "shadow",
            Word::Append => "append",
            Word::Before => "before",
            Word::Remove => "remove",
            Word::Detach => "detach",
            Word::SetAttr => "setattr",
            Word::DelAttr => "delattr",
            Word::Clone => "clone",
            Word::Adopt => "adopt",
            Word::Define => "define",
            Word::Upgrade => "upgrade",
            Word::Internals => "internals",
            Word::FormValue => "formvalue",
            Word::FormList => "formlist",
            Word::FormNull => "formnull",
            Word::Validity => "validity",
            Word::Custom => "custom",
            Word::Submit => "submit",
            Word::Request => "request",
            Word::Ask => "ask",
            Word::Let => "let",
            Word::Log => "log",
            Word::Super => "super",
            Word::Return => "return",
            Word::Throw => "throw",
            Word::Bump => "bump",
            Word::Keep => "keep",
            Word::Try => "try",
            Word::If => "if",
            Word::Eq => "eq",
            Word::Ne => "ne",
            Word::Class => "class",
            Word::Has => "has",
            Word::Observe => "observe",
            Word::Associate => "associate",
            Word::Disable => "disable",
            Word::Doc => "doc",
            Word::User => "user",
        }
    }
}
