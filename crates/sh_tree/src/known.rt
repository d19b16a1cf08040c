//! The names that a refusal can report.
ghost use Rattle.std.specs.Prelude.{◌≡◌};
ghost use Rattle.sh_tree.specs.standard.Texts.{declaration_text, known_text};

/// A name that a refusal can report.
#[derive(Clone, Copy, Debug, PartialEq, Eq)]
pub enum KnownName {
    // The special built-in utilities (XCU 2.15).
    Break,
    Colon,
    Continue,
    Dot,
    Eval,
    Exec,
    Exit,
    Export,
    Readonly,
    Return,
    Set,
    Shift,
    Times,
    Trap,
    Unset,
    // Utilities that change how commands are read, or that run commands that are elsewhere.
    Alias,
    Unalias,
    Fc,
    // Names to which the standard gives no meaning (XCU 2.9.1.4).
    Local,
    Typeset,
    Declare,
    Source,
    Let,
    Builtin,
    Nameref,
    Integer,
    Float,
    Mapfile,
    Readarray,
    Shopt,
    // Words that other shells reserve (XCU 2.4).
    LeftBrackets,
    RightBrackets,
    Function,
    Select,
    Time,
    Namespace,
}

impl KnownName {
    /// The name as a script has it.
    pub fn text(self) -> &'static str
        ensures { result.now ≡ known_text self }
    {
        match self {
            KnownName::Break => "break",
            KnownName::Colon => ":",
            KnownName::Continue => "continue",
            KnownName::Dot => ".",
            KnownName::Eval => "eval",
            KnownName::Exec => "exec",
            KnownName::Exit => "exit",
            KnownName::Export => "export",
            KnownName::Readonly => "readonly",
            KnownName::Return => "return",
            KnownName::Set => "set",
            KnownName::Shift => "shift",
            KnownName::Times => "times",
            KnownName::Trap => "trap",
            KnownName::Unset => "unset",
            KnownName::Alias => "alias",
            KnownName::Unalias => "unalias",
            KnownName::Fc => "fc",
            KnownName::Local => "local",
            KnownName::Typeset => "typeset",
            KnownName::Declare => "declare",
            KnownName::Source => "source",
            KnownName::Let => "let",
            KnownName::Builtin => "builtin",
            KnownName::Nameref => "nameref",
            KnownName::Integer => "integer",
            KnownName::Float => "float",
            KnownName::Mapfile => "mapfile",
            KnownName::Readarray => "readarray",
            KnownName::Shopt => "shopt",
            KnownName::LeftBrackets => "[[",
            KnownName::RightBrackets => "]]",
            KnownName::Function => "function",
            KnownName::Select => "select",
            KnownName::Time => "time",
            KnownName::Namespace => "namespace",
        }
    }
}

/// A declaration utility (XCU 2.9.1.1).
#[derive(Clone, Copy, Debug, PartialEq, Eq)]
pub enum Declaration {
    Export,
    Readonly,
}

impl Declaration {
    /// The utility's name.
    pub fn text(self) -> &'static str
        ensures { result.now ≡ declaration_text self }
    {
        match self {
            Declaration::Export => KnownName::Export.text(),
            Declaration::Readonly => KnownName::Readonly.text(),
        }
    }
}
