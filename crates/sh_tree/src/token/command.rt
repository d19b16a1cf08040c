//! Tokens of commands (XCU 2.3, 2.4, 2.10).

use crate::refusal::Form;
use crate::tree::Span;

/// An operator (XCU 2.10.2).
#[derive(Clone, Copy, Debug, PartialEq, Eq)]
pub enum Operator {
    /// `&&`
    AndIf,
    /// `||`
    OrIf,
    /// `;;`
    DoubleSemicolon,
    /// `;&`
    SemicolonAnd,
    /// `<<`
    HereDoc,
    /// `<<-`
    HereDocTabs,
    /// `>>`
    Append,
    /// `<&`
    CopyIn,
    /// `>&`
    CopyOut,
    /// `<>`
    ReadWrite,
    /// `>|`
    Clobber,
    /// `&`
    And,
    /// `;`
    Semicolon,
    /// `|`
    Bar,
    /// `(`
    LeftParenthesis,
    /// `)`
    RightParenthesis,
    /// `<`
    Less,
    /// `>`
    Greater,
}

/// A reserved word (XCU 2.4).
#[derive(Clone, Copy, Debug, PartialEq, Eq)]
pub enum Reserved {
    Bang,
    LeftBrace,
    RightBrace,
    Case,
    Do,
    Done,
    Elif,
    Else,
    Esac,
    Fi,
    For,
    If,
    In,
    Then,
    Until,
    While,
}

/// Where a token of a simple command is read (XCU 2.9.1).
#[derive(Clone, Copy, Debug, PartialEq, Eq)]
pub enum Stage {
    /// At the command's first token, at which a reserved word is recognized.
    First,
    /// After an assignment or a redirection, before a command name.
    Prefixed,
    /// After the command name, and whether that is `export` or `readonly`, unquoted.
    Named(bool),
}

/// What a token of a command is.
#[derive(Clone, Copy, Debug, PartialEq, Eq)]
pub enum Lead {
    /// The text ends.
    End,
    Newline,
    Operator(Operator),
    Reserved(Reserved),
    /// A name before `(`, at a command's first token.
    Definition,
    /// A name and `=`, before the command name.
    Assignment,
    /// Digits directly before `<` or `>`.
    Number,
    Word,
    /// The backquote that ends the text, which closes the substitution that the text is of.
    Backquote,
    /// A refused form.
    LeftOut(Form),
}

/// The front of a redirection: its IO number, its operator, where that begins and where it ends
/// (XCU 2.7).
#[derive(Clone, Copy, Debug, PartialEq, Eq)]
pub struct Redirection {
    pub number: Option<Span>,
    pub operator: Operator,
    pub at: u32,
    pub end: u32,
}
