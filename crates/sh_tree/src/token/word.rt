//! Tokens of words (XCU 2.2, 2.6).

use crate::refusal::{Fault, Form};
use crate::tree::{Action, CommandStyle, Removal, SingleStyle, Subject};

/// Where the parts of a word are read.
#[derive(Clone, Copy, Debug, PartialEq, Eq)]
pub enum Site {
    /// Outside quotes. The word ends before a blank, a newline, an operator or the end of the text
    /// (XCU 2.3).
    Word,
    /// Between double quotes (XCU 2.2.3).
    Double,
    /// The word of a braced expansion that is read as outside quotes, up to `}` (XCU 2.6.2).
    Braced,
    /// The word of a braced expansion that is read as in double quotes, up to `}`.
    QuotedBraced,
    /// The body of a here-document with an unquoted delimiter, up to its end (XCU 2.7.4).
    Body,
    /// The body of one with a quoted delimiter.
    Verbatim,
}

/// A site, and what else decides how its bytes are read.
#[derive(Clone, Copy, Debug, PartialEq, Eq)]
pub struct Context {
    pub site: Site,
    /// Where a tilde-prefix may begin (XCU 2.6.1).
    pub origin: u32,
    /// Whether one may begin after an unquoted colon too, as in the value of an assignment.
    pub colons: bool,
    /// Whether `$@` is accepted: only in words whose fields are split.
    pub fields: bool,
    /// Whether tabs at the beginning of a line are no part of the text, as with `<<-`.
    pub strip: bool,
    /// Whether this is in the body of a here-document.
    pub body: bool,
    /// Whether a substitution in backquotes is accepted (XCU 2.6.3).
    pub backquotes: bool,
}

/// What begins at a place of a word.
#[derive(Clone, Copy, Debug, PartialEq, Eq)]
pub enum Sign {
    /// The context ends.
    Stop,
    /// The text ends before the context does.
    Open,
    /// Bytes that mean themselves.
    Plain,
    /// Tabs that `<<-` strips.
    Tabs,
    /// A backslash, and the byte that it keeps.
    Escaped,
    /// A line continuation.
    Joined,
    /// Single quotes, or `$'`, whole.
    Single(SingleStyle),
    /// A double quote that opens.
    Double,
    /// A tilde-prefix.
    Tilde,
    /// An expansion that gives the parameter's value, whole.
    Value(Subject),
    /// One that gives its length, whole.
    Length(Subject),
    /// A braced expansion up to the word after `-`, `=`, `?` or `+`, and whether a colon is before
    /// that.
    Use(Subject, Action, bool),
    /// A braced expansion up to the pattern after `%`, `%%`, `#` or `##`.
    Remove(Subject, Removal),
    /// `$(`, or a backquote.
    Substitution(CommandStyle),
    /// `$((`
    Arith,
    /// A fault of syntax.
    Fault(Fault),
    /// A refused form.
    LeftOut(Form),
}

/// A sign, and the offset after its bytes, or at which a fault or a refused form is reported.
#[derive(Clone, Copy, Debug, PartialEq, Eq)]
pub struct Token {
    pub sign: Sign,
    pub end: u32,
}
