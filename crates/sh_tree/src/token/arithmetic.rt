//! Tokens of arithmetic (XCU 2.6.4).

use crate::refusal::Form;
use crate::tree::Binary;

/// What a token of arithmetic is.
#[derive(Clone, Copy, Debug, PartialEq, Eq)]
pub enum Figure {
    /// The text ends.
    End,
    Name,
    /// A decimal, octal or hexadecimal constant.
    Constant,
    /// A binary operator. `+` and `-` are unary ones too.
    Binary(Binary),
    /// `~`
    Complement,
    /// `!`
    Not,
    /// `?`
    Question,
    /// `:`
    Colon,
    /// `=`, or an operator and `=`.
    Assign(Option<Binary>),
    /// `(`
    Open,
    /// `)`
    Close,
    /// `$`
    Dollar,
    /// A refused form.
    LeftOut(Form),
    /// A backslash that ends the text.
    FinalBackslash,
    /// Any other byte.
    Bad,
}

/// A token of arithmetic after blanks, newlines and line continuations.
#[derive(Clone, Copy, Debug, PartialEq, Eq)]
pub struct Lexeme {
    pub figure: Figure,
    pub start: u32,
    pub end: u32,
}
