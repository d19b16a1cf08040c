//! The tokens by which a script is read: those of commands, of words, and of arithmetic.

mod arithmetic;
mod command;
mod word;

pub use arithmetic::{Figure, Lexeme};
pub use command::{Lead, Operator, Redirection, Reserved, Stage};
pub use word::{Context, Sign, Site, Token};
