//! The syntax tree of a script, the refusals and the places of findings. `specs/standard` says
//! which bytes read as which tree, and which program a tree is.
#![tactic(auto)]

mod boxed;
mod items;
mod known;
pub mod laws;
mod limits;
mod listing;
mod name;
mod place;
mod refusal;
pub mod text;
mod token;
mod tree;
mod words;

pub use boxed::Boxed;
pub use items::Items;
pub use known::{Declaration, KnownName};
pub use limits::{MAX_COMMANDS, MAX_NAMES, MAX_NESTING, MAX_SCRIPT};
pub use listing::commands;
pub use name::{is_digit, is_name, is_name_byte, is_name_start, name_length};
pub use place::{Code, Place};
pub use refusal::{Fault, Form, Refusal, Rule};
pub use text::{static_text, unquoted_text};
pub use token::{
    Context, Figure, Lead, Lexeme, Operator, Redirection, Reserved, Sign, Site, Stage, Token,
};
pub use tree::{
    Action, AndOr, Binary, Branch, Clause, ClauseEnd, Command, CommandStyle, Direction, Element,
    Expr, HereDoc, Item, Kind, Link, LoopKind, Param, ParameterOperator, Part, Pipe, Redirect,
    Removal, Script, SingleStyle, Span, Special, Subject, Target, Unary, Word,
};
pub use words::{command_name, word_of};
