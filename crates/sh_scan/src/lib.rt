//! The tokens of a script, each the longest, and where its lines begin.
#![tactic(auto)]

mod arithmetic;
mod assignments;
mod backquotes;
mod blanks;
mod bytes;
mod class;
mod commands;
mod front;
mod here_document;
mod lines;
mod pieces;
mod quotes;
mod words;

pub use arithmetic::{assignment_of, binary_of, is_closed, lexeme_at, unary_of};
pub use assignments::{is_assignment_at, is_location_at};
pub use backquotes::{backquote_end, closes_at, kept_backslash};
pub use blanks::blanks_at;
pub use class::{Class, classify};
pub use commands::{
    begins_command, begins_compound, begins_pipeline, begins_simple, clause_end_of, declares_at,
    direction_of, is_bare_name_at, is_redirection, lead_at, link_of, operator_at, redirection_at,
    separator, strip_of,
};
pub use front::{behind_joined, name_at};
pub use here_document::here_line;
pub use lines::Lines;
pub use quotes::single_end;
pub use words::{
    in_arithmetic, in_body, in_double, in_operand, in_removal, in_unsplit, in_use, in_value,
    in_word, is_quoted, token_at,
};
