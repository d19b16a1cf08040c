//! Trees as short text, for tests and for people who look at them. The text shows every field of a
//! tree.
#![tactic(auto)]

mod arithmetic;
mod commands;
mod redirections;
mod spans;
mod words;

pub use commands::push_script;
pub use words::push_word;
