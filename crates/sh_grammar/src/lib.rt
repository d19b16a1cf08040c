//! Reads the bytes of a script as its tree, or refuses them.
#![tactic(auto)]

mod branches;
mod breaks;
mod cases;
mod commands;
mod compounds;
mod definitions;
mod delimiters;
mod documents;
mod elements;
mod end_lines;
mod faults;
mod fors;
mod grammar;
mod kept;
mod lists;
mod loops;
mod mark;
mod redirects;
mod reserved;
mod script;
mod state;
mod substitutions;
mod ticks;
mod words;

pub use script::parse;
