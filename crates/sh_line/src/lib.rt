//! The command line of the program.
#![tactic(auto)]

mod line;

pub use line::{Line, Source, Stop, command_line};
