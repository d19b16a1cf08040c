//! The canonical text of a script: its layout is one for each bare tree (XCU 2.9).
#![tactic(auto)]

mod commands;
mod documents;
pub mod laws;
mod pieces;
mod redirections;

pub use commands::print;
