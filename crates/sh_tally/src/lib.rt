//! The counts of positional parameters in a script, as equations, and the greatest that solve them.
#![tactic(auto)]

mod bounds;
mod commands;
mod elements;
mod iterations;
mod jumps;
mod kinds;
pub mod laws;
mod lists;
mod places;
mod redirects;
mod simple;
mod solved;
mod views;
mod words;

pub use bounds::Tally;
pub use places::{ENDS, End, PARTS, Part, Places};
