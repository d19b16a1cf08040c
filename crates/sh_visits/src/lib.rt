//! The flow rules of a command: what is asked there, by what a certificate claims.
#![tactic(auto)]

mod bounds;
mod calls;
mod drops;
mod jumps;
mod rules;
mod simple;
mod steps;
mod texts;
mod utilities;

pub use bounds::{ends_case, matches_always};
pub use jumps::jump_loop;
pub use rules::tell_command;
pub use texts::first_number;
pub use utilities::behind_name;
