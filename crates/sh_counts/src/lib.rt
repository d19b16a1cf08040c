//! The greatest numbers of positional parameters that equations allow.
#![tactic(auto)]

mod bounded;
mod circles;
mod courses;
mod equations;
mod falling;
mod order;
mod users;

pub use equations::{Change, Count, Equation, Equations};
pub use falling::solve;
