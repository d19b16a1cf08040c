//! Turns of the search, and its counts, which are solved apart.
#![tactic(auto)]

mod asked;
mod counts;
mod turns;
mod unsure;

pub use counts::solve_counts;
pub use turns::turn;
