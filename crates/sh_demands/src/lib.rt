//! The demands of a script that a certificate leaves unmet.
#![tactic(auto)]

mod blocks;
mod demands;
mod drops;
pub mod laws;
mod moves;
mod needs;
mod own;
mod reports;
mod shared;
mod source;

pub use demands::check_demands;
