//! Which expansions field splitting or pathname expansion could change, and whether IFS separates
//! numbers. The rules are definitions in `specs/`; `laws` says what they are good for.
#![tactic(auto)]

mod commands;
mod elements;
pub mod laws;
mod operands;
mod patterns;
mod places;
mod quotations;
mod steady;
mod unquoted;
mod values;

pub use places::check_quotes;
pub use steady::steady_ifs;
