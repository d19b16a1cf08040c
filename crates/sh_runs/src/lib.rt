//! What a shell does with a script, and which scripts are analysed, as definitions in `specs/`.
//! `laws` holds them against worked examples. The functions say what the names of commands mean,
//! and which operands are options or assignments.
#![tactic(auto)]

mod kind;
pub mod laws;
mod operands;

pub use kind::{Kind, kind_of};
pub use operands::{definition_in, ends_options, is_dashed, option_takes};
