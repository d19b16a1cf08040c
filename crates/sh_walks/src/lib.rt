//! The flow rules over a script: how each of its commands is entered, and the first that breaks a
//! rule.
#![tactic(auto)]

mod lone;
mod rules;
pub mod walk;

pub use rules::{Rules, check_rules};
