//! Why no run of a script whose rules and demands hold expands an unset parameter without a default
//! before it has split a value. It has definitions, in `specs/`, and the `laws`.
#![tactic(auto)]

pub mod laws;
