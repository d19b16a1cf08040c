//! Which certificates are accepted, and what may be answered of a script: definitions in `specs/`,
//! and the `laws`.
#![tactic(auto)]

pub mod laws;
