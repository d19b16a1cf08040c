//! What every script that is read has, whatever is asked of it. The lemmas are on the tokens of
//! readings; `specs/` has the spots of a program.
#![tactic(auto)]

pub mod laws;
