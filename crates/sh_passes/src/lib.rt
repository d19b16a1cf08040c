//! Sweeps over a script: each lowers a certificate to what the flow rules ask of it.
#![tactic(auto)]

mod bodies;
mod choices;
mod links;
mod looks;
mod own;
mod rounds;
mod sweep;
mod words;

pub use bodies::{sweep_by_rounds, sweep_round, sweep_waiting};
