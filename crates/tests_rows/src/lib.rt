//! Tests of rows: what the kernels make of words, and both rows through the bound of them.
#![tactic(auto)]

#[cfg(test)]
mod kernels;
#[cfg(test)]
mod sets;
