//! Tests of what is reported of places, of runs in memory, and of the names that the library
//! offers. What is reported of a script is in tests/scripts, and of ends that fail in
//! tests/hostile.
#![tactic(auto)]

#[cfg(test)]
mod embedders;
#[cfg(test)]
mod findings;
#[cfg(test)]
mod memory;
