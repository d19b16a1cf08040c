//! Tests of what the names of commands mean, of the call table, of policies, of the names of
//! scripts and of what certificates keep.
#![tactic(auto)]

#[cfg(test)]
mod kinds;
#[cfg(test)]
mod names;
#[cfg(test)]
mod rows;
#[cfg(test)]
mod tables;
#[cfg(test)]
mod towers;
