//! Tests of what is reported of a script, of its text and of the ends.
#![tactic(auto)]

#[cfg(test)]
mod moves;
#[cfg(test)]
mod refusals;
#[cfg(test)]
mod texts;
