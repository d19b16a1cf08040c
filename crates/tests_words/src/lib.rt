//! Tests of words: limits, and builders that refused a text. What is reported of a text is in
//! tests/trees.
#![tactic(auto)]

#[cfg(test)]
mod again;
#[cfg(test)]
mod words;
