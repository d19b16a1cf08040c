//! Tests of what is reported of trees: the static text of words, the commands of a script, and
//! names.
#![tactic(auto)]

#[cfg(test)]
mod commands;
#[cfg(test)]
mod name;
#[cfg(test)]
mod text;
#[cfg(test)]
mod trees;
