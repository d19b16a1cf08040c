//! Tests of the tokens of commands, words and arithmetic, and of where a script's lines begin.
#![tactic(auto)]

#[cfg(test)]
mod arithmetic;
#[cfg(test)]
mod backquotes;
#[cfg(test)]
mod bytes;
#[cfg(test)]
mod check;
#[cfg(test)]
mod ends;
#[cfg(test)]
mod forms;
#[cfg(test)]
mod leads;
#[cfg(test)]
mod operators;
#[cfg(test)]
mod words;
