//! Compact certificates: what is surely set at the start, at the head of each loop and round each
//! function.
use crate::certificate::{Certificate, Facts, FunctionEntry};
use crate::rows::Rows;
use indexmap::IndexMap;

/// A certificate of so many commands that states what is known at the start, at the head of each
/// loop and round each function. A loop is there by its command's number, and a function by its
/// number from 1. What holds round the commands follows from these. They name rows; each set is
/// there once.
#[derive(Debug, Drop)]
pub struct Compact {
    pub commands: u32,
    pub start: Facts,
    pub rows: Rows,
    pub heads: IndexMap<u32, Facts>,
    pub functions: Vec<FunctionEntry>,
}

/// A certificate as it is given.
#[derive(Debug, Drop)]
pub enum Given {
    Full(Certificate),
    Compact(Compact),
}
