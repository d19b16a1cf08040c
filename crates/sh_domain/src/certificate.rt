//! Certificates: what is surely set before and after each command and each function.
ghost use Rattle.std.specs.Prelude.{◌≡◌, ◌<◌, ◌-◌, nat_eq, slice_get};
ghost use Rattle.std.specs.Option.{option_copied};
ghost use Rattle.indexmap.specs.IndexMap.{get};

use crate::rows::{RowId, Rows};
use indexmap::IndexMap;

/// What is surely set at a place.
#[derive(Clone, Copy, Debug, PartialEq, Eq)]
pub enum Facts {
    /// No run comes here.
    NotReached,
    /// These variables are set, these functions are defined, and there are at least so many
    /// positional parameters.
    Known {
        vars: RowId,
        functions: RowId,
        args: u16,
    },
}

/// The facts round a command: before it, and after it by its status.
#[derive(Clone, Copy, Debug, PartialEq, Eq)]
pub struct Entry {
    pub before: Facts,
    pub zero: Facts,
    pub nonzero: Facts,
}

/// The names that a call of a function may drop.
#[derive(Clone, Copy, Debug, PartialEq, Eq)]
pub struct Drops {
    pub vars: RowId,
    pub functions: RowId,
}

/// The facts round a function: where it is entered, what it may drop, and where it returns by its
/// status.
#[derive(Clone, Copy, Debug, PartialEq, Eq)]
pub struct FunctionEntry {
    pub before: Facts,
    pub drops: Drops,
    pub zero: Facts,
    pub nonzero: Facts,
}

/// The facts round each command and each function of a script, by their numbers from 1. At the head
/// of each loop there are facts by its command's number. They name rows; each set is there once.
#[derive(Debug, Drop)]
pub struct Certificate {
    pub rows: Rows,
    pub entries: Vec<Entry>,
    pub heads: IndexMap<u32, Facts>,
    pub functions: Vec<FunctionEntry>,
}

impl Certificate {
    /// The facts round the command of a number, from 1.
    pub fn entry(&self, number: u32) -> Option<&Entry>
        requires { 0 < number }
        ensures { option_copied result ≡ slice_get self.now.entries.items (number - 1) }
    {
        self.entries.get(number as usize - 1)
    }

    /// The facts at the head of the loop whose command has this number.
    pub fn head(&self, number: u32) -> Option<&Facts>
        ensures { option_copied result ≡ get nat_eq self.now.heads number }
    {
        self.heads.get(&number)
    }

    /// The facts round the function of a number, from 1.
    pub fn function(&self, number: u32) -> Option<&FunctionEntry>
        requires { 0 < number }
        ensures { option_copied result ≡ slice_get self.now.functions.items (number - 1) }
    {
        self.functions.get(number as usize - 1)
    }
}
