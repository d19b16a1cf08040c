//! The commands that call each function.
ghost use Rattle.std.specs.Prelude.{◌≡◌, ◌<◌, ◌++◌, ◌∷◌, [], ℕ, length, replicate, IfOk, OnOk};
ghost use Rattle.std.specs.List.{filter};
ghost use Rattle.sh_worklist.specs.Calls.{callers_in, callers_of, does_call, lists_in, with_call};

use sh_table::CallTable;
use std::alloc::{AllocError, Global};

/// For each function of a script, the numbers of the commands that call it.
#[derive(Drop)]
pub struct Calls {
    callers: Vec<Vec<u32>>,
}

impl Calls {
    /// The calls of a script.
    ///
    /// # Errors
    ///
    /// If a growth was refused.
    pub fn of(alloc: Global, table: &CallTable<'_>) -> Result<Calls, AllocError>
        ensures { IfOk result (λ calls. (f : ℕ) → f < length table.now.functions.names → callers_in calls f ≡ callers_of table.now f) }
    {
        let mut calls = Calls::none(alloc, table.functions().len())?;
        for row in table.rows() {
            calls.add(table, row.number)?;
        }
        Ok(calls)
    }

    // No call of so many functions.
    fn none(alloc: Global, functions: usize) -> Result<Calls, AllocError>
        ensures { IfOk result (λ calls. lists_in calls ≡ replicate functions []) }
    {
        let mut callers = Vec::new(alloc);
        for _ in 0..functions {
            callers.push(Vec::new(alloc))?;
        }
        Ok(Calls { callers })
    }

    // Adds a command, if it calls a function.
    fn add(&mut self, table: &CallTable<'_>, command: u32) -> Result<(), AllocError>
        ensures sized { OnOk result (length (lists_in self.new) ≡ length (lists_in self.old)) }
        ensures called { OnOk result ((f : ℕ) → f < length (lists_in self.old) → callers_in self.new f ≡ callers_in self.old f ++ filter (does_call table.now f) (command ∷ [])) }
    {
        if let Some(function) = table.callee(command) {
            self.add_call(function as usize - 1, command)?;
        }
        Ok(())
    }

    // Adds a command that calls the function of an index.
    fn add_call(&mut self, function: usize, command: u32) -> Result<(), AllocError>
        ensures { OnOk result (lists_in self.new ≡ with_call (lists_in self.old) function command) }
    {
        if function < self.callers.len() {
            self.callers[function].push(command)?;
        }
        Ok(())
    }

    /// The commands that call the function of an index, by rising numbers.
    pub fn callers(&self, function: usize) -> &[u32]
        ensures { result.now ≡ callers_in self.now function }
    {
        match self.callers.get(function) {
            Some(callers) => callers.as_slice(),
            None => &[],
        }
    }
}
