//! Equations between the counts at places of a script (XCU 2.5.1).

ghost use Rattle.std.specs.Prelude.{◌≡◌, ℕ, true, get_or, None, Some, IfOk, IfSome};
ghost use Rattle.sh_domain.specs.Names.{number_of};
ghost use Rattle.sh_domain.specs.Views.{Entry, at};
ghost use Rattle.sh_tally.specs.Tallies.{AreBounds, Bounds, Tallies};
ghost use Rattle.sh_tally.specs.Walks.{AddsFunction, AddsLeaves, AddsReturn, Sight, names};

use crate::places::{End, Part, Places};
use crate::views::{After, View, Views};
use sh_counts::{Change, Count, Equations};
use sh_table::CallTable;
use std::alloc::AllocError;

/// A script, and the counts that are claimed at its places.
#[derive(Clone, Copy)]
pub struct Tally<'a> {
    pub script: &'a [u8],
    pub table: &'a CallTable<'a>,
    pub places: Places<'a>,
    /// A function that may be undefined before the command of each number, if there is one that it
    /// calls.
    pub unsure: &'a [Option<u16>],
}

impl Tally<'_> {
    // Adds that the count at a place is at most what a change makes of what a view sees, if runs
    // come to both.
    fn bound_by(
        &self,
        equations: &mut Equations,
        place: Count,
        view: Option<View>,
        change: Change,
    ) -> Result<(), AllocError>
        ensures { IfOk result (λ unit. (u : ℕ → ℕ) → IfSome view (Bounds self.now.places u place change) → Tallies self.now.places u equations.old equations.new) }
    {
        let Some(view) = view else {
            return Ok(());
        };
        let Some(_count) = self.places.args(place) else {
            return Ok(());
        };
        let Some(_count) = self.places.args(view.source) else {
            return Ok(());
        };
        let source = equations.changed(view.source, Change::Raise(view.least))?;
        equations.bound(place, source, change)?;
        Ok(())
    }

    /// Adds that the count at a place is at most what a change makes of what is known.
    ///
    /// # Errors
    ///
    /// If a growth was refused.
    pub fn bound(
        &self,
        equations: &mut Equations,
        place: Count,
        known: Views,
        change: Change,
    ) -> Result<(), AllocError>
        ensures { IfOk result (λ unit. (u : ℕ → ℕ) → AreBounds self.now.places u place change known → Tallies self.now.places u equations.old equations.new) }
    {
        self.bound_by(equations, place, known.first, change)?;
        self.bound_by(equations, place, known.second, change)?;
        Ok(())
    }

    /// Adds that the counts after the command of a number are at most what is known by its status.
    ///
    /// # Errors
    ///
    /// If a growth was refused.
    pub fn leaves(
        &self,
        equations: &mut Equations,
        number: u32,
        after: After,
    ) -> Result<(), AllocError>
        ensures { IfOk result (λ unit. AddsLeaves self.now number after equations.old equations.new) }
    {
        let zero = Part::Zero.of(number);
        self.bound(equations, zero, after.zero, Change::NONE)?;
        let nonzero = Part::Nonzero.of(number);
        self.bound(equations, nonzero, after.nonzero, Change::NONE)?;
        Ok(())
    }

    // The index of the function of this name, if the script has one.
    fn function(&self, name: &[u8]) -> Option<u16>
        ensures { IfSome result (λ function. number_of (names self.now) name.now ≡ Some function) }
    {
        match self.table.function_place(name) {
            Some(function) => u16::try_from(function).ok(),
            None => None,
        }
    }

    /// Adds that the count at an end of a function is at most what a change makes of what is known.
    ///
    /// # Errors
    ///
    /// If a growth was refused.
    pub fn bound_function(
        &self,
        equations: &mut Equations,
        end: End,
        name: &[u8],
        known: Views,
        change: Change,
    ) -> Result<(), AllocError>
        ensures { IfOk result (λ unit. AddsFunction self.now end name.now known change equations.old equations.new) }
    {
        match self.function(name) {
            Some(function) => self.bound(equations, end.of(function), known, change),
            None => Ok(()),
        }
    }

    // Whether this function may be undefined before the command of a number.
    fn is_unsure(&self, number: u32, function: u16) -> bool
        ensures { result ≡ true → get_or self.now.unsure.now number None ≡ Some function }
    {
        match self.unsure.get(number as usize) {
            Some(unsure) => *unsure == Some(function),
            None => false,
        }
    }

    /// Adds that the count after a call is at most what is known before it, if a run comes to this
    /// end of the function, or a utility may run in place of it.
    ///
    /// # Errors
    ///
    /// If a growth was refused.
    pub fn returned(
        &self,
        equations: &mut Equations,
        number: u32,
        place: Count,
        end: End,
        name: &[u8],
        known: Views,
    ) -> Result<(), AllocError>
        ensures { IfOk result (λ unit. AddsReturn self.now number place end name.now known equations.old equations.new) }
    {
        let Some(function) = self.function(name) else {
            return Ok(());
        };
        if self.is_unsure(number, function) {
            return self.bound(equations, place, known, Change::NONE);
        }
        match self.places.args(end.of(function)) {
            Some(_) => self.bound(equations, place, known, Change::NONE),
            None => Ok(()),
        }
    }

    /// What is known at the entry of a function.
    pub fn entered(&self, name: &[u8]) -> Views
        ensures { Sight self.now (at (Entry name.now)) result }
    {
        match self.function(name) {
            Some(function) => Views::at(End::Entered.of(function)),
            None => Views::NONE,
        }
    }
}
