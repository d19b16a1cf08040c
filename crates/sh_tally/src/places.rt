//! The places at which a certificate claims a count of positional parameters (XCU 2.5.1).

ghost use Rattle.std.specs.Prelude.{◌≡◌, ◌≤◌, ◌++◌, map, OnOk};
ghost use Rattle.sh_tally.specs.Tallies.{claimed, count_at_first};
ghost use Rattle.sh_tally.specs.Views.{command_index, end_place, function_index, part_place};

use sh_counts::{Count, Equations};
use std::alloc::AllocError;

/// How many counts each number has: four of the command, and the last one of a function.
pub const PARTS: usize = 5;

/// How many counts a function has.
pub const ENDS: usize = 3;

/// A place at a command: before it, after it by its status, and each turn of a loop.
#[derive(Clone, Copy, Debug, PartialEq, Eq)]
pub enum Part {
    Before,
    Zero,
    Nonzero,
    Head,
}

/// A place at a function: its entry, and its return by the status.
#[derive(Clone, Copy, Debug, PartialEq, Eq)]
pub enum End {
    Entered,
    Zero,
    Nonzero,
}

/// The counts that a certificate claims: five for each number from 0, four of the command and one
/// of a function, of which every three numbers have one. A place to which no run comes has none.
#[derive(Clone, Copy, Debug)]
pub struct Places<'a> {
    pub counts: &'a [Option<u16>],
}

impl Part {
    /// The unknown count at the command of a number.
    pub fn of(self, number: u32) -> Count
        ensures { result.index ≡ command_index self number }
    {
        Count {
            index: number as usize * PARTS + self.place(),
        }
    }

    // Its index among the places of a command.
    #[tactic(auto, unfolding(crate::specs::Views::part_place))]
    fn place(self) -> usize
        ensures value { result ≡ part_place self }
        ensures low { result ≤ 3 }
    {
        match self {
            Part::Before => 0,
            Part::Zero => 1,
            Part::Nonzero => 2,
            Part::Head => 3,
        }
    }
}

impl End {
    /// The unknown count at this end of the function of an index.
    pub fn of(self, function: u16) -> Count
        ensures { result.index ≡ function_index self function }
    {
        Count {
            index: (function as usize * ENDS + self.place()) * PARTS + (PARTS - 1),
        }
    }

    // Its index among the places of a function.
    #[tactic(auto, unfolding(crate::specs::Views::end_place))]
    fn place(self) -> usize
        ensures value { result ≡ end_place self }
        ensures low { result ≤ 2 }
    {
        match self {
            End::Entered => 0,
            End::Zero => 1,
            End::Nonzero => 2,
        }
    }
}

// What a count is at most at first.
#[tactic(auto, unfolding(crate::specs::Tallies::count_at_first))]
fn at_first(count: &Option<u16>) -> u16
    ensures { result ≡ count_at_first count.now }
{
    match count {
        Some(count) => *count,
        None => u16::MAX,
    }
}

impl Places<'_> {
    /// The count that is claimed at a place, if any run comes there.
    pub fn args(&self, place: Count) -> Option<u16>
        ensures { result ≡ claimed self.now place.index }
    {
        match self.counts.get(place.index) {
            Some(count) => *count,
            None => None,
        }
    }

    /// Adds an unknown count for each place, of at most what is claimed there.
    ///
    /// # Errors
    ///
    /// If a growth was refused.
    pub fn add_all(&self, equations: &mut Equations) -> Result<(), AllocError>
        ensures most { OnOk result (equations.new.most.items ≡ equations.old.most.items ++ map count_at_first self.now.counts.now) }
        ensures all { equations.new.all.items ≡ equations.old.all.items }
    {
        for count in self.counts {
            equations.unknown(at_first(count))?;
        }
        Ok(())
    }
}
