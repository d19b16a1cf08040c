//! The commands that wait, and where each command is.
ghost use Rattle.std.specs.Prelude.{◌≡◌, ◌<◌, ◌≤◌, ◌+◌, ◌==◌, ◌&&◌, ◌||◌, ℕ, true, not, nat_lt, None, Some, if◌then◌else◌, slice_set, IfOk, MatchOption};
ghost use Rattle.std.specs.Slice.Scan.{HoldsNowhere};
ghost use Rattle.sh_worklist.specs.Bits.{IsNext};
ghost use Rattle.sh_worklist.specs.Flags.{is_in, limit_of};
ghost use Rattle.sh_worklist.specs.Places.{place_in};

use crate::flags::Flags;
use crate::units::Unit;
use std::alloc::{AllocError, Global};

/// Whether a command waited, and whether one inside of it did.
#[derive(Clone, Copy, Debug, PartialEq, Eq)]
pub struct Look {
    pub own: bool,
    pub inner: bool,
}

/// Where a sweep is: the innermost command that it has entered in a unit, and that unit.
#[derive(Clone, Copy, Debug, PartialEq, Eq)]
pub struct Inside {
    pub command: Option<u32>,
    pub unit: Unit,
}

impl Inside {
    /// In no command, outside all definitions.
    pub const OUTSIDE: Inside = Inside {
        command: None,
        unit: Unit::Outside,
    };
}

/// The commands that wait, each at most once, and where each was seen.
#[derive(Drop)]
pub struct Commands {
    own: Flags,
    // The commands inside which one waits.
    inner: Flags,
    // By the numbers of the commands.
    places: Vec<Inside>,
}

impl Commands {
    /// All commands below a count wait.
    ///
    /// # Errors
    ///
    /// If a growth was refused.
    pub fn all(alloc: Global, count: usize) -> Result<Commands, AllocError>
        ensures own { IfOk result (λ commands. (k : ℕ) → k < count → is_in commands.own k ≡ true) }
        ensures inner { IfOk result (λ commands. (k : ℕ) → k < count → is_in commands.inner k ≡ true) }
    {
        let mut own = Flags::none(alloc, count)?;
        let mut inner = Flags::none(alloc, count)?;
        own.add_all();
        inner.add_all();
        Ok(Commands {
            own,
            inner,
            places: vec![in alloc; Inside::OUTSIDE; count]?,
        })
    }

    /// Has all commands wait.
    pub fn wait_all(&mut self)
        ensures own { (k : ℕ) → is_in self.new.own k ≡ nat_lt k (limit_of self.old.own) }
        ensures inner { (k : ℕ) → is_in self.new.inner k ≡ nat_lt k (limit_of self.old.inner) }
        ensures limit { limit_of self.new.own ≡ limit_of self.old.own }
    {
        self.own.add_all();
        self.inner.add_all();
    }

    /// Whether a command waits, or one inside of it.
    pub fn has(&self, command: u32) -> bool
        ensures { result ≡ (is_in self.now.own command || is_in self.now.inner command) }
    {
        self.own.has(command) || self.inner.has(command)
    }

    /// The least number from one up to another, both included, of a command that waits, or inside
    /// which one does.
    pub fn next(&self, from: u32, to: u32) -> Option<u32>
        ensures { MatchOption result (HoldsNowhere (λ k. is_in self.now.own k || is_in self.now.inner k) from (to + 1)) (IsNext (λ k. is_in self.now.own k || is_in self.now.inner k) from to) }
    {
        let own = self.own.next(from, to);
        let inner = self.inner.next(from, own.unwrap_or(to));
        inner.or(own)
    }

    /// A command that is here is looked at, so it waits no longer.
    pub fn look(&mut self, command: u32, inside: Inside) -> Look
        ensures own { result.own ≡ is_in self.old.own command }
        ensures inner { result.inner ≡ is_in self.old.inner command }
        ensures taken { (k : ℕ) → is_in self.new.own k ≡ (not (k == command) && is_in self.old.own k) }
        ensures entered { (k : ℕ) → is_in self.new.inner k ≡ (not (k == command) && is_in self.old.inner k) }
        ensures limit { limit_of self.new.own ≡ limit_of self.old.own }
        ensures place { self.new.places.items ≡ slice_set self.old.places.items command inside }
    {
        if (command as usize) < self.places.len() {
            self.places[command as usize] = inside;
        }
        Look {
            own: self.own.take(command),
            inner: self.inner.take(command),
        }
    }

    /// Has a command wait, and no unit for it: it is looked at again before its unit is left.
    pub fn hold(&mut self, command: u32)
        ensures own { (k : ℕ) → is_in self.new.own k ≡ ((k == command && nat_lt command (limit_of self.old.own)) || is_in self.old.own k) }
        ensures limit { limit_of self.new.own ≡ limit_of self.old.own }
        ensures inner { self.new.inner ≡ self.old.inner }
        ensures places { self.new.places ≡ self.old.places }
    {
        self.own.add(command);
    }

    /// A command is looked at again, so it waits no longer. Those inside of it wait as before.
    pub fn release(&mut self, command: u32)
        ensures own { (k : ℕ) → is_in self.new.own k ≡ (not (k == command) && is_in self.old.own k) }
        ensures limit { limit_of self.new.own ≡ limit_of self.old.own }
        ensures inner { self.new.inner ≡ self.old.inner }
        ensures places { self.new.places ≡ self.old.places }
    {
        self.own.take(command);
    }

    /// Where a command is.
    pub fn place(&self, command: u32) -> Inside
        ensures { result ≡ place_in self.now.places.items command }
    {
        match self.places.get(command as usize) {
            Some(inside) => *inside,
            None => Inside::OUTSIDE,
        }
    }

    // Notes that one waits inside of each command that this one is in. A command that has it noted
    // has it noted of those that it is in.
    fn mark(&mut self, command: u32)
        ensures own { self.new.own ≡ self.old.own }
        ensures places { self.new.places ≡ self.old.places }
    {
        let mut inside = self.place(command);
        for _ in 0..self.places.len() {
            let Some(outer) = inside.command else {
                return;
            };
            if self.inner.has(outer) {
                return;
            }
            self.inner.add(outer);
            inside = self.place(outer);
        }
    }

    /// Has a command wait. Returns the unit that it is in, unless the command waited before.
    pub fn wait(&mut self, command: u32) -> Option<Unit>
        ensures own { (k : ℕ) → is_in self.new.own k ≡ ((k == command && nat_lt command (limit_of self.old.own)) || is_in self.old.own k) }
        ensures limit { limit_of self.new.own ≡ limit_of self.old.own }
        ensures unit { result ≡ (if is_in self.old.own command then None else Some (place_in self.old.places.items command).unit) }
    {
        if self.own.has(command) {
            return None;
        }
        self.own.add(command);
        self.mark(command);
        Some(self.place(command).unit)
    }
}
