//! The commands and the units that wait, since something that they look at fell.
ghost use Rattle.std.specs.Prelude.{◌≡◌, ◌<◌, ◌≤◌, ◌+◌, ◌==◌, ◌^◌, ◌&&◌, ◌||◌, ℕ, true, false, not, nat_lt, length, slice_set, Some, None, IfOk, OnOk, MatchOption};
ghost use Rattle.std.specs.Slice.Scan.{HoldsNowhere};
ghost use Rattle.sh_rows.specs.Numbers.{has_number};
ghost use Rattle.sh_worklist.specs.Bits.{IsNext};
ghost use Rattle.sh_worklist.specs.Calls.{callers_in};
ghost use Rattle.sh_worklist.specs.Flags.{is_in, limit_of};
ghost use Rattle.sh_worklist.specs.Places.{place_in};
ghost use Rattle.sh_worklist.specs.Units as bodies;
ghost use Rattle.sh_worklist.specs.Waiting.{limit, waits, waits_in, waits_inside};

use crate::calls::Calls;
use crate::commands::{Commands, Inside, Look};
use crate::flags::Flags;
use crate::late::Late;
use crate::ordered::Reason;
use crate::units::{Unit, Units};
use sh_table::CallTable;
use std::alloc::{AllocError, Global};

// What falls of a function in so few passes is not late.
const FEW_PASSES: u32 = 1;

// What falls in an item in so few sweeps is not late.
const FEW_SWEEPS: u32 = 1;

/// The commands that wait to be looked at, each at most once, and the units that they are in.
#[derive(Drop)]
pub struct Waiting {
    commands: Commands,
    calls: Calls,
    inside: Inside,
    pub units: Units,
    /// The functions, by their indices, whose callers all wait: a hint.
    pub called: Flags,
    /// The functions, by their indices, whose bodies all wait: a hint.
    pub entered: Flags,
    /// The index of the function whose body the sweep is in: a hint.
    pub function: u16,
    /// The functions, by their indices, whose callers look at them later: a hint.
    pub late_calls: Late,
    /// The functions, by their indices, whose bodies are entered with less later: a hint.
    pub late_entries: Late,
    /// The first commands of items that hand on later what falls in them: a hint.
    pub late_items: Late,
}

impl Waiting {
    /// All commands of a script wait, and all units.
    ///
    /// # Errors
    ///
    /// If a growth was refused.
    pub fn all(alloc: Global, table: &CallTable<'_>) -> Result<Waiting, AllocError>
        ensures { IfOk result (λ waiting. (k : ℕ) → k ≤ length table.now.rows → waits waiting k ≡ true) }
    {
        let functions = table.functions().len();
        Ok(Waiting {
            commands: Commands::all(alloc, table.rows().len() + 1)?,
            calls: Calls::of(alloc, table)?,
            inside: Inside::OUTSIDE,
            units: Units::all(alloc, table)?,
            called: Flags::none(alloc, functions)?,
            entered: Flags::none(alloc, functions)?,
            function: 0,
            late_calls: Late::none(alloc, functions, FEW_PASSES)?,
            late_entries: Late::none(alloc, functions, FEW_PASSES)?,
            late_items: Late::none(alloc, table.rows().len() + 1, FEW_SWEEPS)?,
        })
    }

    /// Has all commands wait, and the units that were gone over.
    pub fn wait_all(&mut self)
        ensures waits { (k : ℕ) → waits self.new k ≡ nat_lt k (limit self.old) }
        ensures rest { self.new ≡ record self.old { commands = self.new.commands; units = self.new.units } }
    {
        self.commands.wait_all();
        self.units.wait_all();
    }

    /// Whether a command waits, or one inside of it.
    pub fn has(&self, command: u32) -> bool
        ensures { result ≡ waits_in self.now command }
    {
        self.commands.has(command)
    }

    /// The least number from one up to another, both included, of a command that waits, or inside
    /// which one does.
    pub fn next(&self, from: u32, to: u32) -> Option<u32>
        ensures { MatchOption result (HoldsNowhere (waits_in self.now) from (to + 1)) (IsNext (waits_in self.now) from to) }
    {
        self.commands.next(from, to)
    }

    /// A command is looked at, so it waits no longer. Returns whether it waited.
    pub fn look(&mut self, command: u32) -> Look
        ensures own { result.own ≡ waits self.old command }
        ensures inner { result.inner ≡ waits_inside self.old command }
        ensures taken { (k : ℕ) → waits self.new k ≡ (not (k == command) && waits self.old k) }
        ensures entered { (k : ℕ) → waits_inside self.new k ≡ (not (k == command) && waits_inside self.old k) }
        ensures limit { limit self.new ≡ limit self.old }
        ensures place { self.new.commands.places.items ≡ slice_set self.old.commands.places.items command self.old.inside }
        ensures rest { self.new ≡ record self.old { commands = self.new.commands } }
    {
        self.commands.look(command, self.inside)
    }

    /// The sweep goes from a call into bodies of the function, and looks at the call again after
    /// that. Until then the call waits, so what the function leaves has no unit wait for it.
    pub fn hold(&mut self, command: u32)
        ensures waits { (k : ℕ) → waits self.new k ≡ ((k == command && nat_lt command (limit self.old)) || waits self.old k) }
        ensures entered { (k : ℕ) → waits_inside self.new k ≡ waits_inside self.old k }
        ensures limit { limit self.new ≡ limit self.old }
        ensures places { self.new.commands.places ≡ self.old.commands.places }
        ensures rest { self.new ≡ record self.old { commands = self.new.commands } }
    {
        self.commands.hold(command);
    }

    /// The sweep looks at the call again, which waits no longer.
    pub fn release(&mut self, command: u32)
        ensures taken { (k : ℕ) → waits self.new k ≡ (not (k == command) && waits self.old k) }
        ensures entered { (k : ℕ) → waits_inside self.new k ≡ waits_inside self.old k }
        ensures limit { limit self.new ≡ limit self.old }
        ensures places { self.new.commands.places ≡ self.old.commands.places }
        ensures rest { self.new ≡ record self.old { commands = self.new.commands } }
    {
        self.commands.release(command);
    }

    /// The sweep goes into a command. Returns where it was.
    pub fn enter_command(&mut self, command: u32) -> Inside
        ensures outer { result ≡ self.old.inside }
        ensures inside { self.new ≡ record self.old { inside = record self.old.inside { command = Some command } } }
    {
        let outer = self.inside;
        self.inside.command = Some(command);
        outer
    }

    /// The sweep goes into the body of a definition. Returns where it was.
    pub fn enter_body(&mut self, definition: u32) -> Inside
        ensures outer { result ≡ self.old.inside }
        ensures inside { self.new ≡ record self.old { inside = record { command = None; unit = Unit.Body definition } } }
    {
        let outer = self.inside;
        self.inside = Inside {
            command: None,
            unit: Unit::Body(definition),
        };
        outer
    }

    /// Notes that something fell in the unit that the sweep is in, so that bodies wait for this
    /// reason: a hint.
    pub fn note_fall(&mut self, reason: Reason)
        ensures waiting { self.new.units.waiting ≡ self.old.units.waiting }
        ensures unseen { self.new.units.unseen ≡ self.old.units.unseen }
        ensures rest { self.new ≡ record self.old { units = self.new.units } }
    {
        self.units.note_fall(self.inside.unit, reason);
    }

    /// Whether the body that the sweep is in has no command after this one in the innermost command
    /// that the sweep is in: a hint. It is false outside of all bodies.
    pub fn is_last(&self, command: u32) -> bool {
        let next = self.commands.place(command.saturating_add(1)).command;
        let is_after = next == self.inside.command || next == Some(command);
        self.inside.unit != Unit::Outside && !is_after
    }

    /// The sweep is here again.
    pub fn leave(&mut self, outer: Inside)
        ensures { self.new ≡ record self.old { inside = outer } }
    {
        self.inside = outer;
    }

    /// The next unit, as the units give it.
    ///
    /// # Errors
    ///
    /// If a growth was refused.
    pub fn next_unit(
        &mut self,
        alloc: Global,
        table: &CallTable<'_>,
    ) -> Result<Option<Unit>, AllocError>
        ensures taken { (k : ℕ) → bodies.does_wait self.new.units k ≡ (not (bodies.gives_outside result && (k == 0)) && bodies.does_wait self.old.units k) }
        ensures none { IfOk result (λ unit. unit ≡ None → bodies.does_wait self.old.units 0 ≡ false) }
        ensures seen { IfOk result (λ unit. unit ≡ None → HoldsNowhere (bodies.is_unseen self.old.units) 0 (2 ^ 32)) }
        ensures rest { self.new ≡ record self.old { units = self.new.units } }
    {
        self.units.next(alloc, table, &self.commands)
    }

    /// Has a command wait, and the unit that it is in.
    ///
    /// # Errors
    ///
    /// If a growth was refused. The command waits then too.
    pub fn wait(&mut self, command: u32) -> Result<(), AllocError>
        ensures waits { (k : ℕ) → waits self.new k ≡ ((k == command && nat_lt command (limit self.old)) || waits self.old k) }
        ensures limit { limit self.new ≡ limit self.old }
        ensures unit { (k : ℕ) → bodies.does_wait self.new.units k ≡ ((not (waits self.old command) && (k == bodies.number_of (place_in self.old.commands.places.items command).unit) && nat_lt k (bodies.limit self.old.units)) || bodies.does_wait self.old.units k) }
        ensures rest { self.new ≡ record self.old { commands = self.new.commands; units = self.new.units } }
    {
        wait_one(&mut self.commands, &mut self.units, command)
    }

    /// The commands that call the function of an index, by rising numbers.
    pub fn callers(&self, function: usize) -> &[u32]
        ensures { result.now ≡ callers_in self.now.calls function }
    {
        self.calls.callers(function)
    }

    /// Has each command wait that calls the function of an index.
    ///
    /// # Errors
    ///
    /// If a growth was refused.
    pub fn wait_calls(&mut self, function: usize) -> Result<(), AllocError>
        ensures waits { OnOk result ((k : ℕ) → waits self.new k ≡ ((has_number k (callers_in self.old.calls function) && nat_lt k (limit self.old)) || waits self.old k)) }
        ensures rest { self.new ≡ record self.old { commands = self.new.commands; units = self.new.units } }
    {
        let callers = self.calls.callers(function);
        wait_each(&mut self.commands, &mut self.units, callers)
    }

    /// Has each of these definitions wait, since their function is entered with less.
    ///
    /// # Errors
    ///
    /// If a growth was refused.
    pub fn wait_bodies(&mut self, definitions: &[u32]) -> Result<(), AllocError>
        ensures rest { self.new ≡ record self.old { units = self.new.units } }
        ensures bodies { OnOk result ((k : ℕ) → bodies.does_wait self.new.units k ≡ ((has_number k definitions.now && nat_lt k (bodies.limit self.old.units)) || bodies.does_wait self.old.units k)) }
    {
        for number in definitions {
            self.units.enter(*number)?;
        }
        Ok(())
    }
}

// Has a command wait, and the unit that it is in.
fn wait_one(commands: &mut Commands, units: &mut Units, command: u32) -> Result<(), AllocError>
    ensures waits { (k : ℕ) → is_in commands.new.own k ≡ ((k == command && nat_lt command (limit_of commands.old.own)) || is_in commands.old.own k) }
    ensures limit { limit_of commands.new.own ≡ limit_of commands.old.own }
    ensures unit { (k : ℕ) → bodies.does_wait units.new k ≡ ((not (is_in commands.old.own command) && (k == bodies.number_of (place_in commands.old.places.items command).unit) && nat_lt k (bodies.limit units.old)) || bodies.does_wait units.old k) }
{
    match commands.wait(command) {
        Some(unit) => units.wait(unit),
        None => Ok(()),
    }
}

// Has each of these commands wait.
fn wait_each(commands: &mut Commands, units: &mut Units, numbers: &[u32]) -> Result<(), AllocError>
    ensures { OnOk result ((k : ℕ) → is_in commands.new.own k ≡ ((has_number k numbers.now && nat_lt k (limit_of commands.old.own)) || is_in commands.old.own k)) }
{
    for number in numbers {
        wait_one(commands, units, *number)?;
    }
    Ok(())
}
