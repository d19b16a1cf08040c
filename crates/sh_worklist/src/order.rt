//! Orders of functions by the calls in their bodies: hints.

use crate::commands::Commands;
use crate::flags::Flags;
use crate::units::{OUTSIDE, Unit};
use sh_table::CallTable;
use std::alloc::{AllocError, Global};

// An edge between functions: one calls the other.
#[derive(Clone, Copy, Debug, PartialEq, Eq)]
struct Edge {
    from: u32,
    to: u32,
}

/// A step of a walk depth first over numbers: to begin with one, or to end with one after those
/// that come before it.
#[derive(Clone, Copy, Debug, PartialEq, Eq)]
pub enum Step {
    Begin(u32),
    End(u32),
}

// A walk depth first along edges.
#[derive(Drop)]
struct Walk {
    // By the functions from which they lead.
    edges: Vec<Edge>,
    // The functions with which it has not begun.
    unseen: Flags,
    // The last is next.
    steps: Vec<Step>,
    // The functions with which it has ended.
    ended: Vec<u32>,
    // Which edge of each function is gone along first.
    first: usize,
}

impl Walk {
    // A walk over so many functions that has not begun.
    fn along(
        alloc: Global,
        mut edges: Vec<Edge>,
        functions: usize,
        first: usize,
    ) -> Result<Walk, AllocError> {
        edges.sort_by_key(|edge| edge.from)?;
        let mut unseen = Flags::none(alloc, functions)?;
        unseen.add_all();
        Ok(Walk {
            edges,
            unseen,
            steps: Vec::new(alloc),
            ended: Vec::new(alloc),
            first,
        })
    }

    // Begins with a function, one of its edges next, then those after it and those before it.
    fn begin(&mut self, function: u32) -> Result<(), AllocError> {
        if !self.unseen.take(function) {
            return Ok(());
        }
        self.steps.push(Step::End(function))?;
        let start = self.edges.partition_point(|edge| edge.from < function);
        let edges = &self.edges[start..];
        let count = edges.partition_point(|edge| edge.from == function);
        let (before, rest) = edges[..count].split_at(self.first.checked_rem(count).unwrap_or(0));
        for edge in before.iter().rev().chain(rest.iter().rev()) {
            self.steps.push(Step::Begin(edge.to))?;
        }
        Ok(())
    }

    // Goes from a function to all that it has not begun with.
    fn go(&mut self, start: u32) -> Result<(), AllocError> {
        self.begin(start)?;
        for _step in 0..u32::MAX {
            match self.steps.pop() {
                Some(Step::Begin(function)) => self.begin(function)?,
                Some(Step::End(function)) => self.ended.push(function)?,
                None => return Ok(()),
            }
        }
        Ok(())
    }
}

// All functions, in the order in which a walk along edges ends with them. It begins with the last
// of these, which are all too.
fn ends(
    alloc: Global,
    edges: Vec<Edge>,
    functions: &[u32],
    first: usize,
) -> Result<Vec<u32>, AllocError> {
    let mut walk = Walk::along(alloc, edges, functions.len(), first)?;
    for function in functions.iter().rev() {
        walk.go(*function)?;
    }
    Ok(walk.ended)
}

// The numbers of all functions and of what is outside, which is the last.
fn numbers(alloc: Global, table: &CallTable<'_>) -> Result<Vec<u32>, AllocError> {
    let mut numbers = Vec::new(alloc);
    for number in (0..table.functions().len() as u32 + 1).rev() {
        numbers.push(number)?;
    }
    Ok(numbers)
}

// The definitions of a function, if there is one of this number.
fn definitions_of<'t>(table: &'t CallTable<'_>, function: u32) -> &'t [u32] {
    if function == OUTSIDE || function as usize > table.functions().len() {
        return &[];
    }
    table.definitions(function)
}

// The definitions of functions in their order.
fn definitions_in(
    alloc: Global,
    table: &CallTable<'_>,
    functions: &[u32],
) -> Result<Vec<u32>, AllocError> {
    let mut definitions = Vec::new(alloc);
    for function in functions {
        definitions.extend_from_slice(definitions_of(table, *function))?;
    }
    Ok(definitions)
}

// The function of each definition, by the numbers of commands.
fn owners(alloc: Global, table: &CallTable<'_>) -> Result<Vec<u32>, AllocError> {
    let mut owners = vec![in alloc; OUTSIDE; table.rows().len() + 1]?;
    for function in 1..table.functions().len() as u32 + 1 {
        for definition in definitions_of(table, function) {
            if let Some(owner) = owners.get_mut(*definition as usize) {
                *owner = function;
            }
        }
    }
    Ok(owners)
}

fn definition_of(commands: &Commands, command: u32) -> u32 {
    match commands.place(command).unit {
        Unit::Outside => OUTSIDE,
        Unit::Body(definition) => definition,
    }
}

// The calls in these bodies, or in all, and those outside: from the functions whose bodies they are
// in to those that they call. Runs need not come to them.
fn calls_of(
    alloc: Global,
    table: &CallTable<'_>,
    commands: &Commands,
    bodies: Option<&Flags>,
) -> Result<Vec<Edge>, AllocError> {
    let owners = owners(alloc, table)?;
    let mut calls = Vec::new(alloc);
    for row in table.rows() {
        if let Some(to) = table.callee(row.number) {
            let definition = definition_of(commands, row.number);
            let owner = owners.get(definition as usize);
            let from = owner.copied().unwrap_or(OUTSIDE);
            if is_among(bodies, definition) {
                calls.push(Edge { from, to })?;
            }
        }
    }
    Ok(calls)
}

// Whether a call counts that is in a definition, or in none.
fn is_among(bodies: Option<&Flags>, definition: u32) -> bool {
    match bodies {
        Some(bodies) => definition == OUTSIDE || bodies.has(definition),
        None => true,
    }
}

// The edges in the other direction.
fn turned(alloc: Global, edges: &[Edge]) -> Result<Vec<Edge>, AllocError> {
    let mut turned = Vec::with_capacity(alloc, edges.len())?;
    for edge in edges {
        turned.push(Edge {
            from: edge.to,
            to: edge.from,
        })?;
    }
    Ok(turned)
}

/// The definitions of all functions in two orders.
#[derive(Drop)]
pub struct Orders {
    /// Those of a function come after those of each function that it calls, unless this one calls
    /// it too. The root of a circle of functions, from which the others are reached, is its last.
    pub by_calls: Vec<u32>,
    /// Those of a circle come before those of each circle that it calls. In a circle, a function
    /// comes after those that call it, unless it calls them too, and the root is the last.
    pub by_callers: Vec<u32>,
}

/// The orders in which two walks depth first end with the functions of a script. One goes along
/// calls, from those outside of functions. Then one goes along callers, and begins with the last
/// function of the first order. Calls count that are in these bodies, in all, or outside. Of each
/// function, the walks go along this one first.
///
/// # Errors
///
/// If a growth was refused.
pub fn in_order(
    alloc: Global,
    table: &CallTable<'_>,
    commands: &Commands,
    bodies: Option<&Flags>,
    first: usize,
) -> Result<Orders, AllocError> {
    let calls = calls_of(alloc, table, commands, bodies)?;
    let callers = turned(alloc, calls.as_slice())?;
    let by_calls = ends(alloc, calls, numbers(alloc, table)?.as_slice(), first)?;
    let by_callers = ends(alloc, callers, by_calls.as_slice(), first)?;
    Ok(Orders {
        by_calls: definitions_in(alloc, table, by_calls.as_slice())?,
        by_callers: definitions_in(alloc, table, by_callers.as_slice())?,
    })
}
