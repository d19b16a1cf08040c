//! Bodies in an order, and which of them wait: hints.

use crate::flags::Flags;
use std::alloc::{AllocError, Global};

// The place of a body that has none.
const NOWHERE: u32 = u32::MAX;

/// Why a body waits: a command in it does, or its function is entered with less.
#[derive(Clone, Copy, Debug, PartialEq, Eq)]
pub enum Reason {
    Inside,
    Entered,
}

/// A direction along an order.
#[derive(Clone, Copy, Debug, PartialEq, Eq)]
pub enum Direction {
    Up,
    Down,
}

/// The bodies of definitions in an order, and those that wait.
#[derive(Drop)]
pub struct Ordered {
    pub bodies: Vec<u32>,
    // By the numbers of definitions.
    places: Vec<u32>,
    // The places of those that wait, for each reason.
    inside: Flags,
    entered: Flags,
}

impl Ordered {
    /// No body, with room for all definitions below a count.
    ///
    /// # Errors
    ///
    /// If a growth was refused.
    pub fn none(alloc: Global, count: usize) -> Result<Ordered, AllocError> {
        Ok(Ordered {
            bodies: Vec::new(alloc),
            places: vec![in alloc; NOWHERE; count]?,
            inside: Flags::none(alloc, count)?,
            entered: Flags::none(alloc, count)?,
        })
    }

    /// Whether a body has a place from this one on.
    pub fn has(&self, definition: u32, from: u32) -> bool {
        let place = self.place(definition);
        place != NOWHERE && place >= from
    }

    fn place(&self, definition: u32) -> u32 {
        let place = self.places.get(definition as usize);
        place.copied().unwrap_or(NOWHERE)
    }

    /// Gives a body the next place. If it waits, it does for both reasons.
    ///
    /// # Errors
    ///
    /// If a growth was refused.
    pub fn push(&mut self, definition: u32, does_wait: bool) -> Result<(), AllocError> {
        let next = u32::try_from(self.bodies.len()).unwrap_or(NOWHERE);
        self.bodies.push(definition)?;
        if let Some(place) = self.places.get_mut(definition as usize) {
            *place = next;
        }
        if does_wait {
            self.inside.add(next);
            self.entered.add(next);
        }
        Ok(())
    }

    /// The bodies that have a place, in another order. Those of a set wait, for both reasons.
    ///
    /// # Errors
    ///
    /// If a growth was refused.
    pub fn anew(
        &self,
        alloc: Global,
        order: &[u32],
        waiting: &Flags,
    ) -> Result<Ordered, AllocError> {
        let mut anew = Ordered::none(alloc, self.places.len())?;
        for definition in order {
            if self.has(*definition, 0) {
                anew.push(*definition, waiting.has(*definition))?;
            }
        }
        Ok(anew)
    }

    /// Has a body wait that has a place.
    pub fn wait(&mut self, definition: u32, reason: Reason) {
        let place = self.place(definition);
        match reason {
            Reason::Inside => self.inside.add(place),
            Reason::Entered => self.entered.add(place),
        }
    }

    /// A body waits no longer.
    pub fn take(&mut self, definition: u32) {
        let place = self.place(definition);
        self.inside.take(place);
        self.entered.take(place);
    }

    /// Has all bodies wait that have a place.
    pub fn wait_all(&mut self) {
        for place in 0..u32::try_from(self.bodies.len()).unwrap_or(NOWHERE) {
            self.inside.add(place);
            self.entered.add(place);
        }
    }

    /// Whether a body has a place that is entered with less.
    pub fn has_entered(&self) -> bool {
        self.entered.next(0, NOWHERE).is_some()
    }

    /// The place of the next body that waits: upwards from a place, which is included, or downwards
    /// below it. A body in which a command waits is taken for both reasons.
    pub fn next(&self, reason: Reason, direction: Direction, place: u32) -> Option<u32> {
        let inside = next_in(&self.inside, direction, place);
        let entered = match reason {
            Reason::Inside => None,
            Reason::Entered => next_in(&self.entered, direction, place),
        };
        match (inside, entered) {
            (Some(inside), Some(entered)) => Some(match direction {
                Direction::Up => inside.min(entered),
                Direction::Down => inside.max(entered),
            }),
            (inside, entered) => inside.or(entered),
        }
    }
}

// The next of these places.
fn next_in(places: &Flags, direction: Direction, place: u32) -> Option<u32> {
    match direction {
        Direction::Up => places.next(place, NOWHERE),
        Direction::Down => places.last(place),
    }
}
