//! The order in which counts that fell take their turns: a hint.

use crate::users::Users;
use std::alloc::{AllocError, Global};

/// The places of so many counts in an order in which each comes after those that its equations
/// take from, except round a circle: the reverse postorder of a depth-first search along the
/// equations.
///
/// # Errors
///
/// If a growth was refused.
pub fn places(alloc: Global, users: &Users<'_>, counts: usize) -> Result<Vec<u32>, AllocError> {
    let mut search = Search {
        seen: vec![in alloc; false; counts]?,
        path: Vec::new(alloc),
        left: Vec::new(alloc),
    };
    for index in 0..u32::try_from(counts).unwrap_or(u32::MAX) {
        search.go_from(users, index)?;
    }
    let mut counts = search.left;
    counts.reverse();
    places_of(alloc, counts.as_slice())
}

// A depth-first search from count to count along equations.
#[derive(Drop)]
struct Search {
    seen: Vec<bool>,
    // The counts that the search is in, each with how many of its equations it took.
    path: Vec<(u32, u32)>,
    // The counts that it has left.
    left: Vec<u32>,
}

impl Search {
    // Goes into a count, unless it was there.
    fn enter(&mut self, index: u32) -> Result<(), AllocError> {
        let at = index as usize;
        if at < self.seen.len() && !self.seen[at] {
            self.seen[at] = true;
            self.path.push((index, 0))?;
        }
        Ok(())
    }

    // Takes one equation of the innermost count, or leaves that. Returns whether it was in one.
    fn step(&mut self, users: &Users<'_>) -> Result<bool, AllocError> {
        let Some((index, taken)) = self.path.pop() else {
            return Ok(false);
        };
        match users.get(index, taken) {
            Some(equation) => {
                self.path.push((index, taken.saturating_add(1)))?;
                self.enter(equation.count)?;
            }
            None => self.left.push(index)?,
        }
        Ok(true)
    }

    // Goes from a count to all that it has not met.
    fn go_from(&mut self, users: &Users<'_>, index: u32) -> Result<(), AllocError> {
        self.enter(index)?;
        for _ in 0..u64::MAX {
            if !self.step(users)? {
                break;
            }
        }
        Ok(())
    }
}

// The place of each of these counts.
fn places_of(alloc: Global, counts: &[u32]) -> Result<Vec<u32>, AllocError> {
    let mut places = vec![in alloc; 0u32; counts.len()]?;
    let mut place = 0u32;
    for index in counts {
        if let Some(to) = places.get_mut(*index as usize) {
            *to = place;
        }
        place = place.saturating_add(1);
    }
    Ok(places)
}
