//! Ends for tests that fail, are interrupted or move little.
#![tactic(auto)]

ghost use Rattle.std.specs.Prelude.{◌≡◌};
ghost use Rattle.sh_answers.specs.Ends.{no_counts};

use sh_answers::{Broken, Counts, Feed, Outlet, end_answer};
use std::io::{self, ErrorKind, Read, Write};

/// What a rigged end does at the call of its number.
#[derive(Clone, Copy, Debug, PartialEq, Eq)]
pub enum Trick {
    /// The call fails.
    Fail,
    /// The call moves nothing.
    Refuse,
}

/// An end that moves at most so many bytes a call, and is interrupted at its first calls. It then
/// plays its trick at the call of a number from 1, or never at 0.
#[derive(Drop)]
pub struct Rigged<T> {
    pub inner: T,
    most: usize,
    interrupts: u32,
    call: u32,
    trick: Trick,
    pub counts: Counts,
}

impl<T> Rigged<T> {
    pub fn new(inner: T, most: usize, interrupts: u32, call: u32, trick: Trick) -> Self
        ensures { result.counts ≡ no_counts }
    {
        Rigged {
            inner,
            most,
            interrupts,
            call,
            trick,
            counts: Counts::NONE,
        }
    }
}

// How many bytes a call may move.
fn turn(interrupts: &mut u32, call: &mut u32, trick: Trick, most: usize) -> io::Result<usize> {
    if *interrupts > 0 {
        *interrupts -= 1;
        return Err(ErrorKind::Interrupted.into());
    }
    let is_played = *call == 1;
    *call = call.saturating_sub(1);
    match trick {
        Trick::Fail if is_played => Err(ErrorKind::Other.into()),
        Trick::Refuse if is_played => Ok(0),
        _ => Ok(most),
    }
}

impl<R: Read> Feed for Rigged<R> {
    ghost remaining = { λ r. R.remaining r.inner };

    ghost tally = { λ r. r.counts };

    fn pull(&mut self, buffer: &mut [u8]) -> Result<usize, Broken> {
        let room = buffer.len();
        let answer = match turn(&mut self.interrupts, &mut self.call, self.trick, self.most) {
            Ok(most) => {
                let most = most.max(1).min(room);
                self.inner.read(&mut buffer[..most])
            }
            Err(error) => Err(error),
        };
        end_answer(&mut self.counts, answer, room)
    }

    fn counts(&self) -> Counts {
        self.counts
    }
}

impl<W: Write> Outlet for Rigged<W> {
    ghost contents = { λ r. W.contents r.inner };

    ghost tally = { λ r. r.counts };

    fn push(&mut self, piece: &[u8]) -> Result<usize, Broken> {
        let room = piece.len();
        let answer = match turn(&mut self.interrupts, &mut self.call, self.trick, self.most) {
            Ok(most) => {
                let most = most.min(room);
                self.inner.write(&piece[..most])
            }
            Err(error) => Err(error),
        };
        end_answer(&mut self.counts, answer, room)
    }

    fn counts(&self) -> Counts {
        self.counts
    }
}
