//! An end over any reader or writer of std.
ghost use Rattle.std.specs.Prelude.{◌≡◌, ◌↔◌};
ghost use Rattle.std.specs.declared.io.ErrorKind.TheVariants as error_kind;
ghost use Rattle.sh_answers.specs.Ends.{CanCount, Tells, counts_after, no_counts};

use crate::ends::{Broken, Counts, Feed, Outlet};
use std::io::{self, ErrorKind, Read, Write};

/// A reader or a writer, and what went wrong at it.
#[derive(Drop)]
pub struct Counted<T> {
    pub inner: T,
    pub counts: Counts,
}

impl<T> Counted<T> {
    /// The end, at which nothing went wrong yet.
    pub fn new(inner: T) -> Self
        ensures inner { result.inner ≡ inner }
        ensures fresh { result.counts ≡ no_counts }
    {
        Counted {
            inner,
            counts: Counts::NONE,
        }
    }
}

// Notes what a call answered that had room for so many bytes.
fn note(counts: &mut Counts, answer: Result<usize, Broken>, room: usize)
    requires { CanCount counts.old }
    ensures { counts.new ≡ counts_after answer room counts.old }
{
    match answer {
        Ok(n) => {
            if n == 0 && room != 0 {
                counts.empty += 1;
            }
        }
        Err(Broken::Interrupted) => counts.interruptions += 1,
        Err(Broken::Failed) => counts.errors += 1,
    }
}

fn broken_of(kind: ErrorKind) -> Broken
    ensures { (result ≡ Broken.Interrupted) ↔ (kind ≡ error_kind.Interrupted) }
{
    match kind {
        ErrorKind::Interrupted => Broken::Interrupted,
        _ => Broken::Failed,
    }
}

/// What an end answers if its reader or writer, which had room for so many bytes, answered this. An
/// error that may be tried again is an interruption, and each other one a failure. What went wrong
/// is counted.
pub fn end_answer(
    counts: &mut Counts,
    answer: io::Result<usize>,
    room: usize,
) -> Result<usize, Broken>
    requires { CanCount counts.old }
    ensures told { Tells answer result }
    ensures counts { counts.new ≡ counts_after result room counts.old }
{
    let answer = match answer {
        Ok(n) => Ok(n),
        Err(error) => Err(broken_of(error.kind())),
    };
    note(counts, answer, room);
    answer
}

impl<R: Read> Feed for Counted<R> {
    ghost remaining = { λ c. R.remaining c.inner };

    ghost tally = { λ c. c.counts };

    fn pull(&mut self, buffer: &mut [u8]) -> Result<usize, Broken> {
        let room = buffer.len();
        let answer = self.inner.read(buffer);
        end_answer(&mut self.counts, answer, room)
    }

    fn counts(&self) -> Counts {
        self.counts
    }
}

impl<W: Write> Outlet for Counted<W> {
    ghost contents = { λ c. W.contents c.inner };

    ghost tally = { λ c. c.counts };

    fn push(&mut self, piece: &[u8]) -> Result<usize, Broken> {
        let room = piece.len();
        let answer = self.inner.write(piece);
        end_answer(&mut self.counts, answer, room)
    }

    fn counts(&self) -> Counts {
        self.counts
    }
}
