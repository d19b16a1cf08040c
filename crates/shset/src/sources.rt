//! What the program reads: standard input, and files by their names.
ghost use Rattle.std.specs.Prelude.{◌≡◌, ℕ, List, Option, None, Some, [], IfOk, IsErr, IsOk, ⊤};
ghost use Rattle.sh_answers.specs.Ends.{HasRoom};

use sh_answers::{Broken, Counted, Counts, Feed, end_answer};
use std::fs::{self, File};
use std::io::{self, StdinLock};

/// What opens standard input and files.
pub trait Sources {
    /// A reader of standard input.
    type Stream: Feed + Drop;

    /// A file that is open.
    type File: Feed + Drop;

    // The bytes of standard input, if they are known.
    ghost input_bytes: { Self → Option (List ℕ) };

    // The bytes of the file of a name, if they are known.
    ghost file_bytes: { Self → List ℕ → Option (List ℕ) };

    // That no read of standard input fails.
    ghost reads_input: { Self → Type 0 };

    // That the file of a name is opened, and no read of it fails.
    ghost reads_file: { Self → List ℕ → Type 0 };

    // That the file of a name cannot be opened.
    ghost lacks_file: { Self → List ℕ → Type 0 };

    /// Standard input.
    fn input(&self) -> Self::Stream
        ensures bytes { Self.Stream.remaining result ≡ input_bytes self.now }
        ensures room { HasRoom (Self.Stream.tally result) }
        ensures reads { reads_input self.now → Self.Stream.cannot_fail result };

    /// The file of this name.
    ///
    /// # Errors
    ///
    /// If it cannot be opened.
    fn file(&self, name: &str) -> io::Result<Self::File>
        ensures bytes { IfOk result (λ file. Self.File.remaining file ≡ file_bytes self.now name.now) }
        ensures room { IfOk result (λ file. HasRoom (Self.File.tally file)) }
        ensures opens { reads_file self.now name.now → IsOk result }
        ensures lacks { lacks_file self.now name.now → IsErr result }
        ensures reads { IfOk result (λ file. reads_file self.now name.now → Self.File.cannot_fail file) };
}

impl Sources for HostRuntime {
    type Stream = Counted<StdinLock<'static>>;

    type File = Counted<File>;

    ghost input_bytes = { λ _. None };

    ghost file_bytes = { λ _ _. None };

    ghost reads_input = { λ _. ⊥ };

    ghost reads_file = { λ _ _. ⊥ };

    ghost lacks_file = { λ _ _. ⊥ };

    fn input(&self) -> Counted<StdinLock<'static>> {
        Counted::new(self.reader())
    }

    fn file(&self, name: &str) -> io::Result<Counted<File>> {
        let file = fs::open(self, name)?;
        Ok(Counted::new(file))
    }
}

/// A certificate that the line does not name, of which nothing is read.
#[derive(Drop)]
pub struct Nothing {
    counts: Counts,
}

impl Nothing {
    /// One at which nothing went wrong yet.
    pub fn new() -> Nothing
        ensures { HasRoom result.counts }
    {
        Nothing {
            counts: Counts::NONE,
        }
    }
}

impl Feed for Nothing {
    ghost remaining = { λ _. Some [] };

    ghost tally = { λ nothing. nothing.counts };

    ghost cannot_fail = { λ _. ⊤ };

    fn pull(&mut self, buffer: &mut [u8]) -> Result<usize, Broken> {
        end_answer(&mut self.counts, Ok(0), buffer.len())
    }

    fn counts(&self) -> Counts {
        self.counts
    }
}
