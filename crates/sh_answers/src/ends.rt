//! The ends of a run: the reader that the script comes from and the writer that the answer goes to.
ghost use Rattle.std.specs.Prelude.{◌≡◌, ℕ, List, length, Option, IsOk};
ghost use Rattle.std.specs.Io.{ReadsAtMost, WritesAtMost};
ghost use Rattle.std.specs.Io.KnownBytes.{ReadConsumes, WriteAppends};
ghost use Rattle.sh_answers.specs.declared.ends.Counts.{Counts};
ghost use Rattle.sh_answers.specs.Ends.{CanCount, counts_after};

/// What went wrong at an end so far, each a number of calls.
#[derive(Clone, Copy, Debug, PartialEq, Eq)]
pub struct Counts {
    /// Errors other than interruptions.
    pub errors: u64,
    /// Interruptions.
    pub interruptions: u64,
    /// Calls that moved no byte though there was room for one.
    pub empty: u64,
}

impl Counts {
    /// Nothing went wrong.
    pub const NONE: Counts = Counts {
        errors: 0,
        interruptions: 0,
        empty: 0,
    };
}

/// Why a call of an end moved no byte.
#[derive(Clone, Copy, Debug, PartialEq, Eq)]
pub enum Broken {
    /// The call was interrupted and may be made again.
    Interrupted,
    /// The end failed.
    Failed,
}

/// A reader that counts what goes wrong.
pub trait Feed {
    // The bytes that pulls will give from here on, if they are known.
    ghost remaining: { Self → Option (List ℕ) };

    ghost tally: { Self → Counts };

    // That no pull from here on fails or is interrupted.
    ghost cannot_fail: { Self → Type 0 } = { λ _. ⊥ };

    /// Puts bytes at the front of the buffer, and answers how many. No byte in a buffer with room
    /// is the end.
    ///
    /// # Errors
    ///
    /// `Interrupted` and `Failed`; then no byte was taken.
    fn pull(&mut self, buffer: &mut [u8]) -> Result<usize, Broken>
        requires { CanCount (tally self.old) }
        ensures bound { ReadsAtMost result buffer.new }
        ensures bytes { ReadConsumes (remaining self.old) (remaining self.new) result buffer.new }
        ensures succeeds { cannot_fail self.old → IsOk result × cannot_fail self.new }
        ensures counts { tally self.new ≡ counts_after result (length buffer.old) (tally self.old) };

    /// What went wrong so far.
    fn counts(&self) -> Counts
        ensures { result ≡ tally self.now };
}

/// A writer that counts what goes wrong.
pub trait Outlet {
    // The bytes that the writer holds, if they are known.
    ghost contents: { Self → Option (List ℕ) };

    ghost tally: { Self → Counts };

    /// Takes bytes from the front of the piece, and answers how many.
    ///
    /// # Errors
    ///
    /// `Interrupted` and `Failed`; then no byte was taken.
    fn push(&mut self, piece: &[u8]) -> Result<usize, Broken>
        requires { CanCount (tally self.old) }
        ensures bound { WritesAtMost result piece.now }
        ensures bytes { WriteAppends (contents self.old) (contents self.new) result piece.now }
        ensures counts { tally self.new ≡ counts_after result (length piece.now) (tally self.old) };

    /// What went wrong so far.
    fn counts(&self) -> Counts
        ensures { result ≡ tally self.now };
}
