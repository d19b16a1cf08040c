//! Lines and columns of a text.
ghost use Rattle.std.specs.Prelude.{◌≡◌, ℕ, ◌<◌, ◌≤◌, ◌^◌, ◌-◌, List, length, slice_index, IfOk};
ghost use Rattle.memchr.specs.Find.{is_byte, places};
ghost use Rattle.std.specs.List.Sorted.{IsPartitionPoint, IsStrictlyIncreasing};
ghost use Rattle.sh_scan.specs.Places.{lines_of, place_of};

use memchr::memchr_iter;
use std::alloc::{AllocError, Global};
use std::marker::Model;

// The last offset that has a place in `u32`.
const LAST: u32 = u32::MAX - 1;

/// Where the lines of a text begin.
#[derive(Debug, Drop)]
pub struct Lines {
    newlines: Vec<usize>,
    end: u32,
}

impl Model for Lines {
    ghost use Rattle.std.specs.Prelude.{◌<◌, ◌-◌, ◌^◌};
    ghost use Rattle.std.specs.List.Sorted.{IsStrictlyIncreasing};
    ghost use Rattle.sh_scan.specs.Places.{Breaks};

    ghost Value = { Breaks };

    ghost view = { λ l. record { newlines = l.newlines.items; end = l.end } };

    ghost invariant = { λ l. IsStrictlyIncreasing l.newlines.items × (l.end < 2 ^ 32 - 1) };
}

impl Lines {
    /// The lines of a text.
    ///
    /// # Errors
    ///
    /// `AllocError` if a growth was refused.
    pub fn new(alloc: Global, script: &[u8]) -> Result<Lines, AllocError>
        ensures { IfOk result (λ l. l ≡ lines_of script.now) }
    {
        let newlines = newlines_of(alloc, script)?;
        let end = script.len().min(LAST as usize) as u32;
        Ok(Lines { newlines, end })
    }

    /// The line and the column of an offset in the text, each from 1; of an offset past the end,
    /// those of the end.
    pub fn place(&self, at: u32) -> (u32, u32)
        ensures { (text : List ℕ) → self.now ≡ lines_of text → length text < 2 ^ 32 - 1 → (result.0, result.1) ≡ place_of text at }
    {
        let at = at.min(self.end);
        let before = count_below(&self.newlines, at as usize);
        let start = match before {
            0 => 0,
            _ => self.newlines[before - 1] as u32 + 1,
        };
        (before as u32 + 1, at - start + 1)
    }
}

fn newlines_of(alloc: Global, script: &[u8]) -> Result<Vec<usize>, AllocError>
    ensures { IfOk result (λ v. v.items ≡ places (is_byte 10) script.now) }
{
    memchr_iter(b'\n', script).collect(alloc)
}

// How many of the rising numbers are below a bound.
fn count_below(rising: &[usize], bound: usize) -> usize
    requires { IsStrictlyIncreasing rising.now }
    ensures within { result ≤ length rising.now }
    ensures few { result ≤ bound }
    ensures last { 0 < result → slice_index rising.now (result - 1) < bound }
    ensures parted { IsPartitionPoint (λ k. k < bound) (λ k. bound ≤ k) rising.now result }
{
    rising.partition_point(|number| *number < bound)
}
