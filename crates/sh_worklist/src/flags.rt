//! Sets of numbers, as bits.
ghost use Rattle.std.specs.Prelude.{◌≡◌, ℕ, ◌+◌, ◌*◌, ◌/◌, ◌<◌, ◌≤◌, ◌==◌, ◌&&◌, ◌||◌, true, false, not, nat_lt, length, IfOk, MatchOption};
ghost use Rattle.std.specs.Slice.Scan.{HoldsNowhere};
ghost use Rattle.sh_rows.specs.Numbers.{has_bit};
ghost use Rattle.sh_worklist.specs.Bits.{IsLast, IsNext, is_bit};
ghost use Rattle.sh_worklist.specs.Flags.{is_in, limit_of};

use sh_rows::{is_set, set, unset};
use std::alloc::{AllocError, Global};

/// A set of numbers below a limit, which is a multiple of 64.
#[derive(Drop)]
pub struct Flags {
    words: Vec<u64>,
}

impl Flags {
    /// The empty set, with room for all numbers below a count.
    ///
    /// # Errors
    ///
    /// If a growth was refused.
    pub fn none(alloc: Global, count: usize) -> Result<Flags, AllocError>
        ensures none { IfOk result (λ flags. (k : ℕ) → is_in flags k ≡ false) }
        ensures room { IfOk result (λ flags. count ≤ limit_of flags) }
    {
        let words = vec![in alloc; 0u64; count / 64 + 1]?;
        Ok(Flags { words })
    }

    // Whether a number is below the limit.
    fn has_room(&self, number: u32) -> bool
        ensures { result ≡ nat_lt number (limit_of self.now) }
    {
        (number as usize / 64) < self.words.len()
    }

    /// Whether a number is in the set.
    pub fn has(&self, number: u32) -> bool
        ensures { result ≡ is_in self.now number }
    {
        self.has_room(number) && is_set(self.words.as_slice(), number)
    }

    /// Adds a number that is below the limit.
    pub fn add(&mut self, number: u32)
        ensures numbers { (k : ℕ) → is_in self.new k ≡ ((k == number && nat_lt number (limit_of self.old)) || is_in self.old k) }
        ensures limit { limit_of self.new ≡ limit_of self.old }
    {
        if self.has_room(number) {
            set(self.words.as_mut_slice(), number);
        }
    }

    /// Takes a number out. Returns whether it was in the set.
    pub fn take(&mut self, number: u32) -> bool
        ensures was_in { result ≡ is_in self.old number }
        ensures numbers { (k : ℕ) → is_in self.new k ≡ (not (k == number) && is_in self.old k) }
        ensures limit { limit_of self.new ≡ limit_of self.old }
    {
        let was_in = self.has(number);
        if self.has_room(number) {
            unset(self.words.as_mut_slice(), number);
        }
        was_in
    }

    /// Adds all numbers below the limit.
    pub fn add_all(&mut self)
        ensures numbers { (k : ℕ) → is_in self.new k ≡ nat_lt k (limit_of self.old) }
        ensures limit { limit_of self.new ≡ limit_of self.old }
    {
        set_all(self.words.as_mut_slice());
    }

    /// The least number of the set from one number up to another, both included.
    pub fn next(&self, from: u32, to: u32) -> Option<u32>
        ensures { MatchOption result (HoldsNowhere (is_in self.now) from (to + 1)) (IsNext (is_in self.now) from to) }
    {
        let end = self.words.len().min(to as usize / 64 + 1);
        for index in from as usize / 64..end {
            let first = index as u32 * 64;
            if let Some(place) = lowest(self.words[index], from.saturating_sub(first)) {
                return if first + place <= to {
                    Some(first + place)
                } else {
                    None
                };
            }
        }
        None
    }

    /// The greatest number of the set below a number.
    pub fn last(&self, below: u32) -> Option<u32>
        ensures { MatchOption result (HoldsNowhere (is_in self.now) 0 below) (IsLast (is_in self.now) below) }
    {
        let mut left = self.words.len().min((below as usize).div_ceil(64));
        while left > 0 {
            left -= 1;
            let first = left as u32 * 64;
            if let Some(place) = highest(self.words[left], (below - first).min(64)) {
                return Some(first + place);
            }
        }
        None
    }
}

fn set_all(words: &mut [u64])
    ensures { (k : ℕ) → has_bit k words.new ≡ nat_lt k (64 * length words.old) }
{
    for word in words {
        *word = u64::MAX;
    }
}

// The place of the lowest bit of a word from a place on.
fn lowest(word: u64, from: u32) -> Option<u32>
    requires { from < 64 }
    ensures { MatchOption result (HoldsNowhere (is_bit word) from 64) (IsNext (is_bit word) from 63) }
{
    let rest = word & (u64::MAX << from);
    if rest == 0 {
        None
    } else {
        Some(rest.trailing_zeros())
    }
}

// The place of the highest bit of a word below a place.
fn highest(word: u64, below: u32) -> Option<u32>
    requires low { 0 < below }
    requires high { below ≤ 64 }
    ensures { MatchOption result (HoldsNowhere (is_bit word) 0 below) (IsLast (is_bit word) below) }
{
    let rest = word & (u64::MAX >> (64 - below));
    if rest == 0 {
        None
    } else {
        Some(63 - rest.leading_zeros())
    }
}
