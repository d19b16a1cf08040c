//! A row as bits.
ghost use Rattle.std.specs.Prelude.{◌≡◌, ◌<◌, ◌==◌, ◌||◌, ℕ, IsOk, true, length};
ghost use Rattle.std.specs.Int.{div_ceil};
ghost use Rattle.sh_rows.specs.Numbers.{has_bit};

use crate::kernels::{
    copy_words, is_set, meet_words, remove_words, set, unset, within_words, zeros,
};
use crate::row::Row;
use std::alloc::{AllocError, Global};

/// A row as bits. Number n is bit n modulo 64 of word n divided by 64, and the bits past the last
/// number are zero.
///
/// The words are there from the start, one for 64 numbers.
#[derive(Debug, PartialEq, Eq, Hash, Drop)]
pub struct BitRow {
    words: Vec<u64>,
    count: u32,
    ghost sized: { length words.items ≡ div_ceil count 64 },
    ghost below: { (k : ℕ) → has_bit k words.items ≡ true → k < count },
}

impl BitRow {
    /// The words: number n is bit n modulo 64 of word n divided by 64.
    pub fn words(&self) -> &[u64]
        ensures { result.now ≡ self.now.words.items }
    {
        &self.words
    }

    /// Makes the numbers those of these words. It takes no memory.
    pub fn copy_from(&mut self, words: &[u64])
        requires { (k : ℕ) → has_bit k words.now ≡ true → k < self.old.count }
        ensures numbers { (k : ℕ) → has_bit k self.new.words.items ≡ has_bit k words.now }
        ensures count { self.new.count ≡ self.old.count }
    {
        copy_words(&mut self.words, words);
    }
}

impl Row for BitRow {
    ghost holds = { λ r k. has_bit k r.words.items };

    ghost limit = { λ r. r.count };

    fn empty(alloc: Global, count: u32) -> Result<Self, AllocError> {
        let length = (count as usize).div_ceil(64);
        let words = zeros(alloc, length)?;
        Ok(BitRow { words, count })
    }

    fn copy(&self) -> Result<Self, AllocError> {
        let words = self.words.clone()?;
        Ok(BitRow {
            words,
            count: self.count,
        })
    }

    /// Adds `n`. It takes no memory.
    ///
    /// # Errors
    ///
    /// None.
    fn add(&mut self, n: u32) -> Result<(), AllocError>
        requires { n < self.old.count }
        ensures always { IsOk result }
        ensures numbers { (k : ℕ) → has_bit k self.new.words.items ≡ (k == n || has_bit k self.old.words.items) }
        ensures count { self.new.count ≡ self.old.count }
    {
        set(&mut self.words, n);
        Ok(())
    }

    fn has(&self, n: u32) -> bool {
        is_set(&self.words, n)
    }

    fn clear(&mut self, n: u32) {
        unset(&mut self.words, n);
    }

    fn remove(&mut self, other: &Self) {
        remove_words(&mut self.words, &other.words);
    }

    fn meet(&mut self, other: &Self) {
        meet_words(&mut self.words, &other.words);
    }

    fn within(&self, other: &Self) -> bool {
        within_words(&self.words, &other.words)
    }

    ghost below = { λ r k there. r.below k there };
}
