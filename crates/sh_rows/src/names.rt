//! A row as its numbers, rising.
ghost use Rattle.std.specs.Prelude.{◌≡◌, ◌<◌, ◌≤◌, ◌==◌, ℕ, true, filter, not};
ghost use Rattle.std.specs.List.{list_all};
ghost use Rattle.std.specs.List.Sorted.{IsStrictlyIncreasing};
ghost use Rattle.sh_rows.specs.Numbers.{has_number, IsPlace};

use crate::row::Row;
use std::alloc::{AllocError, Global};

/// A row as its numbers, rising: four bytes for each number that is in it.
#[derive(Debug, Drop)]
pub struct NameRow {
    numbers: Vec<u32>,
    count: u32,
    ghost rising: { IsStrictlyIncreasing numbers.items },
    ghost below: { (k : ℕ) → has_number k numbers.items ≡ true → k < count },
}

impl Row for NameRow {
    ghost holds = { λ r k. has_number k r.numbers.items };

    ghost limit = { λ r. r.count };

    fn empty(alloc: Global, count: u32) -> Result<Self, AllocError> {
        Ok(NameRow {
            numbers: Vec::new(alloc),
            count,
        })
    }

    fn copy(&self) -> Result<Self, AllocError> {
        let numbers = self.numbers.clone()?;
        Ok(NameRow {
            numbers,
            count: self.count,
        })
    }

    fn add(&mut self, n: u32) -> Result<(), AllocError> {
        match place_in(&self.numbers, n) {
            Ok(_) => Ok(()),
            Err(at) => {
                self.numbers.insert(at, n)?;
                Ok(())
            }
        }
    }

    fn has(&self, n: u32) -> bool {
        has_in(&self.numbers, n)
    }

    fn clear(&mut self, n: u32) {
        keep_others(&mut self.numbers, n);
    }

    fn remove(&mut self, other: &Self) {
        keep_rest(&mut self.numbers, &other.numbers);
    }

    fn meet(&mut self, other: &Self) {
        keep_common(&mut self.numbers, &other.numbers);
    }

    fn within(&self, other: &Self) -> bool {
        all_in(&self.numbers, &other.numbers)
    }

    ghost below = { λ r k there. r.below k there };
}

// Where a number is, or would be.
fn place_in(numbers: &[u32], n: u32) -> Result<usize, usize>
    requires { IsStrictlyIncreasing numbers.now }
    ensures { IsPlace numbers.now n result }
{
    numbers.binary_search(&n)
}

fn has_in(numbers: &[u32], n: u32) -> bool
    requires { IsStrictlyIncreasing numbers.now }
    ensures { result ≡ has_number n numbers.now }
{
    match place_in(numbers, n) {
        Ok(_) => true,
        Err(_) => false,
    }
}

// Keeps the numbers that are among the others.
fn keep_common(numbers: &mut Vec<u32>, others: &[u32])
    requires { IsStrictlyIncreasing others.now }
    ensures { numbers.new.items ≡ filter (λ n. has_number n others.now) numbers.old.items }
{
    numbers.retain(|n| has_in(others, *n));
}

// Keeps the numbers that are not among the others.
fn keep_rest(numbers: &mut Vec<u32>, others: &[u32])
    requires { IsStrictlyIncreasing others.now }
    ensures { numbers.new.items ≡ filter (λ n. not (has_number n others.now)) numbers.old.items }
{
    numbers.retain(|n| !has_in(others, *n));
}

// Keeps the numbers other than n.
fn keep_others(numbers: &mut Vec<u32>, n: u32)
    ensures { numbers.new.items ≡ filter (λ k. not (k == n)) numbers.old.items }
{
    numbers.retain(|k| *k != n);
}

// Whether each number is among the others.
fn all_in(numbers: &[u32], others: &[u32]) -> bool
    requires { IsStrictlyIncreasing others.now }
    ensures { result ≡ list_all (λ n. has_number n others.now) numbers.now }
{
    numbers.iter().all(|n| has_in(others, *n))
}
