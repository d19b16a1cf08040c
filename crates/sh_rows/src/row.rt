//! What a row is: a set of numbers below a count, and what each of its operations makes of that
//! set.
ghost use Rattle.std.specs.Prelude.{◌≡◌, ℕ, ◌<◌, ◌&&◌, ◌||◌, ◌==◌, ◌↔◌, Bool, true, false, not, IfOk, IsOk, OnOk, OnErr, IsTrue};

use std::alloc::{AllocError, Global};

/// A set of numbers below a count.
///
/// What is proved of code over any `Row` holds at each row. The two rows of a call may have
/// different counts: each is the set of its numbers. Only `empty`, `copy` and `add` take memory.
pub trait Row: Sized {
    // Whether a number is in the set.
    ghost holds: { Self → ℕ → Bool };

    // The count that its numbers are below.
    ghost limit: { Self → ℕ };

    /// The set of no number, of numbers below `count`.
    ///
    /// # Errors
    ///
    /// `AllocError` if a growth was refused.
    fn empty(alloc: Global, count: u32) -> Result<Self, AllocError>
        ensures numbers { IfOk result (λ r. (k : ℕ) → holds r k ≡ false) }
        ensures limit { IfOk result (λ r. Self.limit r ≡ count) };

    /// The same set once more.
    ///
    /// # Errors
    ///
    /// `AllocError` if a growth was refused.
    fn copy(&self) -> Result<Self, AllocError>
        ensures numbers { IfOk result (λ r. (k : ℕ) → holds r k ≡ holds self.now k) }
        ensures limit { IfOk result (λ r. Self.limit r ≡ Self.limit self.now) };

    /// Adds `n`.
    ///
    /// # Errors
    ///
    /// `AllocError` if a growth was refused, and never for a number of the set; the set stays.
    fn add(&mut self, n: u32) -> Result<(), AllocError>
        requires { n < Self.limit self.old }
        ensures ok { OnOk result ((k : ℕ) → holds self.new k ≡ (k == n || holds self.old k)) }
        ensures err { OnErr result ((k : ℕ) → holds self.new k ≡ holds self.old k) }
        ensures there { holds self.old n ≡ true → IsOk result }
        ensures limit { Self.limit self.new ≡ Self.limit self.old };

    /// Whether `n` is in the set.
    fn has(&self, n: u32) -> bool
        requires { n < Self.limit self.now }
        ensures { result ≡ holds self.now n };

    /// Takes `n` out.
    fn clear(&mut self, n: u32)
        requires { n < Self.limit self.old }
        ensures numbers { (k : ℕ) → holds self.new k ≡ (not (k == n) && holds self.old k) }
        ensures limit { Self.limit self.new ≡ Self.limit self.old };

    /// Takes out the numbers of `other`.
    fn remove(&mut self, other: &Self)
        ensures numbers { (k : ℕ) → holds self.new k ≡ (not (holds other.now k) && holds self.old k) }
        ensures limit { Self.limit self.new ≡ Self.limit self.old };

    /// Takes out the numbers that are not in `other`.
    fn meet(&mut self, other: &Self)
        ensures numbers { (k : ℕ) → holds self.new k ≡ (holds other.now k && holds self.old k) }
        ensures limit { Self.limit self.new ≡ Self.limit self.old };

    /// Whether each number is in `other`.
    fn within(&self, other: &Self) -> bool
        ensures { IsTrue result ↔ ((k : ℕ) → holds self.now k ≡ true → holds other.now k ≡ true) };

    // No number is at or past the count.
    ghost below: { (r : Self) (k : ℕ) → holds r k ≡ true → k < limit r };
}
