//! What falls again and again, so that what looks at it waits until nothing else does: hints.
ghost use Rattle.std.specs.Prelude.{◌≡◌, ◌==◌, ◌&&◌, ◌||◌, ℕ, false, not, nat_lt, IfOk};
ghost use Rattle.sh_worklist.specs.Flags.{is_in, limit_of};

use crate::flags::Flags;
use std::alloc::{AllocError, Global};

// What falls in so many passes is not late, once all that was kept was taken.
const PASSES_AFTER: u32 = 12;

// In how many passes something fell since all that was kept was taken, and in which one last.
#[derive(Clone, Copy, Debug, PartialEq, Eq)]
struct Falls {
    term: u32,
    pass: u32,
    count: u32,
}

/// Numbers of what fell in more than a few passes. It is kept until nothing else waits, so what
/// looks at it is gone over once for many falls.
#[derive(Drop)]
pub struct Late {
    few: u32,
    // How often all that was kept was taken.
    term: u32,
    pass: u32,
    // By the numbers.
    falls: Vec<Falls>,
    kept: Flags,
}

impl Late {
    /// No number below a count. What falls in a few passes is not kept.
    ///
    /// # Errors
    ///
    /// If a growth was refused.
    pub fn none(alloc: Global, count: usize, few: u32) -> Result<Late, AllocError>
        ensures { IfOk result (λ late. (k : ℕ) → is_in late.kept k ≡ false) }
    {
        let never = Falls {
            term: 0,
            pass: 0,
            count: 0,
        };
        Ok(Late {
            few,
            term: 0,
            pass: 1,
            falls: vec![in alloc; never; count]?,
            kept: Flags::none(alloc, count)?,
        })
    }

    /// A pass begins.
    pub fn begin(&mut self)
        ensures { self.new.kept ≡ self.old.kept }
    {
        self.pass = self.pass.saturating_add(1);
    }

    // In how many passes that of a number fell, with this one.
    fn count(&mut self, number: u32) -> u32
        ensures { self.new.kept ≡ self.old.kept }
    {
        let Some(falls) = self.falls.get_mut(number as usize) else {
            return 0;
        };
        let before = if falls.term == self.term {
            falls.count
        } else {
            0
        };
        let is_counted = falls.term == self.term && falls.pass == self.pass;
        *falls = Falls {
            term: self.term,
            pass: self.pass,
            count: before.saturating_add(u32::from(!is_counted)),
        };
        falls.count
    }

    /// That of a number falls. Reports whether it did so in more than a few passes, and so many
    /// more. Then it is kept.
    pub fn keeps(&mut self, number: u32, more: u32) -> bool
        ensures kept { (k : ℕ) → is_in self.new.kept k ≡ ((result && ((k == number) && nat_lt number (limit_of self.old.kept))) || is_in self.old.kept k) }
    {
        let is_late = self.count(number) > self.few.saturating_add(more);
        if is_late {
            self.kept.add(number);
        }
        is_late
    }

    /// Keeps a number.
    pub fn keep(&mut self, number: u32)
        ensures kept { (k : ℕ) → is_in self.new.kept k ≡ ((k == number && nat_lt number (limit_of self.old.kept)) || is_in self.old.kept k) }
    {
        self.kept.add(number);
    }

    /// Takes a number. Reports whether it was kept.
    pub fn take(&mut self, number: u32) -> bool
        ensures was_kept { result ≡ is_in self.old.kept number }
        ensures kept { (k : ℕ) → is_in self.new.kept k ≡ (not (k == number) && is_in self.old.kept k) }
    {
        self.kept.take(number)
    }

    /// All that was kept is taken: what falls from now on is counted anew, and is late after more
    /// passes. Reports whether that is so for the first time.
    pub fn renew(&mut self) -> bool
        ensures { self.new.kept ≡ self.old.kept }
    {
        let is_first = self.term == 0;
        self.term = self.term.saturating_add(1);
        self.few = PASSES_AFTER;
        is_first
    }
}
