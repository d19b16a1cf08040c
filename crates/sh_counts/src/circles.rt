//! Equations in a circle bound a count by itself.
ghost use Rattle.std.specs.Prelude.{◌≡◌, ◌≤◌, ℕ, IfSome};
ghost use Rattle.sh_counts.specs.Equations.{made};
ghost use Rattle.sh_counts.specs.Ways.{made_by};

use crate::equations::Change;

/// What a row of changes makes of a count: a multiple of it, plus a number, less a number, within a
/// least and a greatest count.
#[derive(Clone, Copy, Debug, PartialEq, Eq)]
pub struct Way {
    times: u32,
    plus: u32,
    minus: u32,
    least: u16,
    most: u16,
    ghost ordered: { least ≤ most },
    ghost bounded: { most ≤ 65535 },
}

impl Way {
    /// The way of one change.
    #[tactic(auto, unfolding(crate::specs::Equations::made))]
    pub fn of(change: Change) -> Way
        ensures { (n : ℕ) → n ≤ 65535 → made_by result.times result.plus result.minus result.least result.most n ≡ made change n }
    {
        match change {
            Change::Raise(least) => Way::line(1, 0, 0, least),
            Change::Shift(gone) => Way::line(1, 0, gone, 0),
            Change::Words { ones, parameters } => Way::line(parameters, ones, 0, 0),
        }
    }

    fn line(times: u32, plus: u32, minus: u32, least: u16) -> Way
        ensures times { result.times ≡ times }
        ensures plus { result.plus ≡ plus }
        ensures minus { result.minus ≡ minus }
        ensures least { result.least ≡ least }
        ensures most { result.most ≡ 65535 }
    {
        Way {
            times,
            plus,
            minus,
            least,
            most: u16::MAX,
        }
    }

    /// What the way makes of a count.
    pub fn made(self, count: u16) -> u16
        ensures { result ≡ made_by self.times self.plus self.minus self.least self.most count }
    {
        let raised = u64::from(self.times) * u64::from(count) + u64::from(self.plus);
        let line = raised.saturating_sub(u64::from(self.minus));
        line.min(u64::from(self.most)).max(u64::from(self.least)) as u16
    }

    /// The way that goes this way first and then makes a change. None if a number overflows.
    pub fn then(self, change: Change) -> Option<Way>
        ensures { IfSome result (λ way. (n : ℕ) → made_by way.times way.plus way.minus way.least way.most n ≡ made change (made_by self.times self.plus self.minus self.least self.most n)) }
    {
        let last = Way::of(change);
        let times = last.times.checked_mul(self.times)?;
        let plus = last.times.checked_mul(self.plus)?.checked_add(last.plus)?;
        let minus = last.times.checked_mul(self.minus)?.checked_add(last.minus)?;
        let least = last.made(self.least);
        let most = last.made(self.most);
        Some(Way {
            times,
            plus,
            minus,
            least,
            most,
        })
    }

    /// A bound of each count up to this one that is at most what the way makes of it. The bound is
    /// what the way makes of this count. If the way lowers that again, it is the least that the way
    /// makes.
    pub fn greatest(self, count: u16) -> u16
        ensures { (n : ℕ) → n ≤ count → n ≤ made_by self.times self.plus self.minus self.least self.most n → n ≤ result }
    {
        let most = self.made(count).min(count);
        if most <= self.made(most) {
            most
        } else {
            self.least
        }
    }
}
