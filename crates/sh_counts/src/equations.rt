//! Equations over counts of positional parameters. They have no set of names (XCU 2.5.1).
ghost use Rattle.std.specs.Prelude.{◌≡◌, ◌++◌, ◌∷◌, [], length, IfOk, OnOk, OnErr};
ghost use Rattle.sh_counts.specs.Equations.{made};
ghost use Rattle.sh_counts.specs.Changes.{Changes, equation};

use crate::courses::Courses;
use std::alloc::{AllocError, Global};

/// An unknown count, by its index among those of its equations.
#[derive(Clone, Copy, Debug, PartialEq, Eq)]
pub struct Count {
    pub index: usize,
}

/// What happens to a count on the way from one place of a script to another.
#[derive(Clone, Copy, Debug, PartialEq, Eq)]
pub enum Change {
    /// There are at least so many afterwards.
    Raise(u16),
    /// So many are gone, or all if there are fewer (`shift`, XCU 2.15).
    Shift(u32),
    /// Words become the parameters, as in `set` or a call: so many give one each, and so many give
    /// all that there were. There are at most 65,535.
    Words { ones: u32, parameters: u32 },
}

/// A count is at most what a change makes of another count, its source. Scripts have many
/// equations, so indices are short.
#[derive(Clone, Copy, Debug, PartialEq, Eq)]
pub struct Equation {
    pub count: u32,
    pub source: u32,
    pub change: Change,
}

/// Unknown counts, and equations over them.
#[derive(Drop)]
pub struct Equations {
    // The bound of each count that no equation gives.
    most: Vec<u16>,
    all: Vec<Equation>,
    // Courses to each count that has an equation, from counts that had none: a hint.
    courses: Vec<Option<Courses>>,
}

impl Change {
    /// The same count.
    pub const NONE: Change = Change::Raise(0);

    /// What the change makes of a count.
    #[tactic(auto, unfolding(crate::specs::Equations::made))]
    pub fn of(self, count: u16) -> u16
        ensures { result ≡ made self count }
    {
        match self {
            Change::Raise(least) => count.max(least),
            Change::Shift(gone) => u32::from(count).saturating_sub(gone) as u16,
            Change::Words { ones, parameters } => {
                let total = u64::from(ones) + u64::from(parameters) * u64::from(count);
                total.min(65_535) as u16
            }
        }
    }
}

// The index of a count, in 32 bits.
fn narrow(count: Count) -> Result<u32, AllocError>
    ensures { IfOk result (λ index. index ≡ count.index) }
{
    match u32::try_from(count.index) {
        Ok(index) => Ok(index),
        Err(_) => Err(AllocError),
    }
}

impl Equations {
    /// No unknown count, and no equation.
    pub fn none(alloc: Global) -> Equations
        ensures most { result.most.items ≡ [] }
        ensures all { result.all.items ≡ [] }
    {
        Equations {
            most: Vec::new(alloc),
            all: Vec::new(alloc),
            courses: Vec::new(alloc),
        }
    }

    /// The bound of each count that no equation gives.
    pub fn most(&self) -> &[u16]
        ensures { result.now ≡ self.now.most.items }
    {
        self.most.as_slice()
    }

    /// The equations.
    pub fn all(&self) -> &[Equation]
        ensures { result.now ≡ self.now.all.items }
    {
        self.all.as_slice()
    }

    // Courses to a count from one that had no equation: from itself, if it has none so far.
    fn courses(&self, count: Count) -> Courses {
        match self.courses.get(count.index) {
            Some(Some(courses)) => *courses,
            _ => Courses::NONE,
        }
    }

    /// The least to which a count falls if it is in a circle, by the equations so far: a hint. Each
    /// of them was gone by once, when it was added.
    pub fn floor(&self, count: Count) -> u16 {
        self.courses(count).falling.floor()
    }

    /// What the equations so far make of zero on the way to a count: a hint, as `floor`.
    pub fn least(&self, count: Count) -> u16 {
        self.courses(count).any.least()
    }

    // Notes courses to a count.
    fn note(&mut self, count: Count, courses: Courses)
        ensures most { self.new.most ≡ self.old.most }
        ensures all { self.new.all ≡ self.old.all }
    {
        if let Some(to) = self.courses.get_mut(count.index) {
            *to = Some(match *to {
                Some(before) => before.or(courses),
                None => courses,
            });
        }
    }

    /// Adds an unknown count of at most so many.
    ///
    /// # Errors
    ///
    /// If a growth was refused. The equations stay.
    pub fn unknown(&mut self, most: u16) -> Result<Count, AllocError>
        ensures fresh { IfOk result (λ count. count.index ≡ length self.old.most.items) }
        ensures most { OnOk result (self.new.most.items ≡ self.old.most.items ++ most ∷ []) }
        ensures err { OnErr result (self.new.most.items ≡ self.old.most.items) }
        ensures all { self.new.all.items ≡ self.old.all.items }
    {
        let index = self.most.len();
        self.courses.push(None::<Courses>)?;
        self.most.push(most)?;
        Ok(Count { index })
    }

    /// Adds the equation that a count is at most what a change makes of the source.
    ///
    /// # Errors
    ///
    /// If a growth was refused, as one beyond 2^32 counts is. The equations stay.
    pub fn bound(&mut self, count: Count, source: Count, change: Change) -> Result<(), AllocError>
        ensures ok { OnOk result (self.new.all.items ≡ self.old.all.items ++ equation count source change ∷ []) }
        ensures err { OnErr result (self.new.all.items ≡ self.old.all.items) }
        ensures most { self.new.most.items ≡ self.old.most.items }
    {
        let courses = self.courses(source).then(change);
        self.note(count, courses);
        let count = narrow(count)?;
        let source = narrow(source)?;
        self.all.push(Equation {
            count,
            source,
            change,
        })?;
        Ok(())
    }

    /// The count that a change makes of the source: the source itself, or a new unknown count with
    /// its equation.
    ///
    /// # Errors
    ///
    /// If a growth was refused.
    pub fn changed(&mut self, source: Count, change: Change) -> Result<Count, AllocError>
        ensures { IfOk result (Changes self.old self.new source change) }
    {
        if change == Change::NONE {
            return Ok(source);
        }
        let count = self.unknown(u16::MAX)?;
        self.bound(count, source, change)?;
        Ok(count)
    }
}
