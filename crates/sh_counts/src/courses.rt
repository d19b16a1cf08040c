//! How far a count may fall by the changes on the way to it: a hint.

use crate::equations::Change;

/// What a row of changes makes of a count, roughly.
#[derive(Clone, Copy)]
pub struct Course {
    // How many it takes, and how many it adds, each up to 65,535.
    gone: u16,
    added: u16,
    // What it makes of zero.
    least: u16,
}

// A number, or the greatest count.
fn short(number: u32) -> u16 {
    u16::try_from(number).unwrap_or(u16::MAX)
}

impl Course {
    /// No change.
    pub const NONE: Course = Course {
        gone: 0,
        added: 0,
        least: 0,
    };

    /// The course that goes on with a change.
    pub fn then(self, change: Change) -> Course {
        let (gone, added) = match change {
            Change::Raise(_) => (self.gone, self.added),
            Change::Shift(gone) => (self.gone.saturating_add(short(gone)), self.added),
            Change::Words { ones, parameters } => match parameters {
                0 => (u16::MAX, 0),
                1 => (self.gone, self.added.saturating_add(short(ones))),
                _ => (self.gone, u16::MAX),
            },
        };
        let least = change.of(self.least);
        Course { gone, added, least }
    }

    /// What it makes of zero.
    pub fn least(self) -> u16 {
        self.least
    }

    /// The least to which a count falls if the course leads from it to itself.
    pub fn floor(self) -> u16 {
        if self.added < self.gone {
            self.least
        } else {
            u16::MAX
        }
    }
}

/// Two courses to a count.
#[derive(Clone, Copy)]
pub struct Courses {
    /// The one that makes least of zero.
    pub any: Course,
    /// The one with the lowest floor.
    pub falling: Course,
}

impl Courses {
    /// No change.
    pub const NONE: Courses = Courses {
        any: Course::NONE,
        falling: Course::NONE,
    };

    // These, or a course if it is better.
    fn with(self, course: Course) -> Courses {
        Courses {
            any: if course.least < self.any.least {
                course
            } else {
                self.any
            },
            falling: if course.floor() < self.falling.floor() {
                course
            } else {
                self.falling
            },
        }
    }

    /// The better ones.
    pub fn or(self, other: Courses) -> Courses {
        self.with(other.any).with(other.falling)
    }

    /// The courses that go on with a change.
    pub fn then(self, change: Change) -> Courses {
        let any = self.any.then(change);
        Courses { any, falling: any }.with(self.falling.then(change))
    }
}
