//! A certificate that is lowered.
ghost use Rattle.std.specs.Prelude.{◌≡◌, IfOk};

use crate::subject::Subject;
use sh_domain::{Certificate, Facts, RowId, Rows};
use sh_rows::BitRow;
use sh_worklist::Waiting;
use std::alloc::{AllocError, Global};

/// How often so far something fell, a command was entered with less, and one was looked at that
/// waited. A subshell, a substitution and a called body leave no traces. A part of a pipeline or an
/// asynchronous list leaves no falls.
#[derive(Clone, Copy, Debug, PartialEq, Eq)]
pub struct Traces {
    pub falls: u64,
    pub entries: u64,
    pub looks: u64,
}

impl Traces {
    const NONE: Traces = Traces {
        falls: 0,
        entries: 0,
        looks: 0,
    };
}

/// A certificate that is lowered, and a row by which the rows of others are looked up. So a row
/// that is there takes no memory.
#[derive(Drop)]
pub struct Draft {
    /// The allocator of all memory.
    pub alloc: Global,
    pub certificate: Certificate,
    pub probe: BitRow,
    /// How often it was lowered so far: a hint.
    pub lowered: u64,
    /// What may be new to what comes next: a hint.
    pub traces: Traces,
    /// How often nothing fell at a place except its count of parameters: a hint.
    pub counted: u64,
    /// If counts fell more often than this, they are solved apart: a hint.
    pub rest: u64,
    /// Whether the last that fell was such a count: a hint.
    pub is_count: bool,
    /// If counts alone fall until there are more looks than this, they are solved apart: a hint.
    pub tires: u64,
    /// A sweep leaves a loop after more rounds than these in which counts alone fell: a hint.
    pub rounds: u32,
    /// Whether it has left one: a hint.
    pub has_left: bool,
    /// How often the flow rules of a command or a link were gone through so far: a hint.
    pub looks: u64,
    /// After more looks than this, what is known is carried over utilities: a hint.
    pub patience: u64,
    /// How many of the looks were at bodies that a call had gone over again: a hint.
    pub again: u64,
    /// How often a function was entered so far that had not been: a hint.
    pub entered: u64,
    /// If there are more rows than these, those that no claim has any more are dropped: a hint.
    pub room: usize,
    /// Whether the script may start a process in the background, which sets `!`: a hint.
    pub has_jobs: bool,
    /// The commands that wait to be looked at: a hint.
    pub waiting: Waiting,
}

// A script counts as one of so many commands more.
const MORE: u64 = 8;

// How often counts fall for each command until they are solved apart.
const FALLS: u64 = 4;

// How many looks there are for each command until sweeps carry what is known. A link is a look too.
const LOOKS: u64 = 8;

// How many looks there are for each command until counts that fall alone are solved apart.
const LONE_LOOKS: u64 = 2;

// In so many rounds more counts alone may fall until a sweep leaves a loop, if it was begun anew.
const ROUNDS: u32 = 2;

// How many rows more than twice those that claims have there may be for each command.
const ROWS: usize = 2;

// How many commands more count there.
const MORE_FOR_ROWS: usize = 32;

// Of so many looks, one may be at a body that a call has gone over again.
const AGAIN: u64 = 4;

// If there were more, a call goes over a body again if fewer passes over it began in this course.
const PASSES: u32 = 2;

// How often that is doubled at most.
const MOST_DOUBLED: u32 = 20;

// What of a byte and the one before it may begin an operator or an escape with the next one.
fn left_of(before: u8, byte: u8) -> u8 {
    match (before, byte) {
        (b'\\', _) | (b'&' | b';' | b'<' | b'>', b'&') => b' ',
        _ => byte,
    }
}

// Whether a script may have an item that ends in `&`: one that is not escaped, nor in `&&`, `;&`,
// `<&` or `>&`.
fn has_jobs(script: &[u8]) -> bool {
    let mut before = b' ';
    for byte in script {
        if before == b'&' && *byte != b'&' {
            return true;
        }
        before = left_of(before, *byte);
    }
    before == b'&'
}

// So often more for each of so many commands.
fn after(so_far: u64, commands: usize, times: u64) -> u64 {
    let more = (commands as u64).saturating_add(MORE).saturating_mul(times);
    so_far.saturating_add(more)
}

/// How often the counts of so many commands may fall until they are solved apart, if they fell so
/// often so far: a hint.
pub fn rest_after(counted: u64, commands: usize) -> u64 {
    after(counted, commands, FALLS)
}

/// After more rounds than these in which counts alone fell, a sweep leaves a loop, if it was begun
/// anew so often: a hint. The first sweep follows no count back. Each later one follows counts
/// longer, so a loop whose counts have no equations is left a few times alone.
pub fn rounds_after(begun: u32) -> u32 {
    (ROUNDS << begun.min(MOST_DOUBLED)).saturating_sub(ROUNDS)
}

/// How many looks there may be at so many commands until sweeps carry what is known, if there were
/// so many so far: a hint.
pub fn patience_after(looks: u64, commands: usize) -> u64 {
    after(looks, commands, LOOKS)
}

/// How many looks there may be at so many commands until counts that fall alone are solved apart,
/// if there were so many so far: a hint.
pub fn tires_after(looks: u64, commands: usize) -> u64 {
    after(looks, commands, LONE_LOOKS)
}

/// How many rows there may be of a certificate of so many commands until those that no claim has
/// any more are dropped, if there are so many: a hint.
pub fn room_after(rows: usize, commands: usize) -> usize {
    let more = commands.saturating_add(MORE_FOR_ROWS).saturating_mul(ROWS);
    rows.saturating_mul(2).saturating_add(more)
}

/// How many names are claimed at a place, and how many parameters.
#[derive(Clone, Copy, Debug, PartialEq, Eq)]
pub struct Size {
    pub names: u64,
    pub args: u16,
}

// How many numbers are in the row of a place.
fn size_of(rows: &Rows, id: RowId) -> u64 {
    let Some(row) = rows.row(id) else {
        return 0;
    };
    let mut size: u64 = 0;
    for word in row.words() {
        size = size.saturating_add(u64::from(word.count_ones()));
    }
    size
}

impl Draft {
    /// A certificate of a script whose commands all wait.
    ///
    /// # Errors
    ///
    /// If a growth was refused.
    pub fn new(
        alloc: Global,
        certificate: Certificate,
        probe: BitRow,
        subject: &Subject<'_>,
    ) -> Result<Draft, AllocError>
        ensures certificate { IfOk result (λ draft. draft.certificate ≡ certificate) }
        ensures probe { IfOk result (λ draft. draft.probe ≡ probe) }
    {
        let commands = subject.commands.len();
        let waiting = Waiting::all(alloc, subject.table)?;
        Ok(Draft {
            alloc,
            certificate,
            probe,
            lowered: 0,
            traces: Traces::NONE,
            counted: 0,
            rest: rest_after(0, commands),
            is_count: false,
            tires: tires_after(0, commands),
            rounds: u32::MAX,
            has_left: false,
            looks: 0,
            patience: u64::MAX,
            again: 0,
            entered: 0,
            room: room_after(0, commands),
            has_jobs: has_jobs(subject.script),
            waiting,
        })
    }

    /// Whether the counts fell so often, or alone for so long, that they are to be solved apart: a
    /// hint.
    pub fn is_tired(&self) -> bool {
        self.counted > self.rest || (self.is_count && self.looks > self.tires)
    }

    /// Whether counts are to be solved apart after a sweep: a hint.
    pub fn is_unsolved(&self) -> bool {
        self.has_left || self.is_tired()
    }

    /// Whether a sweep follows a count that fell alone back to what it has gone over: a hint.
    pub fn follows_counts(&self) -> bool {
        self.rounds > 0
    }

    /// Whether sweeps carry what is known over utilities that leave it, and lower nothing there: a
    /// hint.
    pub fn carries(&self) -> bool {
        self.looks > self.patience
    }

    /// How much is claimed at the turns of the loop whose command has this number: a hint. Claims
    /// only fall, so one of the same size is the same, even if its rows are at other places by now.
    pub fn size_at_turns(&self, number: u32) -> Option<Size> {
        let names = u64::MAX;
        match self.certificate.heads.get(&number)? {
            Facts::NotReached => Some(Size {
                names,
                args: u16::MAX,
            }),
            Facts::Known {
                vars,
                functions,
                args,
            } => {
                let vars = size_of(&self.certificate.rows, *vars);
                let functions = size_of(&self.certificate.rows, *functions);
                Some(Size {
                    names: vars.saturating_add(functions),
                    args: *args,
                })
            }
        }
    }

    /// Whether a call goes over a body of the function at once, though a pass over it has ended: a
    /// hint. What it is entered with fell, so what it returns with may fall too. If such passes
    /// took more than a quarter of the looks, a body has two passes in each course at most, so that
    /// one with many callers is not gone over for each.
    pub fn goes_again(&self, definition: u32) -> bool {
        let units = &self.waiting.units;
        let is_rare = self.again <= self.looks / AGAIN || units.passes(definition) < PASSES;
        is_rare && units.waits_again(definition)
    }
}
