//! The order in which the bodies of functions are gone over.
ghost use Rattle.std.specs.Prelude.{◌≡◌, ◌<◌, ◌==◌, ◌^◌, ◌&&◌, ◌||◌, ℕ, true, false, not, nat_lt, length, Some, None, IfOk, IsTrue};
ghost use Rattle.std.specs.Slice.Scan.{HoldsNowhere};
ghost use Rattle.sh_rows.specs.Numbers.{has_number};
ghost use Rattle.sh_worklist.specs.Flags.{is_in, limit_of};
ghost use Rattle.sh_worklist.specs.Units.{does_wait, gives_outside, limit, number_of};
ghost use Rattle.sh_worklist.specs.Units as units;

use crate::commands::Commands;
use crate::flags::Flags;
use crate::order::{Step, in_order};
use crate::ordered::{Direction, Ordered, Reason};
use sh_table::CallTable;
use std::alloc::{AllocError, Global};

/// What is gone over by itself: the commands outside all definitions, or the body of a definition,
/// by the number of its command.
#[derive(Clone, Copy, Debug, PartialEq, Eq)]
pub enum Unit {
    Outside,
    Body(u32),
}

/// The number of the commands outside all definitions, which is that of no command.
pub const OUTSIDE: u32 = 0;

// How many courses there are.
const COURSES: usize = 4;

// To put so many commands in order takes less time than to go over one body.
const COMMANDS: usize = 8;

// In which direction bodies that wait are taken, for which reason, and in which order.
#[derive(Clone, Copy, Debug, PartialEq, Eq)]
enum Course {
    // A command in them waits: those that they call first.
    CalleesFirst,
    // Such ones too: the root of each circle of calls first, and then its callers.
    RootsFirst,
    // Their functions are entered with less, or a command waits: those that call them first.
    CallersFirst,
    // Such ones too: the root of each circle last, and its callers before it.
    RootsLast,
}

// When the bodies are put in order anew.
#[derive(Clone, Copy, Debug, PartialEq, Eq)]
struct Renewal {
    // If more bodies have a place.
    most: usize,
    // After so many bodies more.
    left: usize,
    // How often they were. Each time another call of each function is gone along first, since only
    // some calls hand on what falls.
    count: usize,
}

// How many passes over a body have begun in a course.
#[derive(Clone, Copy, Debug, PartialEq, Eq)]
struct Passes {
    course: u32,
    count: u32,
}

impl Passes {
    const NONE: Passes = Passes {
        course: 0,
        count: 0,
    };
}

/// Which units wait, each at most once, and in which order they are next.
///
/// The first pass goes depth first along calls that are reached. Its ends are the order of the
/// bodies until they are put in order by all calls. Then bodies in which a command waits are taken
/// in both orders by turns. Those that are entered with less come first after that, and with them
/// those in which a command waits, until there are none.
#[derive(Drop)]
pub struct Units {
    // By the numbers of definitions, and by `OUTSIDE` the commands outside.
    waiting: Flags,
    // The definitions whose bodies no pass has begun.
    unseen: Flags,
    // What is left of the first pass. The last is next.
    steps: Vec<Step>,
    by_calls: Ordered,
    by_callers: Ordered,
    course: Course,
    cursor: u32,
    // How many courses there were.
    courses: u32,
    // By the numbers of definitions.
    passes: Vec<Passes>,
    // No call goes again over a body whose place by calls is below this.
    once: u32,
    renewal: Renewal,
    // The definitions in which something fell since the last order, so that others wait, for each
    // reason.
    falls: Flags,
    entries: Flags,
}

impl Units {
    /// All units of a script. The commands outside wait, and each body is unseen.
    ///
    /// # Errors
    ///
    /// If a growth was refused.
    pub fn all(alloc: Global, table: &CallTable<'_>) -> Result<Units, AllocError>
        ensures outside { IfOk result (λ units. does_wait units 0 ≡ true) }
        ensures room { IfOk result (λ units. length table.now.rows < limit units) }
    {
        let count = table.rows().len() + 1;
        let mut waiting = Flags::none(alloc, count)?;
        waiting.add(OUTSIDE);
        Ok(Units {
            waiting,
            unseen: definitions(alloc, table, count)?,
            steps: Vec::new(alloc),
            by_calls: Ordered::none(alloc, count)?,
            by_callers: Ordered::none(alloc, count)?,
            course: Course::CalleesFirst,
            cursor: 0,
            courses: 0,
            passes: vec![in alloc; Passes::NONE; count]?,
            once: 0,
            renewal: Renewal {
                most: 0,
                left: usize::MAX,
                count: 0,
            },
            falls: Flags::none(alloc, count)?,
            entries: Flags::none(alloc, count)?,
        })
    }

    /// Has all units wait that have a place in the order, and the commands outside.
    #[tactic(auto, using(crate::proofs::WaitLemmas::one_more))]
    pub fn wait_all(&mut self)
        ensures waiting { (k : ℕ) → does_wait self.new k ≡ (((has_number k self.old.by_calls.bodies.items || (k == 0)) && nat_lt k (limit self.old)) || does_wait self.old k) }
        ensures unseen { self.new.unseen ≡ self.old.unseen }
    {
        add_each(&mut self.waiting, self.by_calls.bodies.as_slice());
        self.waiting.add(OUTSIDE);
        self.by_calls.wait_all();
        self.by_callers.wait_all();
    }

    /// Has a unit wait, since a command in it does.
    ///
    /// # Errors
    ///
    /// If a growth was refused. The unit waits then too.
    pub fn wait(&mut self, unit: Unit) -> Result<(), AllocError>
        ensures waiting { (k : ℕ) → does_wait self.new k ≡ ((k == number_of unit && nat_lt (number_of unit) (limit self.old)) || does_wait self.old k) }
        ensures limit { limit self.new ≡ limit self.old }
        ensures unseen { self.new.unseen ≡ self.old.unseen }
    {
        match unit {
            Unit::Outside => {
                self.waiting.add(OUTSIDE);
                Ok(())
            }
            Unit::Body(definition) => self.wait_for(definition, Reason::Inside),
        }
    }

    /// Has a body wait, since the function is entered with less.
    ///
    /// # Errors
    ///
    /// If a growth was refused. The body waits then too.
    pub fn enter(&mut self, definition: u32) -> Result<(), AllocError>
        ensures waiting { (k : ℕ) → does_wait self.new k ≡ ((k == definition && nat_lt definition (limit self.old)) || does_wait self.old k) }
        ensures limit { limit self.new ≡ limit self.old }
        ensures unseen { self.new.unseen ≡ self.old.unseen }
    {
        self.wait_for(definition, Reason::Entered)
    }

    // Has a body wait. If no pass over it has begun, it is next.
    fn wait_for(&mut self, definition: u32, reason: Reason) -> Result<(), AllocError>
        ensures waiting { (k : ℕ) → does_wait self.new k ≡ ((k == definition && nat_lt definition (limit self.old)) || does_wait self.old k) }
        ensures limit { limit self.new ≡ limit self.old }
        ensures unseen { self.new.unseen ≡ self.old.unseen }
    {
        self.by_calls.wait(definition, reason);
        self.by_callers.wait(definition, reason);
        if self.waiting.has(definition) {
            return Ok(());
        }
        self.waiting.add(definition);
        if self.unseen.has(definition) {
            self.steps.push(Step::Begin(definition))?;
        }
        Ok(())
    }

    /// Notes that something fell in a unit, so that bodies wait for this reason: a hint.
    pub fn note_fall(&mut self, unit: Unit, reason: Reason)
        ensures waiting { self.new.waiting ≡ self.old.waiting }
        ensures unseen { self.new.unseen ≡ self.old.unseen }
    {
        if let Unit::Body(definition) = unit {
            match reason {
                Reason::Inside => self.falls.add(definition),
                Reason::Entered => self.entries.add(definition),
            }
        }
    }

    /// Whether no pass over a body has begun.
    pub fn is_unseen(&self, definition: u32) -> bool
        ensures { result ≡ units.is_unseen self.now definition }
    {
        self.unseen.has(definition)
    }

    /// Whether a body waits over which a pass has ended, and a call may go over it again. None may
    /// that was put in order until that was gone up once: what it calls comes before it there.
    pub fn waits_again(&self, definition: u32) -> bool
        ensures { IsTrue result → does_wait self.now definition ≡ true }
    {
        self.by_calls.has(definition, self.once) && self.waiting.has(definition)
    }

    /// How many passes over a body have begun in this course: a hint.
    pub fn passes(&self, definition: u32) -> u32 {
        match self.passes.get(definition as usize) {
            Some(passes) if passes.course == self.courses => passes.count,
            _ => 0,
        }
    }

    /// How often as many courses began as there are: a hint.
    pub fn rounds(&self) -> u32 {
        self.courses / COURSES as u32
    }

    /// A pass over a body begins. The body waits no longer.
    ///
    /// # Errors
    ///
    /// If a growth was refused. The body waits no longer then too.
    pub fn begin(&mut self, definition: u32) -> Result<(), AllocError>
        ensures waiting { (k : ℕ) → does_wait self.new k ≡ (not (k == definition) && does_wait self.old k) }
        ensures unseen { (k : ℕ) → units.is_unseen self.new k ≡ (not (k == definition) && units.is_unseen self.old k) }
        ensures limit { limit self.new ≡ limit self.old }
    {
        let count = self.passes(definition).saturating_add(1);
        if let Some(passes) = self.passes.get_mut(definition as usize) {
            *passes = Passes {
                course: self.courses,
                count,
            };
        }
        self.waiting.take(definition);
        self.by_calls.take(definition);
        self.by_callers.take(definition);
        if self.unseen.take(definition) {
            self.steps.push(Step::End(definition))?;
        }
        Ok(())
    }

    /// A pass over a body has ended. The body has its place in the order if all that it calls have.
    ///
    /// # Errors
    ///
    /// If a growth was refused.
    pub fn end(&mut self, definition: u32) -> Result<(), AllocError>
        ensures waiting { self.new.waiting ≡ self.old.waiting }
        ensures unseen { self.new.unseen ≡ self.old.unseen }
    {
        let is_last = match self.steps.as_slice() {
            [.., last] => *last == Step::End(definition),
            [] => false,
        };
        if !is_last {
            return Ok(());
        }
        self.steps.pop();
        self.place(definition)
    }

    // Gives a body the next place in both orders.
    fn place(&mut self, definition: u32) -> Result<(), AllocError>
        ensures waiting { self.new.waiting ≡ self.old.waiting }
        ensures unseen { self.new.unseen ≡ self.old.unseen }
        ensures steps { self.new.steps ≡ self.old.steps }
    {
        let does_wait = self.waiting.has(definition);
        self.by_calls.push(definition, does_wait)?;
        self.by_callers.push(definition, does_wait)
    }

    // A body that a call has entered and no pass has begun.
    fn next_found(&mut self) -> Result<Option<u32>, AllocError>
        ensures waiting { self.new.waiting ≡ self.old.waiting }
        ensures unseen { self.new.unseen ≡ self.old.unseen }
    {
        while let Some(step) = self.steps.pop() {
            match step {
                Step::End(definition) => self.place(definition)?,
                Step::Begin(definition) => {
                    if self.is_unseen(definition) {
                        return Ok(Some(definition));
                    }
                }
            }
        }
        Ok(None)
    }

    // Puts the bodies in order by all calls, if there are more than twice as many as before. If many
    // were taken since, and both orders were gone through, it is by the calls in those in which
    // something fell.
    fn put_in_order(
        &mut self,
        alloc: Global,
        table: &CallTable<'_>,
        commands: &Commands,
    ) -> Result<(), AllocError>
        ensures waiting { self.new.waiting ≡ self.old.waiting }
        ensures unseen { self.new.unseen ≡ self.old.unseen }
    {
        let count = self.by_calls.bodies.len();
        let is_grown = count > self.renewal.most;
        if is_grown {
            self.take_course(Course::CalleesFirst);
            self.once = u32::try_from(count).unwrap_or(u32::MAX);
            self.renewal.most = count.saturating_mul(2);
        } else if self.renewal.left == 0 && self.is_through() {
            self.turn();
        } else {
            return Ok(());
        }
        let bodies = if is_grown { None } else { Some(self.falling()) };
        let orders = in_order(alloc, table, commands, bodies, self.renewal.count)?;
        self.by_calls = self
            .by_calls
            .anew(alloc, orders.by_calls.as_slice(), &self.waiting)?;
        self.by_callers = self
            .by_callers
            .anew(alloc, orders.by_callers.as_slice(), &self.waiting)?;
        let count = table.rows().len();
        self.renewal.left = self.renewal.most.saturating_add(count / COMMANDS);
        self.renewal.count = self.renewal.count.saturating_add(1);
        self.falls = Flags::none(alloc, count + 1)?;
        self.entries = Flags::none(alloc, count + 1)?;
        Ok(())
    }

    // The definitions in which something fell, for the reason for which bodies are taken.
    fn falling(&self) -> &Flags {
        match self.course {
            Course::CalleesFirst | Course::RootsFirst => &self.falls,
            Course::CallersFirst | Course::RootsLast => &self.entries,
        }
    }

    // Whether both orders were gone through for a reason.
    fn is_through(&self) -> bool {
        matches!(self.course, Course::RootsFirst | Course::RootsLast) && self.ahead().1.is_none()
    }

    // Begins with a course at its end of the order.
    fn take_course(&mut self, course: Course)
        ensures waiting { self.new.waiting ≡ self.old.waiting }
        ensures unseen { self.new.unseen ≡ self.old.unseen }
    {
        if course == Course::CallersFirst {
            self.once = 0;
        }
        self.courses = self.courses.saturating_add(1);
        self.course = course;
        self.cursor = match course {
            Course::CalleesFirst | Course::RootsLast => 0,
            Course::RootsFirst | Course::CallersFirst => u32::MAX,
        };
    }

    // Goes on in the other order, or begins a round. Those entered with less come first, since what
    // a body is entered with may change what it drops.
    fn turn(&mut self)
        ensures waiting { self.new.waiting ≡ self.old.waiting }
        ensures unseen { self.new.unseen ≡ self.old.unseen }
    {
        let course = match self.course {
            Course::CalleesFirst => Course::RootsFirst,
            Course::CallersFirst => Course::RootsLast,
            _ if self.by_calls.has_entered() => Course::CallersFirst,
            _ => Course::CalleesFirst,
        };
        self.take_course(course);
    }

    // The order of a course, and the place there of the next body that waits.
    fn ahead(&self) -> (&Ordered, Option<u32>) {
        let (ordered, reason, direction) = match self.course {
            Course::CalleesFirst => (&self.by_calls, Reason::Inside, Direction::Up),
            Course::RootsFirst => (&self.by_callers, Reason::Inside, Direction::Down),
            Course::CallersFirst => (&self.by_calls, Reason::Entered, Direction::Down),
            Course::RootsLast => (&self.by_callers, Reason::Entered, Direction::Up),
        };
        (ordered, ordered.next(reason, direction, self.cursor))
    }

    // A body that waits, by the order.
    fn next_in_order(&mut self) -> Option<u32>
        ensures waiting { self.new.waiting ≡ self.old.waiting }
        ensures unseen { self.new.unseen ≡ self.old.unseen }
    {
        for _course in 0..COURSES {
            if let (ordered, Some(place)) = self.ahead() {
                let body = ordered.bodies.get(place as usize).copied();
                self.cursor = place;
                self.renewal.left = self.renewal.left.saturating_sub(1);
                return body;
            }
            self.turn();
        }
        None
    }

    /// The next unit, if one waits or a body is unseen. The commands outside wait no longer if they
    /// are next; a body waits until a pass over it begins.
    ///
    /// # Errors
    ///
    /// If a growth was refused.
    pub fn next(
        &mut self,
        alloc: Global,
        table: &CallTable<'_>,
        commands: &Commands,
    ) -> Result<Option<Unit>, AllocError>
        ensures outside { gives_outside result ≡ true → does_wait self.old 0 ≡ true }
        ensures taken { (k : ℕ) → does_wait self.new k ≡ (not (gives_outside result && (k == 0)) && does_wait self.old k) }
        ensures limit { limit self.new ≡ limit self.old }
        ensures unseen { self.new.unseen ≡ self.old.unseen }
        ensures none { IfOk result (λ unit. unit ≡ None → does_wait self.old 0 ≡ false) }
        ensures seen { IfOk result (λ unit. unit ≡ None → HoldsNowhere (units.is_unseen self.old) 0 (2 ^ 32)) }
    {
        if self.by_calls.bodies.is_empty() && self.waiting.take(OUTSIDE) {
            return Ok(Some(Unit::Outside));
        }
        if let Some(definition) = self.next_found()? {
            return Ok(Some(Unit::Body(definition)));
        }
        self.put_in_order(alloc, table, commands)?;
        if let Some(definition) = self.next_in_order() {
            return Ok(Some(Unit::Body(definition)));
        }
        if self.waiting.take(OUTSIDE) {
            return Ok(Some(Unit::Outside));
        }
        Ok(self.unseen.next(0, u32::MAX).map(Unit::Body))
    }
}

// The commands below a count that define functions.
fn definitions(alloc: Global, table: &CallTable<'_>, count: usize) -> Result<Flags, AllocError> {
    let mut numbers = Flags::none(alloc, count)?;
    for function in 0..table.functions().len() {
        add_each(&mut numbers, table.definitions(function as u32 + 1));
    }
    Ok(numbers)
}

fn add_each(flags: &mut Flags, numbers: &[u32])
    ensures numbers { (k : ℕ) → is_in flags.new k ≡ ((has_number k numbers.now && nat_lt k (limit_of flags.old)) || is_in flags.old k) }
    ensures limit { limit_of flags.new ≡ limit_of flags.old }
{
    for number in numbers {
        flags.add(*number);
    }
}
