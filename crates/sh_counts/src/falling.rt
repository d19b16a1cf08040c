//! The greatest counts that equations allow, by a queue of the counts that fell.
ghost use Rattle.std.specs.Prelude.{◌≡◌, ◌<◌, ◌≤◌, ◌^◌, ℕ, true, false, length, sum, replicate, IfOk, IfSome, IfNone, OnOk, slice_set};
ghost use Rattle.std.specs.List.{All};
ghost use Rattle.sh_counts.specs.declared.equations.Equations as declared;
ghost use Rattle.sh_counts.specs.Equations.{IsGreatest, Solution, made, worth};
ghost use Rattle.sh_counts.specs.Falls.{Fell, Follows, IsSettled, Leads, StaysSound};
ghost use Rattle.sh_counts.specs.Heads.{AreLed};

use crate::bounded::{Bounded, Reach};
use crate::circles::Way;
use crate::equations::{Equation, Equations};
use crate::order::places;
use crate::users::Users;
use std::alloc::{AllocError, Global};
use std::cmp::Reverse;
use std::collections::BinaryHeap;

/// When a count that fell has its turn.
#[derive(Clone, Copy, PartialEq, Eq, PartialOrd, Ord)]
struct Turn {
    round: u64,
    rank: u32,
    index: u32,
}

/// Counts that only fall, and a queue of those that fell and wait.
#[derive(Drop)]
struct Falling {
    counts: Vec<u16>,
    // The equation by which each count fell last: a hint. Its source alone does not tell, since
    // `set -- $x "$@"` bounds a count by two changes of one source.
    reasons: Vec<Option<Equation>>,
    // The turns of those that wait: a hint. One that falls again has one more, and takes the first.
    queue: BinaryHeap<Reverse<Turn>>,
    // The place of each count in an order.
    places: Vec<u32>,
    // Which counts wait. It is empty before there is an order, and then none does.
    waiting: Vec<bool>,
    // The last turn.
    turn: Turn,
    // How often a count fell since circles were looked for.
    falls: usize,
    // Whether the last look went by all equations, and not by reasons alone.
    is_wide: bool,
}

impl Falling {
    // Counts that do not wait yet if they fall.
    fn new(alloc: Global, most: &[u16]) -> Result<Falling, AllocError>
        ensures { IfOk result (λ falling. falling.counts.items ≡ most.now) }
    {
        let counts = Vec::from_slice(alloc, most)?;
        let reasons = vec![in alloc; None::<Equation>; most.len()]?;
        Ok(Falling {
            counts,
            reasons,
            queue: BinaryHeap::new(alloc),
            places: Vec::new(alloc),
            waiting: Vec::new(alloc),
            turn: Turn {
                round: 0,
                rank: 0,
                index: 0,
            },
            falls: 0,
            is_wide: true,
        })
    }

    fn count(&self, index: u32) -> u16
        ensures { result ≡ worth self.now.counts.items index }
    {
        match self.counts.get(index as usize) {
            Some(number) => *number,
            None => u16::MAX,
        }
    }

    fn reason(&self, index: u32) -> Option<Equation> {
        match self.reasons.get(index as usize) {
            Some(reason) => *reason,
            None => None,
        }
    }

    // The turn of a count in a round. By turns, rounds go by places and by numbers, from the least
    // on. The first suit falls from place to place, the others those against the order.
    fn turn_in(&self, round: u64, index: u32) -> Turn {
        let rank = if round.is_multiple_of(2) {
            self.places.get(index as usize).copied().unwrap_or(0)
        } else {
            u32::from(self.count(index))
        };
        Turn { round, rank, index }
    }

    // The next turn of a count.
    fn next_turn(&self, index: u32) -> Turn {
        let turn = self.turn_in(self.turn.round, index);
        if turn.rank < self.turn.rank {
            self.turn_in(self.turn.round.saturating_add(1), index)
        } else {
            turn
        }
    }

    // Notes whether a count waits. Returns whether it did, if there is an order.
    fn set_waiting(&mut self, index: u32, waits: bool) -> Option<bool>
        ensures { self.new.counts ≡ self.old.counts }
    {
        let to = self.waiting.get_mut(index as usize)?;
        let before = *to;
        *to = waits;
        Some(before)
    }

    // Puts a count that fell into the queue, if there is an order.
    fn wait(&mut self, index: u32) -> Result<(), AllocError>
        ensures { self.new.counts ≡ self.old.counts }
    {
        if self.set_waiting(index, true).is_some() {
            let turn = self.next_turn(index);
            self.queue.push(Reverse(turn))?;
        }
        Ok(())
    }

    // Takes the count whose turn is next from the queue. Returns it with whether it waits.
    fn take(&mut self) -> Option<(u32, bool)>
        ensures { self.new.counts ≡ self.old.counts }
    {
        let Reverse(turn) = self.queue.pop()?;
        self.turn = turn;
        let waits = self.set_waiting(turn.index, false) == Some(true);
        Some((turn.index, waits))
    }

    // Lowers a count.
    fn put(&mut self, index: u32, to: u16) -> Result<(), AllocError>
        requires { index < length self.old.counts.items }
        ensures { OnOk result (self.new.counts.items ≡ slice_set self.old.counts.items index to) }
    {
        self.counts[index as usize] = to;
        self.falls = self.falls.saturating_add(1);
        self.wait(index)
    }

    // Notes by which equation a count fell.
    fn note(&mut self, equation: Equation)
        ensures { self.new.counts ≡ self.old.counts }
    {
        if let Some(reason) = self.reasons.get_mut(equation.count as usize) {
            *reason = Some(equation);
        }
    }

    // What an equation lowers its count to, if it does.
    fn lowered(&self, equation: Equation) -> Option<u16>
        ensures given { IfSome result (λ n. n ≡ made equation.change (worth self.now.counts.items equation.source)) }
        ensures there { IfSome result (λ n. equation.count < length self.now.counts.items) }
        ensures less { IfSome result (λ n. n < worth self.now.counts.items equation.count) }
        ensures none { IfNone result (equation.count < length self.now.counts.items → worth self.now.counts.items equation.count ≤ made equation.change (worth self.now.counts.items equation.source)) }
    {
        let given = equation.change.of(self.count(equation.source));
        if (equation.count as usize) < self.counts.len() && given < self.count(equation.count) {
            Some(given)
        } else {
            None
        }
    }

    // Lowers a count to what an equation gives. Returns whether it fell.
    fn lower(&mut self, equation: Equation) -> Result<bool, AllocError>
        ensures sound { OnOk result ((es : declared.Equations) → Follows es equation → StaysSound es self.old self.new) }
        ensures fell { OnOk result (Fell self.old.counts.items self.new.counts.items) }
        ensures less { IfOk result (λ b. b ≡ true → sum self.new.counts.items < sum self.old.counts.items) }
        ensures same { IfOk result (λ b. b ≡ false → self.new.counts.items ≡ self.old.counts.items) }
        ensures holds { IfOk result (λ b. b ≡ false → equation.count < length self.old.counts.items → worth self.old.counts.items equation.count ≤ made equation.change (worth self.old.counts.items equation.source)) }
    {
        match self.lowered(equation) {
            Some(to) => {
                self.note(equation);
                self.put(equation.count, to)?;
                Ok(true)
            }
            None => Ok(false),
        }
    }

    // Lowers the counts of equations to what these give. Returns whether one fell.
    #[tactic(auto, using(crate::proofs::FallLemmas::went_none, crate::proofs::FallLemmas::went_more))]
    fn lower_each(&mut self, equations: &[Equation]) -> Result<bool, AllocError>
        ensures sound { OnOk result ((es : declared.Equations) → All (Follows es) equations.now → StaysSound es self.old self.new) }
        ensures fell { OnOk result (Fell self.old.counts.items self.new.counts.items) }
        ensures less { IfOk result (λ b. b ≡ true → sum self.new.counts.items < sum self.old.counts.items) }
        ensures settled { IfOk result (λ b. b ≡ false → IsSettled self.new.counts.items equations.now) }
    {
        let mut has_fallen = false;
        for equation in equations {
            has_fallen |= self.lower(*equation)?;
        }
        Ok(has_fallen)
    }

    // Lowers the counts of equations to what these give, and once more if one fell. Most equations
    // come after those that they take from. Returns whether one fell the second time too, as one
    // does in a circle.
    #[tactic(auto, using(crate::proofs::FallLemmas::fell_more))]
    fn lower_twice(&mut self, equations: &[Equation]) -> Result<bool, AllocError>
        ensures sound { OnOk result ((es : declared.Equations) → All (Follows es) equations.now → StaysSound es self.old self.new) }
        ensures fell { OnOk result (Fell self.old.counts.items self.new.counts.items) }
        ensures less { IfOk result (λ b. b ≡ true → sum self.new.counts.items < sum self.old.counts.items) }
        ensures settled { IfOk result (λ b. b ≡ false → IsSettled self.new.counts.items equations.now) }
    {
        if !self.lower_each(equations)? {
            return Ok(false);
        }
        self.lower_each(equations)
    }

    // Lowers the counts of the equations that take from a count.
    #[tactic(auto, using(crate::proofs::FallLemmas::fell_none))]
    fn lower_users(&mut self, users: &Users<'_>, source: u32) -> Result<(), AllocError>
        ensures sound { OnOk result ((es : declared.Equations) → All (Follows es) users.now.equations.now → StaysSound es self.old self.new) }
        ensures fell { OnOk result (Fell self.old.counts.items self.new.counts.items) }
    {
        for place in 0..u32::MAX {
            let Some(equation) = users.get(source, place) else {
                return Ok(());
            };
            self.lower(equation)?;
        }
        Ok(())
    }

    // Follows the reasons from a count, and marks each count that they meet. Returns a count of the
    // circle that they end in, if there is one: if they meet a mark, that of the count that set it.
    fn circle(&self, marks: &mut [Option<u32>], heads: &[Option<u32>], index: u32) -> Option<u32> {
        let mut at = index;
        for _ in 0..self.counts.len() {
            let mark = marks.get_mut(at as usize)?;
            if let Some(by) = *mark {
                return if by == index {
                    Some(at)
                } else {
                    *heads.get(by as usize)?
                };
            }
            *mark = Some(index);
            at = self.reason(at)?.source;
        }
        Some(at)
    }

    // One count of the circle that the reasons of each count end in, if there is one.
    fn heads(&self, alloc: Global) -> Result<Vec<Option<u32>>, AllocError> {
        let mut marks = vec![in alloc; None::<u32>; self.counts.len()]?;
        let mut heads = Vec::new(alloc);
        for index in 0..u32::try_from(self.counts.len()).unwrap_or(u32::MAX) {
            let head = self.circle(marks.as_mut_slice(), heads.as_slice(), index);
            heads.push(head)?;
        }
        Ok(heads)
    }

    // Lowers a count to a bound of it.
    #[tactic(auto, using(crate::proofs::FallLemmas::fell_none, crate::proofs::FallLemmas::put_fell))]
    fn lower_to(&mut self, index: u32, bound: u16) -> Result<(), AllocError>
        ensures sound { OnOk result ((es : declared.Equations) → ((v : ℕ → ℕ) → Solution es v → v index ≤ bound) → StaysSound es self.old self.new) }
        ensures fell { OnOk result (Fell self.old.counts.items self.new.counts.items) }
    {
        if (index as usize) < self.counts.len() && bound < self.count(index) {
            self.put(index, bound)?;
        }
        Ok(())
    }

    // Lowers a count to the greatest that a circle through it allows.
    fn lower_round(&mut self, index: u32, way: Way) -> Result<(), AllocError>
        ensures sound { OnOk result ((es : declared.Equations) → Leads es way index index → StaysSound es self.old self.new) }
        ensures fell { OnOk result (Fell self.old.counts.items self.new.counts.items) }
    {
        let count = self.count(index);
        self.lower_to(index, way.greatest(count))?;
        Ok(())
    }

    // Goes on by an equation from a count that the head bounds. If that leads to the head, it
    // closes a circle. Else the head bounds its count too, if the look goes by the equation.
    #[tactic(auto, using(crate::proofs::FallLemmas::fell_none))]
    fn go_on(
        &mut self,
        bounded: &mut Bounded,
        from: Reach,
        equation: Equation,
    ) -> Result<(), AllocError>
        ensures sound { OnOk result ((es : declared.Equations) → Follows es equation → Leads es from.way from.index bounded.old.head → StaysSound es self.old self.new) }
        ensures fell { OnOk result (Fell self.old.counts.items self.new.counts.items) }
        ensures head { bounded.new.head ≡ bounded.old.head }
        ensures led { OnOk result ((es : declared.Equations) → Follows es equation → Leads es from.way from.index bounded.old.head → AreLed es bounded.old → AreLed es bounded.new) }
    {
        let Some(way) = from.way.then(equation.change) else {
            return Ok(());
        };
        let index = equation.count;
        if equation.source != from.index {
            return Ok(());
        }
        if index == bounded.head() {
            self.lower_round(index, way)?;
            return Ok(());
        }
        if self.is_wide || self.reason(index) == Some(equation) {
            bounded.add(index, way)?;
        }
        Ok(())
    }

    // As `go_on`, by each equation that takes from the count.
    #[tactic(auto, using(crate::proofs::FallLemmas::fell_none, crate::proofs::FallLemmas::fell_more))]
    fn go_on_each(
        &mut self,
        bounded: &mut Bounded,
        from: Reach,
        users: &Users<'_>,
    ) -> Result<(), AllocError>
        ensures sound { OnOk result ((es : declared.Equations) → All (Follows es) users.now.equations.now → Leads es from.way from.index bounded.old.head → StaysSound es self.old self.new) }
        ensures fell { OnOk result (Fell self.old.counts.items self.new.counts.items) }
        ensures head { bounded.new.head ≡ bounded.old.head }
        ensures led { OnOk result ((es : declared.Equations) → All (Follows es) users.now.equations.now → Leads es from.way from.index bounded.old.head → AreLed es bounded.old → AreLed es bounded.new) }
    {
        for place in 0..u32::MAX {
            let Some(equation) = users.get(from.index, place) else {
                return Ok(());
            };
            self.go_on(bounded, from, equation)?;
        }
        Ok(())
    }

    // As `go_on_each`, unless the count was met before.
    #[tactic(auto, using(crate::proofs::FallLemmas::fell_none))]
    fn go_on_from(
        &mut self,
        bounded: &mut Bounded,
        from: Reach,
        users: &Users<'_>,
    ) -> Result<(), AllocError>
        ensures sound { OnOk result ((es : declared.Equations) → All (Follows es) users.now.equations.now → Leads es from.way from.index bounded.old.head → StaysSound es self.old self.new) }
        ensures fell { OnOk result (Fell self.old.counts.items self.new.counts.items) }
        ensures head { bounded.new.head ≡ bounded.old.head }
        ensures led { OnOk result ((es : declared.Equations) → All (Follows es) users.now.equations.now → Leads es from.way from.index bounded.old.head → AreLed es bounded.old → AreLed es bounded.new) }
    {
        if !bounded.meet(from) {
            return Ok(());
        }
        self.go_on_each(bounded, from, users)?;
        Ok(())
    }

    // Meets the counts that the head bounds, and lowers the head to what each circle through them
    // allows. So the branches of a loop take one look, not one each.
    #[tactic(auto, using(crate::proofs::FallLemmas::fell_none, crate::proofs::FallLemmas::fell_more))]
    fn close_all(&mut self, bounded: &mut Bounded, users: &Users<'_>) -> Result<(), AllocError>
        ensures sound { OnOk result ((es : declared.Equations) → All (Follows es) users.now.equations.now → AreLed es bounded.old → StaysSound es self.old self.new) }
        ensures fell { OnOk result (Fell self.old.counts.items self.new.counts.items) }
        ensures head { bounded.new.head ≡ bounded.old.head }
        ensures led { OnOk result ((es : declared.Equations) → All (Follows es) users.now.equations.now → AreLed es bounded.old → AreLed es bounded.new) }
    {
        for _ in 0..u64::MAX {
            let Some(from) = bounded.take() else {
                return Ok(());
            };
            self.go_on_from(bounded, from, users)?;
        }
        Ok(())
    }

    // Lowers each count that was met to what its way makes of the head. Else each fall of the head
    // so far would still go from count to count.
    #[tactic(auto, using(crate::proofs::FallLemmas::fell_none, crate::proofs::FallLemmas::fell_more))]
    fn lower_bounded(&mut self, bounded: &Bounded) -> Result<(), AllocError>
        ensures sound { OnOk result ((es : declared.Equations) → AreLed es bounded.now → StaysSound es self.old self.new) }
        ensures fell { OnOk result (Fell self.old.counts.items self.new.counts.items) }
    {
        for place in 0..usize::MAX {
            let Some(reach) = bounded.get(place) else {
                return Ok(());
            };
            self.lower_reach(bounded.head(), reach)?;
        }
        Ok(())
    }

    // Lowers a count to what its way makes of the head.
    fn lower_reach(&mut self, head: u32, reach: Reach) -> Result<(), AllocError>
        ensures sound { OnOk result ((es : declared.Equations) → Leads es reach.way reach.index head → StaysSound es self.old self.new) }
        ensures fell { OnOk result (Fell self.old.counts.items self.new.counts.items) }
    {
        let count = self.count(head);
        self.lower_to(reach.index, reach.way.made(count))?;
        Ok(())
    }

    // Lowers a count to what the circles through it allow, and then those that it bounds, if it is
    // a head.
    #[tactic(auto, using(crate::proofs::FallLemmas::fell_none, crate::proofs::FallLemmas::fell_more))]
    fn lower_head(
        &mut self,
        bounded: &mut Bounded,
        users: &Users<'_>,
        head: u32,
    ) -> Result<(), AllocError>
        ensures sound { OnOk result ((es : declared.Equations) → All (Follows es) users.now.equations.now → StaysSound es self.old self.new) }
        ensures fell { OnOk result (Fell self.old.counts.items self.new.counts.items) }
    {
        if !bounded.is_head(head) {
            return Ok(());
        }
        bounded.begin(head, self.count(head))?;
        self.close_all(bounded, users)?;
        self.lower_bounded(&*bounded)?;
        Ok(())
    }

    // Lowers one count of each circle of reasons, and all that it bounds. Else it could fall by one
    // each time round. By turns it goes by reasons alone, and by all equations: the first finds how
    // counts fall, and the second how far they may fall.
    #[tactic(auto, using(crate::proofs::FallLemmas::fell_none, crate::proofs::FallLemmas::fell_more))]
    fn lower_circles(&mut self, alloc: Global, users: &Users<'_>) -> Result<(), AllocError>
        ensures sound { OnOk result ((es : declared.Equations) → All (Follows es) users.now.equations.now → StaysSound es self.old self.new) }
        ensures fell { OnOk result (Fell self.old.counts.items self.new.counts.items) }
    {
        self.falls = 0;
        self.is_wide = !self.is_wide;
        let mut bounded = Bounded::none(alloc, self.heads(alloc)?)?;
        for index in 0..u32::try_from(self.counts.len()).unwrap_or(u32::MAX) {
            self.lower_head(&mut bounded, users, index)?;
        }
        Ok(())
    }

    // Looks for circles if counts fell more often since the last look than there are counts.
    #[tactic(auto, using(crate::proofs::FallLemmas::fell_none))]
    fn look_round(&mut self, alloc: Global, users: &Users<'_>) -> Result<(), AllocError>
        ensures sound { OnOk result ((es : declared.Equations) → All (Follows es) users.now.equations.now → StaysSound es self.old self.new) }
        ensures fell { OnOk result (Fell self.old.counts.items self.new.counts.items) }
    {
        if self.falls > self.counts.len() {
            self.lower_circles(alloc, users)?;
        }
        Ok(())
    }

    // Takes one count from the queue, and lowers those whose equations take from it. Returns
    // whether there was one.
    #[tactic(auto, using(crate::proofs::FallLemmas::fell_more))]
    fn step(&mut self, alloc: Global, users: &Users<'_>) -> Result<bool, AllocError>
        ensures sound { OnOk result ((es : declared.Equations) → All (Follows es) users.now.equations.now → StaysSound es self.old self.new) }
        ensures fell { OnOk result (Fell self.old.counts.items self.new.counts.items) }
    {
        self.look_round(alloc, users)?;
        match self.take() {
            Some((index, waits)) => {
                if waits {
                    self.lower_users(users, index)?;
                }
                Ok(true)
            }
            None => Ok(false),
        }
    }

    // Lowers counts until none waits.
    #[tactic(auto, using(crate::proofs::FallLemmas::fell_none, crate::proofs::FallLemmas::fell_more))]
    fn settle(&mut self, alloc: Global, users: &Users<'_>) -> Result<(), AllocError>
        ensures sound { OnOk result ((es : declared.Equations) → All (Follows es) users.now.equations.now → StaysSound es self.old self.new) }
        ensures fell { OnOk result (Fell self.old.counts.items self.new.counts.items) }
    {
        for _ in 0..u64::MAX {
            if !self.step(alloc, users)? {
                break;
            }
        }
        Ok(())
    }

    // Lowers counts until none waits, in an order of all counts from now on.
    #[tactic(auto, using(crate::proofs::FallLemmas::fell_more))]
    fn settle_in_order(
        &mut self,
        alloc: Global,
        users: &Users<'_>,
        equations: &Equations,
    ) -> Result<(), AllocError>
        requires { users.now.equations.now ≡ equations.now.all.items }
        ensures sound { OnOk result (StaysSound equations.now self.old self.new) }
        ensures fell { OnOk result (Fell self.old.counts.items self.new.counts.items) }
    {
        self.places = places(alloc, users, self.counts.len())?;
        self.waiting = vec![in alloc; false; self.counts.len()]?;
        self.lower_each(equations.all())?;
        self.settle(alloc, users)
    }

    // Lowers the counts that still fall. Most of them are in a circle, so circles come first.
    #[tactic(auto, using(crate::proofs::FallLemmas::fell_more))]
    fn lower_rest(&mut self, alloc: Global, equations: &Equations) -> Result<(), AllocError>
        ensures sound { OnOk result (StaysSound equations.now self.old self.new) }
        ensures fell { OnOk result (Fell self.old.counts.items self.new.counts.items) }
    {
        let users = Users::of(alloc, equations)?;
        self.lower_circles(alloc, &users)?;
        if self.lower_twice(equations.all())? {
            self.settle_in_order(alloc, &users, equations)?;
        }
        Ok(())
    }
}

/// The greatest counts that solve all equations, by index.
///
/// # Errors
///
/// If a growth was refused.
pub fn solve(alloc: Global, equations: &Equations) -> Result<Vec<u16>, AllocError>
    ensures { IfOk result (λ counts. IsGreatest equations.now counts.items) }
{
    let mut falling = Falling::new(alloc, equations.most())?;
    loop {
        if !falling.lower_twice(equations.all())? {
            break;
        }
        falling.lower_rest(alloc, equations)?;
    }
    let Falling { counts, .. } = falling;
    Ok(counts)
}
