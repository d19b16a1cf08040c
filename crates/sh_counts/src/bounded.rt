//! The counts that one count bounds, each by ways.
ghost use Rattle.std.specs.Prelude.{◌≡◌, IfSome, OnOk};
ghost use Rattle.sh_counts.specs.declared.equations.Equations as declared;
ghost use Rattle.sh_counts.specs.Falls.{Leads};
ghost use Rattle.sh_counts.specs.Heads.{AreLed};

use crate::circles::Way;
use crate::equations::Change;
use std::alloc::{AllocError, Global};
use std::cmp::Reverse;
use std::collections::BinaryHeap;

/// A count, and a way to it from the count that bounds it.
#[derive(Clone, Copy)]
pub struct Reach {
    pub index: u32,
    pub way: Way,
}

/// The counts that one count bounds, the head, each by a way that lowers the head and by one that
/// does not.
#[derive(Drop)]
pub struct Bounded {
    head: u32,
    // How great the head was at first.
    count: u16,
    reached: Vec<Reach>,
    // The places of those that wait. Ways that may fall furthest come first: a hint.
    queue: BinaryHeap<Reverse<(u16, u32)>>,
    // From which head each count is met.
    heads: Vec<Option<u32>>,
    // Whether each count was met, and by a way that lowers its head.
    met: Vec<Option<bool>>,
}

impl Bounded {
    /// No count, if each is met from one head at most.
    ///
    /// # Errors
    ///
    /// If a growth was refused.
    pub fn none(alloc: Global, heads: Vec<Option<u32>>) -> Result<Bounded, AllocError> {
        let met = vec![in alloc; None::<bool>; heads.len()]?;
        Ok(Bounded {
            head: 0,
            count: 0,
            reached: Vec::new(alloc),
            queue: BinaryHeap::new(alloc),
            heads,
            met,
        })
    }

    // Whether a count is met from a head.
    fn is_of(&self, index: u32, head: u32) -> bool {
        self.heads.get(index as usize).copied() == Some(Some(head))
    }

    /// Whether a count is a head.
    pub fn is_head(&self, index: u32) -> bool {
        self.is_of(index, index)
    }

    /// Begins with another head, which bounds itself.
    ///
    /// # Errors
    ///
    /// If a growth was refused.
    pub fn begin(&mut self, head: u32, count: u16) -> Result<(), AllocError>
        ensures head { self.new.head ≡ head }
        ensures led { OnOk result ((es : declared.Equations) → AreLed es self.new) }
    {
        self.head = head;
        self.count = count;
        self.reached.clear();
        self.add(head, Way::of(Change::NONE))?;
        Ok(())
    }

    /// The head.
    pub fn head(&self) -> u32
        ensures { result ≡ self.now.head }
    {
        self.head
    }

    /// The count at a place of the order in which they were added.
    pub fn get(&self, place: usize) -> Option<Reach>
        ensures { IfSome result (λ reach. (es : declared.Equations) → AreLed es self.now → Leads es reach.way reach.index self.now.head) }
    {
        match self.reached.get(place) {
            Some(reach) => Some(*reach),
            None => None,
        }
    }

    /// Takes the count whose way may fall furthest of those that wait.
    pub fn take(&mut self) -> Option<Reach>
        ensures head { self.new.head ≡ self.old.head }
        ensures stay { (es : declared.Equations) → AreLed es self.old → AreLed es self.new }
        ensures led { IfSome result (λ reach. (es : declared.Equations) → AreLed es self.new → Leads es reach.way reach.index self.new.head) }
    {
        let Reverse((_, place)) = self.queue.pop()?;
        self.get(place as usize)
    }

    // Whether a way leads to less than the head.
    fn is_lower(&self, way: Way) -> bool {
        way.made(self.count) < self.count
    }

    // Whether a count was not met by such a way so far.
    fn is_news(&self, reach: Reach) -> bool {
        match self.met.get(reach.index as usize) {
            Some(met) => *met < Some(self.is_lower(reach.way)),
            None => false,
        }
    }

    /// Notes that a count was met. Returns whether it was not by such a way so far.
    pub fn meet(&mut self, reach: Reach) -> bool
        ensures head { self.new.head ≡ self.old.head }
        ensures stay { (es : declared.Equations) → AreLed es self.old → AreLed es self.new }
    {
        let is_news = self.is_news(reach);
        let is_lower = self.is_lower(reach.way);
        if let Some(met) = self.met.get_mut(reach.index as usize) {
            *met = (*met).max(Some(is_lower));
        }
        is_news
    }

    /// Adds a count that the head bounds by a way, unless it was met by such a way or from another
    /// head.
    ///
    /// # Errors
    ///
    /// If a growth was refused.
    pub fn add(&mut self, index: u32, way: Way) -> Result<(), AllocError>
        ensures head { self.new.head ≡ self.old.head }
        ensures led { OnOk result ((es : declared.Equations) → Leads es way index self.old.head → AreLed es self.old → AreLed es self.new) }
    {
        let reach = Reach { index, way };
        if self.is_of(index, self.head) && self.is_news(reach) {
            let place = u32::try_from(self.reached.len()).unwrap_or(u32::MAX);
            self.reached.push(reach)?;
            self.queue.push(Reverse((way.made(0), place)))?;
        }
        Ok(())
    }
}
