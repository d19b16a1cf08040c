//! What is new before the items of a list: hints.
ghost use Rattle.std.specs.Prelude.{◌≤◌, ◌<◌, length};

use sh_rules::is_settled;
use sh_tree::Item;

/// What is new where an item is entered, since it was last looked at.
#[derive(Clone, Copy, Debug, PartialEq, Eq)]
pub enum News {
    Nothing,
    /// At most that `!` may be unset. Processes are entered without it.
    Job,
    Anything,
}

// Whether all of an item runs in processes.
fn is_of_processes(item: &Item) -> bool {
    item.background || (!is_settled(item) && item.list.rest.as_slice().is_empty())
}

impl News {
    /// Whether it is nothing new to an item.
    pub fn passes(self, item: &Item) -> bool {
        match self {
            News::Nothing => true,
            News::Job => is_of_processes(item),
            News::Anything => false,
        }
    }

    /// What of it is new after an item in which nothing fell. A process that goes on beside the
    /// shell sets `!`, and a script that starts none never has it.
    pub fn after(self, item: &Item, has_jobs: bool) -> News {
        if self == News::Nothing || !has_jobs || item.background || !is_of_processes(item) {
            News::Nothing
        } else {
            News::Job
        }
    }

    /// The first place from one to another of an item to which it is new, or that other.
    pub fn place_of(self, items: &[Item], from: usize, to: usize) -> usize
        requires from { from ≤ to }
        requires to { to < length items.now }
        ensures from { from ≤ result }
        ensures to { result ≤ to }
    {
        if self == News::Nothing {
            return to;
        }
        match items[from..to].iter().position(|item| !self.passes(item)) {
            Some(count) => from + count,
            None => to,
        }
    }

    /// How many looks it took to go on after these items: those over which what is known was
    /// carried are looks too, and so are those after the last that settles what is known.
    pub fn looks_at(self, items: &[Item]) -> u64 {
        let count = match self {
            News::Nothing => 0,
            News::Job => {
                let settled = items.iter().rev().position(|item| is_settled(item));
                settled.unwrap_or(items.len())
            }
            News::Anything => items.len(),
        };
        count as u64
    }
}
