//! What is round a command (XCU 2.9.5, 2.15).
ghost use Rattle.std.specs.Prelude.{◌≡◌, ℕ, List, true};
ghost use Rattle.sh_tree.specs.standard.Tree.{text_of};
ghost use Rattle.sh_domain.specs.Entries as entries;
ghost use Rattle.sh_rules.specs.Walks as walks;

use sh_tree::Span;

/// The loops round a place, by the numbers of their commands, the innermost first.
#[derive(Clone, Copy)]
pub enum Loops<'a> {
    Outside,
    Inside(u32, &'a Loops<'a>),
}

/// The loops, and the function by its name, that a command may leave. Then the function whose drops
/// it counts for. Then whether it is in a part of a pipeline, which may share the environment of
/// the other parts.
#[derive(Clone, Copy)]
pub struct Around<'a> {
    pub loops: Loops<'a>,
    pub function: Option<Span>,
    pub drops: Option<Span>,
    pub shares: bool,
}

/// Round the script, and round a process that is started.
#[tactic(auto, unfolding(crate::specs::Walks::loops_of))]
pub fn alone() -> Around<'static>
    ensures { (b : List ℕ) → walks.around b result ≡ entries.alone }
{
    Around {
        loops: Loops::Outside,
        function: None,
        drops: None,
        shares: false,
    }
}

/// Round the body of a function.
#[tactic(auto, unfolding(crate::specs::Walks::loops_of))]
pub fn in_function(name: Span) -> Around<'static>
    ensures { (b : List ℕ) → walks.around b result ≡ entries.in_function (text_of b name) }
{
    Around {
        loops: Loops::Outside,
        function: Some(name),
        drops: Some(name),
        shares: false,
    }
}

impl<'a> Around<'a> {
    /// Round the condition and the body of a loop.
    #[tactic(auto, unfolding(crate::specs::Walks::loops_of))]
    pub fn in_loop(&'a self, number: u32) -> Around<'a>
        ensures { (b : List ℕ) → walks.around b result ≡ entries.in_loop number (walks.around b self.entry.now) }
    {
        Around {
            loops: Loops::Inside(number, &self.loops),
            function: self.function,
            drops: self.drops,
            shares: self.shares,
        }
    }

    /// Round the parts of a pipeline of two or more, which are processes of their own.
    #[tactic(auto, unfolding(crate::specs::Walks::loops_of, sh_domain::specs::Entries::part_around))]
    pub fn round_parts(&self) -> Around<'a>
        ensures { (b : List ℕ) → walks.around b result ≡ entries.part_around true (walks.around b self.entry.now) }
    {
        Around {
            loops: Loops::Outside,
            function: None,
            drops: self.drops,
            shares: true,
        }
    }
}
