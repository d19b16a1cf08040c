//! The flow rules.
ghost use Rattle.std.specs.Prelude.{◌≡◌};
ghost use Rattle.sh_domain.specs.Faults.{rank};

/// A rule of the flow of facts, in the order of their numbers.
#[derive(Clone, Copy, Debug, PartialEq, Eq, PartialOrd, Ord)]
pub enum FlowRule {
    /// The script's list is entered with what is set at the start.
    F1,
    /// Each further item of a list is entered with what holds after the one before it.
    F2,
    /// The pipeline after `&&` is entered with what holds after zero, the one after `||` with what
    /// holds after another status.
    F3,
    /// What is claimed after a utility is what its row of the table gives.
    F4,
    /// What is claimed after a command without a name is what its assignments and redirections
    /// give.
    F5,
    /// `if`: its conditions, its branches, and what holds after them.
    F6,
    /// `while` and `until`: the head, the condition, the body, and what holds when the condition
    /// ends the loop.
    F7,
    /// `for`: the words, the head, the body, and what holds after the last turn.
    F8,
    /// `case`: the word, the clauses, and what holds after them.
    F9,
    /// A group, and what holds if a redirection of a compound command fails.
    F10,
    /// A subshell, a substitution and an asynchronous list are entered without `!`, and change
    /// nothing outside.
    F11,
    /// A part of a pipeline is entered without `!`, and nothing that it sets is counted after the
    /// pipeline.
    F12,
    /// A definition, the function's body, and what the function may drop.
    F13,
    /// A call: what the function is entered with, and what holds after it.
    F14,
    /// A jump: what holds at `break`, `continue` or `return` is what the loop or the function goes
    /// on with.
    F15,
}

impl FlowRule {
    /// The place of the rule in their order, from 1. If a command breaks several rules, the one
    /// with the least is reported.
    #[tactic(auto, unfolding(crate::specs::Faults::rank))]
    pub fn rank(self) -> u8
        ensures { result ≡ rank self }
    {
        match self {
            FlowRule::F1 => 1,
            FlowRule::F2 => 2,
            FlowRule::F3 => 3,
            FlowRule::F4 => 4,
            FlowRule::F5 => 5,
            FlowRule::F6 => 6,
            FlowRule::F7 => 7,
            FlowRule::F8 => 8,
            FlowRule::F9 => 9,
            FlowRule::F10 => 10,
            FlowRule::F11 => 11,
            FlowRule::F12 => 12,
            FlowRule::F13 => 13,
            FlowRule::F14 => 14,
            FlowRule::F15 => 15,
        }
    }
}
