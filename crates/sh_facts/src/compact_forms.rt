//! The form of a line of a compact certificate, if it differs from that of a full one.
ghost use Rattle.std.specs.Prelude.{◌≡◌, ◌&&◌, nat_eq, option_map, codes};
ghost use Rattle.std.specs.Str.{bytes_eq};
ghost use Rattle.sh_domain.specs.CompactForms as compact;
ghost use Rattle.sh_domain.specs.Forms as form;
ghost use Rattle.sh_facts.specs.CompactFields as field;
ghost use Rattle.sh_facts.specs.Fields.{claim_of};

use crate::forms::{FactText, fact_in, is_counts, is_letter, number_in};
use crate::splits::cut;

/// The numbers of commands, of functions and of loops in a second line.
#[derive(Clone, Copy, Debug, PartialEq, Eq)]
pub struct CompactCounts {
    pub commands: u16,
    pub functions: u16,
    pub loops: u16,
}

impl CompactCounts {
    /// Whether so many commands and functions are counted.
    pub fn has(self, commands: usize, functions: usize) -> bool
        ensures { result ≡ (nat_eq self.commands commands && nat_eq self.functions functions) }
    {
        self.commands as usize == commands && self.functions as usize == functions
    }
}

/// The command's number and the facts of a loop's line.
#[derive(Clone, Copy, Debug)]
pub struct TurnText<'t> {
    pub number: u16,
    pub facts: FactText<'t>,
}

/// The counts in a second line, if it is one.
pub fn compact_counts_in(line: &[u8]) -> Option<CompactCounts>
    ensures { option_map field.counts_of result ≡ compact.compact_counts_in line.now }
{
    let (commands_word, left) = cut(line, b' ')?;
    let (commands, left) = cut(left, b' ')?;
    let (functions_word, left) = cut(left, b' ')?;
    let (functions, left) = cut(left, b' ')?;
    let (loops_word, loops) = cut(left, b' ')?;
    if are_counts(commands_word, functions_word, loops_word) {
        counts_of(commands, functions, loops)
    } else {
        None
    }
}

fn are_counts(first: &[u8], second: &[u8], third: &[u8]) -> bool
    ensures { result ≡ (bytes_eq (codes "commands") first.now && bytes_eq (codes "functions") second.now && bytes_eq (codes "loops") third.now) }
{
    is_counts(first, second) && b"loops".as_slice() == third
}

#[tactic(auto, unfolding(sh_domain::specs::CompactForms::three_counts))]
fn counts_of(commands: &[u8], functions: &[u8], loops: &[u8]) -> Option<CompactCounts>
    ensures { option_map field.counts_of result ≡ compact.three_counts (form.number_in commands.now) (form.number_in functions.now) (form.number_in loops.now) }
{
    Some(CompactCounts {
        commands: number_in(commands)?,
        functions: number_in(functions)?,
        loops: number_in(loops)?,
    })
}

/// The facts in the line of the start, if it is one.
pub fn start_in(line: &[u8]) -> Option<FactText<'_>>
    ensures { option_map claim_of result ≡ compact.start_in line.now }
{
    let (letter, facts) = cut(line, b' ')?;
    if is_letter(b's', letter) {
        fact_in(facts)
    } else {
        None
    }
}

/// The number and the facts in the line of a loop, if it is one whose command's number is not below
/// the least.
pub fn turn_in(least: u32, line: &[u8]) -> Option<TurnText<'_>>
    ensures { option_map field.turn_of result ≡ compact.turn_in least line.now }
{
    let (letter, left) = cut(line, b' ')?;
    let (digits, facts) = cut(left, b' ')?;
    if is_letter(b'h', letter) {
        turn_of(least, digits, facts)
    } else {
        None
    }
}

#[tactic(auto, unfolding(sh_domain::specs::Forms::both))]
fn turn_of<'t>(least: u32, digits: &[u8], facts: &'t [u8]) -> Option<TurnText<'t>>
    ensures { option_map field.turn_of result ≡ form.both field.turn (compact.at_least least (form.number_in digits.now)) (form.claim_in facts.entry.now) }
{
    Some(TurnText {
        number: number_from(least, digits)?,
        facts: fact_in(facts)?,
    })
}

// The number that a text writes, if it is not below the least.
#[tactic(auto, unfolding(sh_domain::specs::CompactForms::at_least))]
fn number_from(least: u32, digits: &[u8]) -> Option<u16>
    ensures { result ≡ compact.at_least least (form.number_in digits.now) }
{
    let number = number_in(digits)?;
    if least <= number as u32 {
        Some(number)
    } else {
        None
    }
}
