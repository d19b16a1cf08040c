//! The lines of a compact certificate: which is the first that has not the form.
ghost use Rattle.std.specs.Prelude.{◌≡◌, ◌<◌, option_map};
ghost use Rattle.std.specs.Str.{bytes_eq};
ghost use Rattle.sh_domain.specs.CompactForms as compact;
ghost use Rattle.sh_domain.specs.Compacts.{compact_line};
ghost use Rattle.sh_domain.specs.Forms.{read_line};
ghost use Rattle.sh_facts.specs.CompactFields as fields;
ghost use Rattle.sh_facts.specs.Fields as field;

use crate::compact_forms::{CompactCounts, TurnText, compact_counts_in, start_in, turn_in};
use crate::forms::FactText;
use crate::lines::after_functions;
use crate::splits::cut;

/// Whether the first line is that of a compact certificate.
#[tactic(auto, unfolding(sh_domain::specs::CompactForms::begins_compact))]
pub fn is_compact(text: &[u8]) -> bool
    ensures { result ≡ compact.is_compact text.now }
{
    match cut(text, b'\n') {
        Some((line, _)) => is_first(line),
        None => false,
    }
}

fn is_first(line: &[u8]) -> bool
    ensures { result ≡ bytes_eq compact_line line.now }
{
    b"shset certificate 2".as_slice() == line
}

/// Whether the lines have the form of a compact certificate's; or the number of the first that has
/// not, from 1. A line that is missing, or that has no newline, has the number after the last.
pub fn test_compact(text: &[u8]) -> Result<(), u32>
    ensures { field.outcome result ≡ field.outcome (compact.read_compact_sheet text.now) }
{
    let left = after_compact_version(text)?;
    let (counts, left) = after_compact_counts(left)?;
    let (_, left) = after_start(left)?;
    let left = after_turns(counts.loops, left)?;
    let next = 4 + counts.loops as u32;
    let left = after_functions(next, counts.functions, left)?;
    if left.is_empty() {
        Ok(())
    } else {
        Err(next + counts.functions as u32)
    }
}

/// What follows the first line.
pub fn after_compact_version(text: &[u8]) -> Result<&[u8], u32>
    ensures { field.text_left result ≡ field.left_of (read_line compact.is_compact_line 1 text.now) }
{
    let Some((line, left)) = cut(text, b'\n') else {
        return Err(1);
    };
    if is_first(line) { Ok(left) } else { Err(1) }
}

/// The counts in the second line, and what follows it.
pub fn after_compact_counts(text: &[u8]) -> Result<(CompactCounts, &[u8]), u32>
    ensures { fields.counts_left result ≡ read_line compact.compact_counts_in 2 text.now }
{
    let Some((line, left)) = cut(text, b'\n') else {
        return Err(2);
    };
    match compact_counts_in(line) {
        Some(counts) => Ok((counts, left)),
        None => Err(2),
    }
}

/// The facts of the start in the third line, and what follows it.
pub fn after_start(text: &[u8]) -> Result<(FactText<'_>, &[u8]), u32>
    ensures { fields.start_left result ≡ read_line compact.start_in 3 text.now }
{
    let Some((line, left)) = cut(text, b'\n') else {
        return Err(3);
    };
    match start_in(line) {
        Some(facts) => Ok((facts, left)),
        None => Err(3),
    }
}

/// The number and the facts in the first line, and what follows it. There is nothing unless the
/// line is that of a loop whose command's number is not below the least.
pub fn turn_line(least: u32, text: &[u8]) -> Option<(TurnText<'_>, &[u8])>
    ensures { option_map fields.turn_line_of result ≡ field.line_in (compact.turn_in least) text.now }
{
    let (line, left) = cut(text, b'\n')?;
    Some((turn_in(least, line)?, left))
}

// What follows the lines of so many loops, from the fourth line on.
fn after_turns(count: u16, text: &[u8]) -> Result<&[u8], u32>
    ensures { field.text_left result ≡ field.left_of (compact.read_turns 4 0 count text.now) }
{
    let mut left = text;
    let mut least = 0;
    for done in 0..count {
        let Some((turn, behind)) = turn_line(least, left) else {
            return Err(4 + done as u32);
        };
        least = turn.number as u32 + 1;
        left = behind;
    }
    Ok(left)
}
