//! The lines of a certificate: which is the first that has not the form.
ghost use Rattle.std.specs.Prelude.{◌≡◌, ◌+◌, ◌^◌, ◌<◌, ◌≤◌, length, option_map, IfOk, IfErr, Ok, Err};
ghost use Rattle.std.specs.Str.{bytes_eq};
ghost use Rattle.sh_facts.specs.Fields as field;
ghost use Rattle.sh_domain.specs.Forms as form;
ghost use Rattle.sh_domain.specs.Sheets.{first_line};

use crate::forms::{CommandTexts, Counts, FunctionTexts, command_in, counts_in, function_in};
use crate::splits::cut;

/// Whether the lines have the form of a certificate's; or the number of the first that has not,
/// from 1. A line that is missing, or that has no newline, has the number after the last.
pub fn test_lines(text: &[u8]) -> Result<(), u32>
    ensures { field.outcome result ≡ field.outcome (form.read_sheet text.now) }
{
    let left = after_version(text)?;
    let (counts, left) = after_counts(left)?;
    let left = after_commands(counts.commands, left)?;
    let next = 3 + counts.commands as u32;
    let left = after_functions(next, counts.functions, left)?;
    if left.is_empty() {
        Ok(())
    } else {
        Err(next + counts.functions as u32)
    }
}

/// What follows the first line, if that names this version of the format.
pub fn after_version(text: &[u8]) -> Result<&[u8], u32>
    ensures { field.text_left result ≡ field.left_of (form.read_line form.is_first 1 text.now) }
{
    let Some((line, left)) = cut(text, b'\n') else {
        return Err(1);
    };
    if is_first(line) { Ok(left) } else { Err(1) }
}

fn is_first(line: &[u8]) -> bool
    ensures { result ≡ bytes_eq first_line line.now }
{
    b"shset certificate 1".as_slice() == line
}

/// The counts in the second line, and what follows it.
pub fn after_counts(text: &[u8]) -> Result<(Counts, &[u8]), u32>
    ensures { field.counts_left result ≡ form.read_line form.counts_in 2 text.now }
{
    let Some((line, left)) = cut(text, b'\n') else {
        return Err(2);
    };
    match counts_in(line) {
        Some(counts) => Ok((counts, left)),
        None => Err(2),
    }
}

/// The facts in the first line, if it is that of the command of a number, and what follows it.
pub fn command_line(number: u16, text: &[u8]) -> Option<(CommandTexts<'_>, &[u8])>
    ensures { option_map field.command_line_of result ≡ field.line_in (form.command_in number) text.now }
{
    let (line, left) = cut(text, b'\n')?;
    Some((command_in(number, line)?, left))
}

/// The facts in the first line, if it is that of the function of a number, and what follows it.
pub fn function_line(number: u16, text: &[u8]) -> Option<(FunctionTexts<'_>, &[u8])>
    ensures { option_map field.function_line_of result ≡ field.line_in (form.function_in number) text.now }
{
    let (line, left) = cut(text, b'\n')?;
    Some((function_in(number, line)?, left))
}

// What follows the lines of so many commands, from the third line on.
fn after_commands(count: u16, text: &[u8]) -> Result<&[u8], u32>
    ensures { field.text_left result ≡ field.left_of (form.read_lines form.command_in 3 1 count text.now) }
{
    let mut left = text;
    for done in 0..count {
        let Some((_, behind)) = command_line(done + 1, left) else {
            return Err(3 + done as u32);
        };
        left = behind;
    }
    Ok(left)
}

/// What follows the lines of so many functions, whose first has this number.
pub fn after_functions(first: u32, count: u16, text: &[u8]) -> Result<&[u8], u32>
    requires { first < 2 ^ 31 }
    ensures { field.text_left result ≡ field.left_of (form.read_lines form.function_in first 1 count text.now) }
{
    let mut left = text;
    for done in 0..count {
        let Some((_, behind)) = function_line(done + 1, left) else {
            return Err(first + done as u32);
        };
        left = behind;
    }
    Ok(left)
}
