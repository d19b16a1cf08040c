//! The lines of a certificate's text. Each function takes the room that there is, and gives what is
//! left of it after what it counts. It gives nothing if there is not so much.
ghost use Rattle.std.specs.Prelude.{◌≡◌, ◌+◌, ◌^◌, ◌≤◌, ◌<◌, ◌∷◌, [], ◌↔◌, length, map, IsTrue};
ghost use Rattle.std.specs.Option.{option_copied};
ghost use Rattle.std.specs.Fmt.{decimal};
ghost use Rattle.sh_domain.specs.Sheets as text;
ghost use Rattle.sh_domain.specs.Certificates as claims;
ghost use Rattle.sh_facts.specs.Room.{Leaves};

use crate::row_length::room_after_row;
use sh_domain::{Certificate, Drops, Entry, Facts, FunctionEntry, MAX_CERTIFICATE, Names, Rows};

/// Whether the one text of a certificate, for the names of its numbers, has more than
/// `MAX_CERTIFICATE` bytes. No byte of it is made, and no more of it is counted than that.
pub fn is_too_long(certificate: &Certificate, names: &Names) -> bool
    requires commands { length certificate.now.entries.items < 2 ^ 32 }
    requires functions { length certificate.now.functions.items < 2 ^ 32 }
    ensures { IsTrue result ↔ (MAX_CERTIFICATE < length (text.certificate_text (claims.sheet_of (claims.in_byte_order names.now) certificate.now))) }
{
    room_after_text(certificate, names, MAX_CERTIFICATE).is_none()
}

fn room_after_text(certificate: &Certificate, names: &Names, room: usize) -> Option<usize>
    requires commands { length certificate.now.entries.items < 2 ^ 32 }
    requires functions { length certificate.now.functions.items < 2 ^ 32 }
    ensures { Leaves room (length (text.certificate_text (claims.sheet_of (claims.in_byte_order names.now) certificate.now))) result }
{
    let counted = room_after_counts(certificate.entries.len(), certificate.functions.len(), room)?;
    let left = room_after_entries(certificate, names, counted)?;
    room_after_functions(&certificate.rows, names, &certificate.functions, left)
}

// After the first two lines.
fn room_after_counts(commands: usize, functions: usize, room: usize) -> Option<usize>
    requires commands { commands < 2 ^ 32 }
    requires functions { functions < 2 ^ 32 }
    ensures { Leaves room (length (text.line (text.first_line ∷ [])) + length (text.line (text.count_fields commands functions))) result }
{
    let words = b"shset certificate 1\ncommands  functions \n".len();
    room.checked_sub(words + digits_of(commands) + digits_of(functions))
}

/// How many digits a number has.
pub fn digits_of(number: usize) -> usize
    ensures value { result ≡ length (decimal number) }
    ensures few { result ≤ 20 }
{
    let mut digits = 1;
    let mut rest = number;
    while rest >= 10 {
        rest /= 10;
        digits += 1;
    }
    digits
}

fn room_after_entries(certificate: &Certificate, names: &Names, room: usize) -> Option<usize>
    requires { length certificate.now.entries.items < 2 ^ 32 }
    ensures { Leaves room (length (text.numbered_lines text.command_fields 1 (claims.commands_from (claims.in_byte_order names.now) certificate.now 1 certificate.now.entries.items))) result }
{
    let mut left = room;
    let mut number: u32 = 0;
    for entry in &certificate.entries {
        number += 1;
        let head = certificate.head(number);
        left = room_after_entry(&certificate.rows, names, number, entry, head, left)?;
    }
    Some(left)
}

fn room_after_entry(
    rows: &Rows,
    names: &Names,
    number: u32,
    entry: &Entry,
    head: Option<&Facts>,
    room: usize,
) -> Option<usize>
    ensures { Leaves room (length (text.line (text.command_fields number (claims.command_claims (claims.in_byte_order names.now) rows.now entry.now (option_copied head.entry))))) result }
{
    let numbered = room.checked_sub(b"c  ".len() + digits_of(number as usize))?;
    let before = room_after_fact(rows, names, entry.before, numbered)?;
    let zero = room_after_fact(rows, names, entry.zero, before)?;
    let nonzero = room_after_fact(rows, names, entry.nonzero, zero)?;
    match head {
        Some(head) => room_after_fact(rows, names, *head, nonzero),
        None => Some(nonzero),
    }
}

/// After the lines of the functions.
pub fn room_after_functions(
    rows: &Rows,
    names: &Names,
    functions: &[FunctionEntry],
    room: usize,
) -> Option<usize>
    requires { length functions.now < 2 ^ 32 }
    ensures { Leaves room (length (text.numbered_lines text.function_fields 1 (map (claims.function_claims (claims.in_byte_order names.now) rows.now) functions.now))) result }
{
    let mut left = room;
    let mut number: u32 = 0;
    for entry in functions {
        number += 1;
        left = room_after_function(rows, names, number, entry, left)?;
    }
    Some(left)
}

fn room_after_function(
    rows: &Rows,
    names: &Names,
    number: u32,
    entry: &FunctionEntry,
    room: usize,
) -> Option<usize>
    ensures { Leaves room (length (text.line (text.function_fields number (claims.function_claims (claims.in_byte_order names.now) rows.now entry.now)))) result }
{
    let numbered = room.checked_sub(b"f  ".len() + digits_of(number as usize))?;
    let before = room_after_fact(rows, names, entry.before, numbered)?;
    let drops = room_after_drops(rows, names, entry.drops, before)?;
    let zero = room_after_fact(rows, names, entry.zero, drops)?;
    room_after_fact(rows, names, entry.nonzero, zero)
}

/// After facts, and the blank or the newline that follows them.
pub fn room_after_fact(rows: &Rows, names: &Names, facts: Facts, room: usize) -> Option<usize>
    ensures { Leaves room (length (text.claim_text (claims.claim_of (claims.in_byte_order names.now) rows.now facts)) + 1) result }
{
    match facts {
        Facts::NotReached => room.checked_sub(b"- ".len()),
        Facts::Known {
            vars,
            functions,
            args,
        } => {
            let parameters = room.checked_sub(digits_of(args as usize) + 1)?;
            room_after_drops(rows, names, Drops { vars, functions }, parameters)
        }
    }
}

// After the variables, the functions, and a byte after each.
fn room_after_drops(rows: &Rows, names: &Names, drops: Drops, room: usize) -> Option<usize>
    ensures { Leaves room (length (text.drops_text (claims.drops_of (claims.in_byte_order names.now) rows.now drops)) + 1) result }
{
    let left = room_after_row(rows, names, drops.vars, room)?;
    room_after_row(rows, names, drops.functions, left)
}
