//! The length of a compact certificate's text, counted as that of a full one is.
ghost use Rattle.std.specs.Prelude.{◌≡◌, ◌+◌, ◌^◌, ◌<◌, ◌∷◌, [], ◌↔◌, length, IsTrue};
ghost use Rattle.sh_domain.specs.Certificates.{claim_of, in_byte_order};
ghost use Rattle.sh_domain.specs.Compacts as text;
ghost use Rattle.sh_domain.specs.Sheets.{line};
ghost use Rattle.sh_facts.specs.Room.{Leaves};

use crate::length::{digits_of, room_after_fact, room_after_functions};
use sh_domain::{Compact, Facts, MAX_CERTIFICATE, Names, Rows};

/// Whether the one text of a compact certificate, for the names of its numbers, has more than
/// `MAX_CERTIFICATE` bytes. No byte of it is made, and no more of it is counted than that.
pub fn is_compact_too_long(compact: &Compact, names: &Names) -> bool
    requires { length compact.now.functions.items < 2 ^ 32 }
    ensures { IsTrue result ↔ (MAX_CERTIFICATE < length (text.compact_text (text.compact_claims (in_byte_order names.now) compact.now))) }
{
    room_after_text(compact, names, MAX_CERTIFICATE).is_none()
}

fn room_after_text(compact: &Compact, names: &Names, room: usize) -> Option<usize>
    requires { length compact.now.functions.items < 2 ^ 32 }
    ensures { Leaves room (length (text.compact_text (text.compact_claims (in_byte_order names.now) compact.now))) result }
{
    let counted = room_after_counts(
        compact.commands,
        compact.functions.len(),
        compact.heads.len(),
        room,
    )?;
    let lettered = counted.checked_sub(b"s ".len())?;
    let start = room_after_fact(&compact.rows, names, compact.start, lettered)?;
    let left = room_after_turns(compact, names, start)?;
    room_after_functions(&compact.rows, names, &compact.functions, left)
}

// After the first two lines.
fn room_after_counts(commands: u32, functions: usize, loops: usize, room: usize) -> Option<usize>
    ensures { Leaves room (length (line (text.compact_line ∷ [])) + length (line (text.compact_counts commands functions loops))) result }
{
    let words = b"shset certificate 2\ncommands  functions  loops \n".len();
    let numbers = digits_of(commands as usize) + digits_of(functions) + digits_of(loops);
    room.checked_sub(words + numbers)
}

fn room_after_turns(compact: &Compact, names: &Names, room: usize) -> Option<usize>
    ensures { Leaves room (length (text.turn_lines (text.turns_of (in_byte_order names.now) compact.now.rows compact.now.heads.entries))) result }
{
    let mut left = room;
    for index in 0..compact.heads.len() {
        let Some((number, facts)) = compact.heads.get_index(index) else {
            unreachable!()
        };
        left = room_after_turn(&compact.rows, names, *number, *facts, left)?;
    }
    Some(left)
}

fn room_after_turn(
    rows: &Rows,
    names: &Names,
    number: u32,
    facts: Facts,
    room: usize,
) -> Option<usize>
    ensures { Leaves room (length (line (text.turn_fields (number, claim_of (in_byte_order names.now) rows.now facts)))) result }
{
    let numbered = room.checked_sub(b"h  ".len() + digits_of(number as usize))?;
    room_after_fact(rows, names, facts, numbered)
}
