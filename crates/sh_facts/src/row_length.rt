//! The names of a row, with commas between them.
ghost use Rattle.std.specs.Prelude.{◌≡◌, ◌+◌, ◌*◌, ◌/◌, ◌≤◌, ◌<◌, ℕ, true, false, length};
ghost use Rattle.sh_domain.specs.Sheets as text;
ghost use Rattle.sh_domain.specs.Certificates as claims;
ghost use Rattle.sh_domain.specs.KeptRows.{holds_at};
ghost use Rattle.sh_facts.specs.Room.{Leaves, LeavesNames, bytes_from};

use sh_domain::{Names, RowId, Rows};

// The numbers whose bits are in one word.
const BITS: u32 = 64;

/// The room that is left after the names of a row and one more byte.
pub fn room_after_row(rows: &Rows, names: &Names, row: RowId, room: usize) -> Option<usize>
    ensures { Leaves room (length (text.names_text (claims.names_at (claims.in_byte_order names.now) rows.now row)) + 1) result }
{
    let left = room_after_names(rows, names, row, room)?;
    if left < room {
        Some(left)
    } else {
        left.checked_sub(1)
    }
}

// After the names of a row, each with a byte after it.
fn room_after_names(rows: &Rows, names: &Names, row: RowId, room: usize) -> Option<usize>
    ensures { Leaves room (bytes_from rows.now row names.now 0) result }
{
    let count = names.count();
    let mut left = room;
    let mut from = 0;
    while from < count {
        let to = from + (count - from).min(BITS - from % BITS);
        left = room_after_word(rows, names, row, from, to, left)?;
        from = to;
    }
    Some(left)
}

// After those whose bits are in one word. Most words have none.
fn room_after_word(
    rows: &Rows,
    names: &Names,
    row: RowId,
    from: u32,
    to: u32,
    room: usize,
) -> Option<usize>
    requires order { from ≤ to }
    requires within { to ≤ length names.now }
    requires word { to ≤ (from / 64 + 1) * 64 }
    ensures { LeavesNames rows.now row names.now from to room result }
{
    if has_none(rows, row, from / BITS) {
        return Some(room);
    }
    room_after_numbers(rows, names, row, from, to, room)
}

// Whether a row has none of the numbers whose bits are in the word of this index.
fn has_none(rows: &Rows, row: RowId, index: u32) -> bool
    ensures { result ≡ true → (k : ℕ) → k / 64 ≡ index → holds_at rows.now.rows row.index k ≡ false }
{
    let Some(row) = rows.row(row) else {
        return true;
    };
    match row.words().get(index as usize) {
        Some(word) => *word == 0,
        None => true,
    }
}

// After those from one number up to another.
fn room_after_numbers(
    rows: &Rows,
    names: &Names,
    row: RowId,
    from: u32,
    to: u32,
    room: usize,
) -> Option<usize>
    requires order { from ≤ to }
    requires within { to ≤ length names.now }
    ensures { LeavesNames rows.now row names.now from to room result }
{
    let mut left = room;
    for number in from..to {
        left = room_after_number(rows, names, row, number, left)?;
    }
    Some(left)
}

// After the name of a number and one more byte, if the number is in the row.
fn room_after_number(
    rows: &Rows,
    names: &Names,
    row: RowId,
    number: u32,
    room: usize,
) -> Option<usize>
    requires { number < length names.now }
    ensures { LeavesNames rows.now row names.now number (number + 1) room result }
{
    if !rows.has(row, number) {
        return Some(room);
    }
    let left = room.checked_sub(names.name(number).len())?;
    left.checked_sub(1)
}
