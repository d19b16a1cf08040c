//! Assignments, and words before `<` or `>`.
ghost use Rattle.std.specs.Prelude.{◌≡◌, ◌≤◌, length, drop};
ghost use Rattle.sh_tree.specs.standard.language.Commands as commands;

use crate::front::{begins_angle, begins_with, behind_joined};
use sh_tree::{MAX_SCRIPT, name_length};

/// Whether a name and `=` are at the front.
#[tactic(auto, unfolding(sh_tree::specs::standard::language::Commands::is_assignment))]
pub fn is_assignment(rest: &[u8]) -> bool
    ensures { result ≡ commands.is_assignment rest.now }
{
    let length = name_length(rest);
    length != 0 && begins_with(&rest[length..], b'=')
}

/// Whether a name and `=` are at `at` (XCU 2.10.2, rule 7).
pub fn is_assignment_at(script: &[u8], at: u32) -> bool
    requires small { length script.now ≤ MAX_SCRIPT }
    requires inside { at ≤ length script.now }
    ensures { result ≡ commands.is_assignment (drop at script.now) }
{
    is_assignment(&script[at as usize..])
}

/// Whether a shell may take the word from `start` to `end` as an IO location. That is three bytes
/// or more from `{` to `}`, before `<` or `>` (XCU 2.7).
#[tactic(auto, unfolding(sh_tree::specs::standard::language::Commands::is_location))]
pub fn is_location_at(script: &[u8], start: u32, end: u32) -> bool
    requires small { length script.now ≤ MAX_SCRIPT }
    requires ordered { start ≤ end }
    requires inside { end ≤ length script.now }
    ensures { result ≡ commands.is_location script.now start end }
{
    if end < start + 3 {
        return false;
    }
    let opens = begins_with(&script[start as usize..], b'{');
    let closes = begins_with(&script[end as usize - 1..], b'}');
    opens && closes && begins_angle(behind_joined(&script[end as usize..]))
}
