//! Substitutions between backquotes (XCU 2.6.3).
ghost use Rattle.std.specs.Prelude.{◌≡◌, ◌≤◌, ◌<◌, true, length, drop, is_some, IfSome, MatchOption};
ghost use Rattle.sh_tree.specs.standard.language.Substitutions as substitutions;
ghost use Rattle.sh_scan.specs.Backquotes as kept;
ghost use Rattle.sh_scan.specs.Backquotes.{IsFirstKept};

use crate::arithmetic::is_closed;
use crate::front::is_last_backquote;
use memchr::memchr;
use sh_tree::{CommandStyle, MAX_SCRIPT};

/// Where the first backquote at or after `at` ends, if there is one.
pub fn backquote_end(script: &[u8], at: u32) -> Option<u32>
    requires small { length script.now ≤ MAX_SCRIPT }
    requires inside { at ≤ length script.now }
    ensures value { MatchOption result (length script.now < substitutions.backquote_end script.now at) (λ end. end ≡ substitutions.backquote_end script.now at) }
    ensures within { IfSome result (λ end. end ≤ length script.now) }
    ensures after { IfSome result (λ end. at < end) }
{
    let count = memchr(b'`', &script[at as usize..])?;
    Some((at as usize + count + 1) as u32)
}

/// Whether what closes the commands of a substitution is at `at`: a `)`, or the backquote that ends
/// the text.
#[tactic(auto, unfolding(sh_tree::specs::standard::language::Substitutions::closes))]
pub fn closes_at(style: CommandStyle, script: &[u8], at: u32) -> bool
    requires small { length script.now ≤ MAX_SCRIPT }
    requires inside { at ≤ length script.now }
    ensures value { result ≡ substitutions.closes style script.now at }
    ensures within { result ≡ true → at < length script.now }
{
    match style {
        CommandStyle::Paren => is_closed(script, at),
        CommandStyle::Backquote => is_last_backquote(&script[at as usize..]),
    }
}

/// Whether the first byte is a backslash that goes before the commands are read, by whether these
/// are in double quotes.
#[tactic(auto, unfolding(crate::specs::Backquotes::is_kept_first, sh_tree::specs::standard::language::Bytes::is_first))]
fn is_kept_first(quoted: bool, rest: &[u8]) -> bool
    ensures value { result ≡ kept.is_kept_first quoted rest.now }
{
    match rest {
        [b'\\', b'$' | b'`' | b'\\', ..] => true,
        [b'\\', ..] => quoted,
        _ => false,
    }
}

/// The place of the first backslash that goes before the commands of the text, between backquotes,
/// are read. Whether these are in double quotes decides which do.
pub fn kept_backslash(text: &[u8], quoted: bool) -> Option<u32>
    requires small { length text.now ≤ MAX_SCRIPT }
    ensures value { is_some result ≡ substitutions.has_removed_backslash quoted text.now }
    ensures within { IfSome result (λ place. place < length text.now) }
    ensures first { IfSome result (IsFirstKept quoted text.now) }
{
    for place in 0..text.len() {
        if is_kept_first(quoted, &text[place..]) {
            return Some(place as u32);
        }
    }
    None
}
