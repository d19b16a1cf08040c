//! Tilde-prefixes (XCU 2.6.1).
ghost use Rattle.std.specs.Prelude.{◌≡◌, ◌≤◌, ◌+◌, ◌==◌, ◌||◌, ◌&&◌, length};
ghost use Rattle.sh_tree.specs.standard.language.Bytes as bytes;
ghost use Rattle.sh_tree.specs.standard.language.Words as words;

use super::sites::{is_among, is_quoted, stops};
use crate::front::{is_joined, is_last_backquote};
use sh_tree::{Context, is_name_byte};

fn is_login_byte(byte: u8) -> bool
    ensures { result ≡ words.is_login_byte byte }
{
    is_name_byte(byte) || is_among(b".+-", byte)
}

fn login_length(rest: &[u8]) -> usize
    ensures value { result ≡ bytes.run words.is_login_byte rest.now }
    ensures within { result ≤ length rest.now }
{
    rest.iter().take_while(|byte| is_login_byte(**byte)).count()
}

/// Whether a byte ends a tilde-prefix before it.
#[tactic(auto, unfolding(sh_tree::specs::standard::language::Bytes::is_first))]
fn ends_tilde(context: Context, rest: &[u8]) -> bool
    ensures { result ≡ bytes.is_first (λ c. c == 47 || (context.colons && c == 58) || words.stops context.site c) rest.now }
{
    match rest {
        [] => false,
        [first, ..] => {
            *first == b'/' || (context.colons && *first == b':') || stops(context.site, *first)
        }
    }
}

/// How long the tilde-prefix is whose tilde is before `rest`, or 0 if none is there.
#[tactic(auto, unfolding(sh_tree::specs::standard::language::Words::tilde_length))]
pub fn tilde_length(context: Context, rest: &[u8]) -> usize
    ensures value { result ≡ words.tilde_length context rest.now }
    ensures within { result ≤ length rest.now + 1 }
{
    let length = login_length(rest);
    let others = &rest[length..];
    if others.is_empty()
        || ends_tilde(context, others)
        || is_joined(others)
        || is_last_backquote(others)
    {
        length + 1
    } else {
        0
    }
}

fn may_be_tilde(context: Context, prior: u8, at: usize) -> bool
    ensures { result ≡ words.may_be_tilde context prior at }
{
    !is_quoted(context.site) && (at == context.origin as usize || (context.colons && prior == b':'))
}

/// Whether the byte at `at` begins a tilde-prefix.
#[tactic(auto, unfolding(sh_tree::specs::standard::language::Words::is_tilde))]
pub fn is_tilde(context: Context, prior: u8, at: usize, byte: u8, rest: &[u8]) -> bool
    ensures { result ≡ words.is_tilde context prior at byte rest.now }
{
    byte == b'~' && may_be_tilde(context, prior, at) && tilde_length(context, rest) != 0
}
