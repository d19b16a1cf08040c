//! Bytes that mean themselves.
ghost use Rattle.std.specs.Prelude.{◌≡◌, ◌≤◌, ◌+◌, length};
ghost use Rattle.sh_tree.specs.standard.language.Words as words;

use super::dollar::is_literal_dollar;
use super::sites::{is_escaped, is_quoted, is_special, stops};
use super::tilde::is_tilde;
use sh_tree::{Context, MAX_SCRIPT, Site};

/// Whether the byte is a tab that is no part of the text.
pub fn is_stripped(context: Context, prior: u8, byte: u8) -> bool
    ensures { result ≡ words.is_stripped context prior byte }
{
    context.strip && prior == b'\n' && byte == b'\t'
}

#[tactic(auto, unfolding(sh_tree::specs::standard::language::Bytes::is_first))]
fn is_literal_backslash(site: Site, rest: &[u8]) -> bool
    ensures { result ≡ words.is_literal_backslash site rest.now }
{
    match rest {
        [] => false,
        [first, ..] => !is_escaped(site, *first),
    }
}

/// Whether a byte that means more than itself elsewhere is a literal one before `rest`.
fn is_literal(site: Site, byte: u8, rest: &[u8]) -> bool
    ensures { result ≡ words.is_literal site byte rest.now }
{
    if byte == b'$' {
        is_literal_dollar(is_quoted(site), rest)
    } else {
        byte == b'\\' && is_literal_backslash(site, rest)
    }
}

/// Whether the byte at `at` means itself, after the byte `prior` and before `rest`.
#[tactic(auto, unfolding(sh_tree::specs::standard::language::Words::stands))]
pub fn stands(context: Context, prior: u8, at: usize, byte: u8, rest: &[u8]) -> bool
    ensures { result ≡ words.stands context prior at byte rest.now }
{
    !stops(context.site, byte)
        && !is_stripped(context, prior, byte)
        && !is_tilde(context, prior, at, byte, rest)
        && (!is_special(context.site, byte) || is_literal(context.site, byte, rest))
}

/// How many bytes mean themselves.
pub fn plain_length(context: Context, prior: u8, at: usize, rest: &[u8]) -> usize
    requires small { at + length rest.now ≤ MAX_SCRIPT }
    ensures value { result ≡ words.plain_length context prior at rest.now }
    ensures within { result ≤ length rest.now }
{
    let mut prior = prior;
    for (count, byte) in rest.iter().enumerate() {
        if !stands(context, prior, at + count, *byte, &rest[count + 1..]) {
            return count;
        }
        prior = *byte;
    }
    rest.len()
}
