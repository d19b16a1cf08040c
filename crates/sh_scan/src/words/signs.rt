//! What begins at a place of a word.
ghost use Rattle.std.specs.Prelude.{◌≡◌, ◌≢◌, ◌≤◌, ◌<◌, ◌+◌, true, length};
ghost use Rattle.sh_tree.specs.standard.language.Bytes as bytes;
ghost use Rattle.sh_tree.specs.standard.language.Words as words;
ghost use Rattle.sh_scan.specs.Moves.{reads_bytes, refuses};

use super::dollar::dollar;
use super::plain::{is_stripped, plain_length, stands};
use super::sites::{is_default_site, is_quoted, is_word_site, stop_length, stops};
use super::tilde::tilde_length;
use crate::front::{begins_with, ends_joined};
use memchr::memchr;
use sh_tree::{CommandStyle, Context, Fault, Form, MAX_SCRIPT, Sign, SingleStyle, Site, Token};

/// A backslash and a newline, before `rest`.
#[tactic(auto, unfolding(sh_tree::specs::standard::language::Words::continuation))]
fn continuation_sign(context: Context, rest: &[u8]) -> (Sign, usize)
    ensures value { result ≡ words.continuation context rest.now }
    ensures within { result.1 ≤ 2 }
    ensures moves { reads_bytes result.0 ≡ true → 0 < result.1 }
    ensures told { refuses result.0 ≡ true → result.1 < length rest.now + 2 }
    ensures stops { result.0 ≡ Sign.Stop → result.1 ≡ words.stop_length context.site }
{
    if is_quoted(context.site) {
        if context.strip && begins_with(rest, b'\t') {
            (Sign::LeftOut(Form::HereTab), 2)
        } else {
            (Sign::Joined, 2)
        }
    } else if is_word_site(context.site) && ends_joined(rest) {
        (Sign::Stop, 0)
    } else {
        (Sign::LeftOut(Form::Continuation), 0)
    }
}

/// A backslash that does not mean itself, before `rest`.
#[tactic(auto, unfolding(sh_tree::specs::standard::language::Words::backslash))]
fn backslash_sign(context: Context, rest: &[u8]) -> (Sign, usize)
    ensures value { result ≡ words.backslash context rest.now }
    ensures within { result.1 ≤ length rest.now + 1 }
    ensures moves { reads_bytes result.0 ≡ true → 0 < result.1 }
    ensures told { refuses result.0 ≡ true → result.1 < length rest.now + 1 }
    ensures stops { result.0 ≡ Sign.Stop → result.1 ≡ words.stop_length context.site }
{
    match rest {
        [] => (Sign::Fault(Fault::FinalBackslash), 0),
        [first, others @ ..] => {
            let default = is_default_site(context.site);
            if *first == b'\n' {
                continuation_sign(context, others)
            } else if default && *first == b'}' {
                (Sign::LeftOut(Form::BackslashInDefault), 0)
            } else if default && context.body && *first == b'"' {
                (Sign::LeftOut(Form::QuotedInDefault), 0)
            } else {
                (Sign::Escaped, 2)
            }
        }
    }
}

/// A single quote, before `rest` (XCU 2.2.2).
#[tactic(auto, unfolding(sh_tree::specs::standard::language::Words::single))]
pub fn single_sign(rest: &[u8]) -> (Sign, usize)
    ensures value { result ≡ words.single rest.now }
    ensures within { result.1 ≤ length rest.now + 1 }
    ensures moves { reads_bytes result.0 ≡ true → 0 < result.1 }
    ensures told { refuses result.0 ≡ true → result.1 < length rest.now + 1 }
    ensures part { result.0 ≢ Sign.Stop }
{
    match memchr(b'\'', rest) {
        Some(length) => (Sign::Single(SingleStyle::Plain), length + 2),
        None => (Sign::Fault(Fault::OpenSingle), 0),
    }
}

/// A double quote that ends nothing.
fn double_sign(site: Site) -> (Sign, usize)
    ensures value { result ≡ words.double site }
    ensures within { result.1 ≤ 1 }
    ensures moves { reads_bytes result.0 ≡ true → 0 < result.1 }
    ensures told { refuses result.0 ≡ true → result.1 < 1 }
    ensures part { result.0 ≢ Sign.Stop }
{
    if is_default_site(site) {
        (Sign::LeftOut(Form::QuotedInDefault), 0)
    } else {
        (Sign::Double, 1)
    }
}

/// A backquote, before `rest` (XCU 2.6.3). If it ends the text, a word ends before it.
#[tactic(auto, unfolding(sh_tree::specs::standard::language::Words::backquoted))]
fn backquoted_sign(context: Context, rest: &[u8]) -> (Sign, usize)
    ensures value { result ≡ words.backquoted context rest.now }
    ensures within { result.1 ≤ 1 }
    ensures moves { reads_bytes result.0 ≡ true → 0 < result.1 }
    ensures told { refuses result.0 ≡ true → result.1 < 1 }
    ensures stops { result.0 ≡ Sign.Stop → result.1 ≡ words.stop_length context.site }
{
    if is_word_site(context.site) && rest.is_empty() {
        (Sign::Stop, 0)
    } else if context.backquotes {
        (Sign::Substitution(CommandStyle::Backquote), 1)
    } else {
        (Sign::LeftOut(Form::Backquoted), 0)
    }
}

/// What a byte that does not mean itself begins, before `rest`.
#[tactic(auto, unfolding(sh_tree::specs::standard::language::Words::meant_by))]
fn byte_sign(context: Context, at: usize, byte: u8, rest: &[u8]) -> (Sign, usize)
    requires small { at + 1 + length rest.now ≤ MAX_SCRIPT }
    ensures value { result ≡ words.meant_by context at byte rest.now }
    ensures within { result.1 ≤ length rest.now + 1 }
    ensures moves { reads_bytes result.0 ≡ true → 0 < result.1 }
    ensures told { refuses result.0 ≡ true → result.1 < length rest.now + 1 }
    ensures stops { result.0 ≡ Sign.Stop → result.1 ≡ words.stop_length context.site }
{
    match byte {
        b'\\' => backslash_sign(context, rest),
        b'\'' => single_sign(rest),
        b'"' => double_sign(context.site),
        b'`' => backquoted_sign(context, rest),
        _ => dollar(context, at, rest),
    }
}

fn tab_length(rest: &[u8]) -> usize
    ensures value { result ≡ bytes.run bytes.is_tab rest.now }
    ensures within { result ≤ length rest.now }
{
    rest.iter().take_while(|byte| **byte == b'\t').count()
}

/// What the byte at `at` begins, after the byte `prior` and before `rest`.
#[tactic(auto, using(crate::proofs::WordLemmas::plain_first, crate::proofs::WordLemmas::tilde_some), unfolding(sh_tree::specs::standard::language::Words::sign_by))]
fn sign_by(context: Context, prior: u8, at: usize, byte: u8, rest: &[u8]) -> (Sign, usize)
    requires small { at + 1 + length rest.now ≤ MAX_SCRIPT }
    ensures value { result ≡ words.sign_by context prior at byte rest.now }
    ensures within { result.1 ≤ length rest.now + 1 }
    ensures moves { reads_bytes result.0 ≡ true → 0 < result.1 }
    ensures told { refuses result.0 ≡ true → result.1 < length rest.now + 1 }
    ensures stops { result.0 ≡ Sign.Stop → result.1 ≡ words.stop_length context.site }
{
    if stops(context.site, byte) {
        (Sign::Stop, stop_length(context.site))
    } else if is_stripped(context, prior, byte) {
        (Sign::Tabs, tab_length(rest) + 1)
    } else if stands(context, prior, at, byte, rest) {
        (Sign::Plain, plain_length(context, byte, at + 1, rest) + 1)
    } else if byte == b'~' {
        (Sign::Tilde, tilde_length(context, rest))
    } else {
        byte_sign(context, at, byte, rest)
    }
}

fn sign_at_end(site: Site) -> Sign
    ensures { result ≡ words.sign_at_end site }
{
    match site {
        Site::Word | Site::Body | Site::Verbatim => Sign::Stop,
        Site::Double | Site::Braced | Site::QuotedBraced => Sign::Open,
    }
}

#[tactic(auto, unfolding(sh_tree::specs::standard::language::Words::sign_of))]
fn sign_of(context: Context, prior: u8, at: usize, rest: &[u8]) -> (Sign, usize)
    requires small { at + length rest.now ≤ MAX_SCRIPT }
    ensures value { result ≡ words.sign_of context prior at rest.now }
    ensures within { result.1 ≤ length rest.now }
    ensures moves { reads_bytes result.0 ≡ true → 0 < result.1 }
    ensures told { refuses result.0 ≡ true → result.1 < length rest.now }
    ensures stops { result.0 ≡ Sign.Stop → result.1 ≡ words.stop_length context.site }
{
    match rest {
        [] => (sign_at_end(context.site), 0),
        [first, others @ ..] => sign_by(context, prior, at, *first, others),
    }
}

/// What begins at `at` in a context, after the plain byte `prior`, or 0 if none is before it. A
/// sign of a fault, or of a refused form, ends where that is reported.
#[tactic(auto, unfolding(sh_tree::specs::standard::language::Words::token))]
pub fn token_at(script: &[u8], context: Context, prior: u8, at: u32) -> Token
    requires small { length script.now ≤ MAX_SCRIPT }
    requires inside { at ≤ length script.now }
    ensures value { result ≡ words.token script.now context prior at }
    ensures within { result.end ≤ length script.now }
    ensures after { at ≤ result.end }
    ensures moves { reads_bytes result.sign ≡ true → at < result.end }
    ensures told { refuses result.sign ≡ true → result.end < length script.now }
    ensures stops { result.sign ≡ Sign.Stop → result.end ≡ at + words.stop_length context.site }
{
    let (sign, length) = sign_of(context, prior, at as usize, &script[at as usize..]);
    Token {
        sign,
        end: (at as usize + length) as u32,
    }
}
