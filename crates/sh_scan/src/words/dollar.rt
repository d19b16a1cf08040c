//! What a `$` begins (XCU 2.6).
ghost use Rattle.std.specs.Prelude.{◌≡◌, ◌≢◌, ◌≤◌, ◌<◌, ◌+◌, true, length, drop};
ghost use Rattle.sh_tree.specs.standard.language.Bytes as bytes;
ghost use Rattle.sh_tree.specs.standard.language.Words as words;
ghost use Rattle.sh_scan.specs.Moves.{reads_bytes, refuses};

use super::braced::braced_sign;
use super::escapes::dollar_quoted;
use super::parameters::{span, special_of};
use super::sites::is_among;
use crate::front::{begins_with, behind_joined, is_joined};
use sh_tree::{
    CommandStyle, Context, Form, MAX_SCRIPT, Sign, Special, Subject, is_name_byte, is_name_start,
    name_length,
};

fn opens_dollar(quoted: bool, byte: u8) -> bool
    ensures { result ≡ words.opens_dollar quoted byte }
{
    is_name_byte(byte) || is_among(b"@*#?-$!{([", byte) || (!quoted && is_among(b"'\"", byte))
}

/// Whether the `$` before `rest` means itself, whether continuations follow or not.
#[tactic(auto, unfolding(sh_tree::specs::standard::language::Bytes::is_first))]
pub fn is_literal_dollar(quoted: bool, rest: &[u8]) -> bool
    ensures { result ≡ words.is_literal_dollar quoted rest.now }
{
    match behind_joined(rest) {
        [] => true,
        [first, ..] => !opens_dollar(quoted, *first),
    }
}

#[tactic(auto, unfolding(sh_tree::specs::standard::language::Bytes::is_first))]
fn begins_name_byte(rest: &[u8]) -> bool
    ensures { result ≡ bytes.is_first bytes.is_name_byte rest.now }
{
    match rest {
        [] => false,
        [first, ..] => is_name_byte(*first),
    }
}

/// A `$` at `at` and the name that follows it.
#[tactic(auto, unfolding(sh_tree::specs::standard::language::Words::named_value))]
fn name_sign(at: usize, rest: &[u8]) -> (Sign, usize)
    requires small { at + 1 + length rest.now ≤ MAX_SCRIPT }
    ensures value { result ≡ words.named_value at (bytes.name_length rest.now) (drop (bytes.name_length rest.now) rest.now) }
    ensures within { result.1 ≤ length rest.now + 1 }
    ensures moves { 0 < result.1 }
    ensures told { refuses result.0 ≡ true → result.1 < length rest.now + 1 }
    ensures part { result.0 ≢ Sign.Stop }
{
    let length = name_length(rest);
    let others = &rest[length..];
    if is_joined(others) && begins_name_byte(behind_joined(others)) {
        (Sign::LeftOut(Form::Continuation), length + 1)
    } else {
        let name = span(at + 1, at + 1 + length);
        (Sign::Value(Subject::Name(name)), length + 1)
    }
}

/// The parameter in the byte at `at`: a special one, or else a positional one.
fn one_byte(at: usize, byte: u8) -> Subject
    requires small { at < MAX_SCRIPT }
    ensures { result ≡ words.one_byte at byte (words.special_of byte) }
{
    let place = span(at, at + 1);
    match special_of(byte) {
        Some(special) => Subject::Special(special, place),
        None => Subject::Positional(u16::from(byte.saturating_sub(b'0')), place),
    }
}

/// `$(`, before `rest`.
#[tactic(auto, unfolding(sh_tree::specs::standard::language::Words::parenthesis))]
fn parenthesis(rest: &[u8]) -> (Sign, usize)
    ensures value { result ≡ words.parenthesis rest.now }
    ensures within { result.1 ≤ length rest.now + 2 }
    ensures moves { 0 < result.1 }
    ensures told { refuses result.0 ≡ true → result.1 < length rest.now + 2 }
    ensures part { result.0 ≢ Sign.Stop }
{
    if begins_with(rest, b'(') {
        (Sign::Arith, 3)
    } else if begins_with(behind_joined(rest), b'(') {
        (Sign::LeftOut(Form::Continuation), 2)
    } else {
        (Sign::Substitution(CommandStyle::Paren), 2)
    }
}

/// A `$` at `at` that opens something, before `rest`.
#[tactic(auto, unfolding(sh_tree::specs::standard::language::Words::dollar_expansion, sh_tree::specs::standard::language::Words::single_parameter))]
fn opening_sign(at: usize, rest: &[u8]) -> (Sign, usize)
    requires small { at + 1 + length rest.now ≤ MAX_SCRIPT }
    ensures value { result ≡ words.dollar_expansion at rest.now }
    ensures within { result.1 ≤ length rest.now + 1 }
    ensures moves { reads_bytes result.0 ≡ true → 0 < result.1 }
    ensures told { refuses result.0 ≡ true → result.1 < length rest.now + 1 }
    ensures part { result.0 ≢ Sign.Stop }
{
    match rest {
        [] => (Sign::Plain, 1),
        [first, others @ ..] => {
            if is_name_start(*first) {
                name_sign(at, rest)
            } else {
                match *first {
                    b'{' => braced_sign(at, others),
                    b'(' => parenthesis(others),
                    b'[' => (Sign::LeftOut(Form::DollarBracket), 0),
                    b'\'' => dollar_quoted(others),
                    b'"' => (Sign::LeftOut(Form::DollarDouble), 0),
                    byte => (Sign::Value(one_byte(at + 1, byte)), 2),
                }
            }
        }
    }
}

/// Whether the sign is `$@`.
fn is_all(sign: Sign) -> bool
    ensures { result ≡ words.is_all sign }
{
    matches!(sign, Sign::Value(Subject::Special(Special::At, _)))
}

/// What the `$` at `at` is, before `rest`. `$@` is accepted only where fields are split.
#[tactic(auto, unfolding(sh_tree::specs::standard::language::Words::dollar))]
pub fn dollar(context: Context, at: usize, rest: &[u8]) -> (Sign, usize)
    requires small { at + 1 + length rest.now ≤ MAX_SCRIPT }
    ensures value { result ≡ words.dollar context at rest.now }
    ensures within { result.1 ≤ length rest.now + 1 }
    ensures moves { reads_bytes result.0 ≡ true → 0 < result.1 }
    ensures told { refuses result.0 ≡ true → result.1 < length rest.now + 1 }
    ensures part { result.0 ≢ Sign.Stop }
{
    if is_joined(rest) {
        return (Sign::LeftOut(Form::Continuation), 1);
    }
    let found = opening_sign(at, rest);
    if is_all(found.0) && !context.fields {
        (Sign::LeftOut(Form::AllParameters), 0)
    } else {
        found
    }
}
