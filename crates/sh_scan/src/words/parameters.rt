//! Parameters of expansions (XCU 2.5).
ghost use Rattle.std.specs.Prelude.{◌≡◌, ◌≤◌, ◌<◌, ◌+◌, Option, Some, None, length, if◌then◌else◌, nat_le, IfSome};
ghost use Rattle.sh_tree.specs.standard.language.Bytes as bytes;
ghost use Rattle.sh_tree.specs.standard.language.Words as words;
ghost use Rattle.sh_tree.specs.standard.language.Trees as tree;

use crate::front::{begins_with, digit_length};
use sh_tree::{MAX_SCRIPT, Span, Special, Subject, name_length};

/// The bytes from `start` up to `end`.
pub fn span(start: usize, end: usize) -> Span
    requires ordered { start ≤ end }
    requires small { end ≤ MAX_SCRIPT }
    ensures { result ≡ tree.span start end }
{
    Span {
        start: start as u32,
        end: end as u32,
    }
}

/// The special parameter that the byte names.
#[tactic(auto, unfolding(sh_tree::specs::standard::language::Words::special_of))]
pub fn special_of(byte: u8) -> Option<Special>
    ensures { result ≡ words.special_of byte }
{
    match byte {
        b'@' => Some(Special::At),
        b'*' => Some(Special::Asterisk),
        b'#' => Some(Special::NumberSign),
        b'?' => Some(Special::QuestionMark),
        b'-' => Some(Special::Hyphen),
        b'$' => Some(Special::Dollar),
        b'!' => Some(Special::Exclamation),
        b'0' => Some(Special::Zero),
        _ => None,
    }
}

/// The number of decimal digits, unless it is more than 65,535.
fn number_of(digits: &[u8]) -> Option<u16>
    ensures { result ≡ if nat_le (bytes.decimal 0 digits.now) 65535 then Some (bytes.decimal 0 digits.now) else None }
{
    let mut number: u16 = 0;
    for digit in digits {
        let next = u32::from(number) * 10 + u32::from(digit.saturating_sub(b'0'));
        if next > 65_535 {
            return None;
        }
        number = next as u16;
    }
    Some(number)
}

/// The parameter whose digits are at `at`.
#[tactic(auto, unfolding(sh_tree::specs::standard::language::Words::numeric_parameter))]
fn positional(at: usize, digits: &[u8]) -> Option<(Subject, usize)>
    requires small { at + length digits.now ≤ MAX_SCRIPT }
    ensures value { result ≡ words.numeric_parameter at digits.now }
    ensures within { IfSome result (λ found. found.1 ≤ length digits.now) }
{
    let count = digits.len();
    if count == 0 {
        None
    } else if begins_with(digits, b'0') {
        if count == 1 {
            Some((Subject::Special(Special::Zero, span(at, at + 1)), 1))
        } else {
            None
        }
    } else if count > 5 {
        None
    } else {
        match number_of(digits) {
            Some(number) => Some((Subject::Positional(number, span(at, at + count)), count)),
            None => None,
        }
    }
}

/// The parameter at `at` that may have an operator, and its length.
#[tactic(auto, unfolding(sh_tree::specs::standard::language::Words::parameter))]
pub fn parameter(at: usize, rest: &[u8]) -> Option<(Subject, usize)>
    requires small { at + length rest.now ≤ MAX_SCRIPT }
    ensures value { result ≡ words.parameter at rest.now }
    ensures within { IfSome result (λ found. found.1 ≤ length rest.now) }
{
    let length = name_length(rest);
    if length == 0 {
        positional(at, &rest[..digit_length(rest)])
    } else {
        Some((Subject::Name(span(at, at + length)), length))
    }
}
