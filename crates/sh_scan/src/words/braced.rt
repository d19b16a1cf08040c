//! Braced expansions, after `${` (XCU 2.6.2).
//!
//! Lengths count from the `$`: `behind` bytes of an expansion are before `rest`.
ghost use Rattle.std.specs.Prelude.{◌≡◌, ◌≢◌, ◌≤◌, ◌<◌, ◌+◌, true, length};
ghost use Rattle.sh_tree.specs.standard.language.Words as words;
ghost use Rattle.sh_scan.specs.Moves.{reads_bytes, refuses};

use super::parameters::{parameter, span, special_of};
use super::sites::begins_at;
use crate::front::{begins_with, is_joined};
use sh_tree::{Action, Fault, Form, MAX_SCRIPT, Removal, Sign, Special, Subject};

/// No braced expansion goes on with `rest`.
#[tactic(auto, unfolding(sh_tree::specs::standard::language::Words::misfit))]
fn misfit_sign(behind: usize, rest: &[u8]) -> (Sign, usize)
    requires some { 0 < behind }
    ensures value { result ≡ words.misfit behind rest.now }
    ensures told { result.1 < behind + length rest.now }
    ensures refused { refuses result.0 ≡ true }
{
    if rest.is_empty() {
        (Sign::Fault(Fault::OpenBraced), 0)
    } else if is_joined(rest) {
        (Sign::LeftOut(Form::Continuation), behind)
    } else if rest.len() == 1 && begins_with(rest, b'\\') {
        (Sign::Fault(Fault::FinalBackslash), behind)
    } else {
        (Sign::LeftOut(Form::Braced), 0)
    }
}

#[tactic(auto, unfolding(sh_tree::specs::standard::language::Words::action_of))]
fn action_of(byte: u8) -> Option<Action>
    ensures { result ≡ words.action_of byte }
{
    match byte {
        b'-' => Some(Action::Default),
        b'=' => Some(Action::Assign),
        b'?' => Some(Action::Fault),
        b'+' => Some(Action::Alternative),
        _ => None,
    }
}

/// A pattern removal of the longest or of the shortest.
#[tactic(auto, unfolding(sh_tree::specs::standard::language::Words::pattern_removal))]
fn removal_sign(subject: Subject, behind: usize, rest: &[u8]) -> (Sign, usize)
    requires some { 0 < behind }
    requires small { behind + length rest.now ≤ MAX_SCRIPT }
    ensures value { result ≡ words.pattern_removal subject behind rest.now }
    ensures within { result.1 ≤ behind + length rest.now }
    ensures moves { reads_bytes result.0 ≡ true → 0 < result.1 }
    ensures told { refuses result.0 ≡ true → result.1 < behind + length rest.now }
    ensures part { result.0 ≢ Sign.Stop }
{
    match rest {
        [] => misfit_sign(behind, rest),
        [first, ..] => {
            if *first == b'%' {
                if begins_at(rest, 1, b'%') {
                    (Sign::Remove(subject, Removal::LongSuffix), behind + 2)
                } else {
                    (Sign::Remove(subject, Removal::ShortSuffix), behind + 1)
                }
            } else if *first == b'#' {
                if begins_at(rest, 1, b'#') {
                    (Sign::Remove(subject, Removal::LongPrefix), behind + 2)
                } else {
                    (Sign::Remove(subject, Removal::ShortPrefix), behind + 1)
                }
            } else {
                misfit_sign(behind, rest)
            }
        }
    }
}

/// `-`, `=`, `?` or `+`, after a colon or not.
#[tactic(auto, unfolding(sh_tree::specs::standard::language::Words::parameter_action))]
fn use_sign(colon: bool, subject: Subject, behind: usize, rest: &[u8]) -> (Sign, usize)
    requires some { 0 < behind }
    requires small { behind + length rest.now ≤ MAX_SCRIPT }
    ensures value { result ≡ words.parameter_action colon subject behind rest.now }
    ensures within { result.1 ≤ behind + length rest.now }
    ensures moves { reads_bytes result.0 ≡ true → 0 < result.1 }
    ensures told { refuses result.0 ≡ true → result.1 < behind + length rest.now }
    ensures part { result.0 ≢ Sign.Stop }
{
    match rest {
        [] => misfit_sign(behind, rest),
        [first, ..] => match action_of(*first) {
            Some(action) => (Sign::Use(subject, action, colon), behind + 1),
            None => {
                if colon {
                    misfit_sign(behind, rest)
                } else {
                    removal_sign(subject, behind, rest)
                }
            }
        },
    }
}

/// What follows the parameter.
#[tactic(auto, unfolding(sh_tree::specs::standard::language::Words::parameter_operator))]
fn operator_sign(subject: Subject, behind: usize, rest: &[u8]) -> (Sign, usize)
    requires some { 0 < behind }
    requires small { behind + length rest.now ≤ MAX_SCRIPT }
    ensures value { result ≡ words.parameter_operator subject behind rest.now }
    ensures within { result.1 ≤ behind + length rest.now }
    ensures moves { reads_bytes result.0 ≡ true → 0 < result.1 }
    ensures told { refuses result.0 ≡ true → result.1 < behind + length rest.now }
    ensures part { result.0 ≢ Sign.Stop }
{
    if begins_with(rest, b'}') {
        (Sign::Value(subject), behind + 1)
    } else if begins_with(rest, b':') {
        use_sign(true, subject, behind + 1, &rest[1..])
    } else {
        use_sign(false, subject, behind, rest)
    }
}

/// The length of a parameter, after `${#` at `at`.
#[tactic(auto, unfolding(sh_tree::specs::standard::language::Words::parameter_length))]
fn length_sign(at: usize, rest: &[u8]) -> (Sign, usize)
    requires small { at + 3 + length rest.now ≤ MAX_SCRIPT }
    ensures value { result ≡ words.parameter_length at rest.now }
    ensures within { result.1 ≤ length rest.now + 3 }
    ensures moves { reads_bytes result.0 ≡ true → 0 < result.1 }
    ensures told { refuses result.0 ≡ true → result.1 < length rest.now + 3 }
    ensures part { result.0 ≢ Sign.Stop }
{
    match parameter(at + 3, rest) {
        Some((subject, length)) => {
            if begins_at(rest, length, b'}') {
                (Sign::Length(subject), length + 4)
            } else {
                misfit_sign(length + 3, &rest[length..])
            }
        }
        None => misfit_sign(3, rest),
    }
}

/// A special parameter in the byte at `at`, which has no operator; `rest` begins with it.
fn special_sign(at: usize, rest: &[u8], special: Option<Special>) -> (Sign, usize)
    requires some { 0 < length rest.now }
    requires small { at + length rest.now ≤ MAX_SCRIPT }
    ensures value { result ≡ words.specially at rest.now special }
    ensures within { result.1 ≤ length rest.now + 2 }
    ensures moves { reads_bytes result.0 ≡ true → 0 < result.1 }
    ensures told { refuses result.0 ≡ true → result.1 < length rest.now + 2 }
    ensures part { result.0 ≢ Sign.Stop }
{
    match special {
        Some(special) => {
            if begins_at(rest, 1, b'}') {
                (Sign::Value(Subject::Special(special, span(at, at + 1))), 4)
            } else {
                misfit_sign(3, &rest[1..])
            }
        }
        None => misfit_sign(2, rest),
    }
}

#[tactic(auto, unfolding(sh_tree::specs::standard::language::Words::special_or_length))]
fn nameless_sign(at: usize, rest: &[u8]) -> (Sign, usize)
    requires small { at + 2 + length rest.now ≤ MAX_SCRIPT }
    ensures value { result ≡ words.special_or_length at rest.now }
    ensures within { result.1 ≤ length rest.now + 2 }
    ensures moves { reads_bytes result.0 ≡ true → 0 < result.1 }
    ensures told { refuses result.0 ≡ true → result.1 < length rest.now + 2 }
    ensures part { result.0 ≢ Sign.Stop }
{
    match rest {
        [] => misfit_sign(2, rest),
        [first, others @ ..] => {
            let closed = begins_at(rest, 1, b'}');
            if *first == b'#' && !closed {
                length_sign(at, others)
            } else {
                special_sign(at + 2, rest, special_of(*first))
            }
        }
    }
}

/// The expansion that `${` at `at` begins.
#[tactic(auto, unfolding(sh_tree::specs::standard::language::Words::braced_expansion))]
pub fn braced_sign(at: usize, rest: &[u8]) -> (Sign, usize)
    requires small { at + 2 + length rest.now ≤ MAX_SCRIPT }
    ensures value { result ≡ words.braced_expansion at rest.now }
    ensures within { result.1 ≤ length rest.now + 2 }
    ensures moves { reads_bytes result.0 ≡ true → 0 < result.1 }
    ensures told { refuses result.0 ≡ true → result.1 < length rest.now + 2 }
    ensures part { result.0 ≢ Sign.Stop }
{
    match parameter(at + 2, rest) {
        Some((subject, length)) => operator_sign(subject, length + 2, &rest[length..]),
        None => nameless_sign(at, rest),
    }
}
