//! Operands of commands: what the profile requires of them, and the options of `set` and `command`.
ghost use Rattle.std.specs.Prelude.{◌≡◌, drop, map, is_some, option_map, Some, nat_lt, false};
ghost use Rattle.std.specs.List.{list_all, list_any};
ghost use Rattle.sh_tree.specs.standard.language.Bytes as bytes;
ghost use Rattle.sh_runs.specs.Profile as profile;
ghost use Rattle.sh_table.specs.WordTexts.{text_in};
ghost use Rattle.sh_runs.specs.standard.runs.Numbers as numbers;
ghost use Rattle.sh_runs.specs.standard.runs.Operands as operands;
ghost use Rattle.sh_runs.specs.standard.runs.Rows as rows;

use crate::word_text::WordText;
use sh_runs::{Kind, ends_options, is_dashed, kind_of};
use sh_tree::{is_digit, name_length};

fn are_digits(text: &[u8]) -> bool
    ensures { result ≡ list_all bytes.is_digit text.now }
{
    text.iter().all(|byte| is_digit(*byte))
}

/// Whether the text is a decimal numeral.
#[tactic(auto, unfolding(sh_runs::specs::standard::runs::Numbers::is_number))]
pub fn is_number(text: &[u8]) -> bool
    ensures { result ≡ numbers.is_number text.now }
{
    match text {
        [] => false,
        _ => are_digits(text),
    }
}

fn is_not_zero(text: &[u8]) -> bool
    ensures { result ≡ list_any (λ c. nat_lt 48 c) text.now }
{
    text.iter().any(|byte| *byte > b'0')
}

/// Whether the text is a decimal numeral from 1, however long.
#[tactic(auto, using(crate::proofs::OperandTests::count_text))]
fn is_count(text: &[u8]) -> bool
    ensures { result ≡ rows.is_count (Some text.now) }
{
    is_number(text) && is_not_zero(text)
}

#[tactic(auto, unfolding(sh_runs::specs::standard::runs::Rows::is_count))]
fn holds_count(operand: &WordText, script: &[u8]) -> bool
    ensures { result ≡ rows.is_count (text_in script.now operand.now) }
{
    match operand.get(script) {
        Some(text) => is_count(text),
        None => false,
    }
}

fn each_counts(words: &[WordText], script: &[u8]) -> bool
    ensures { result ≡ list_all (λ w. rows.is_count (text_in script.now w)) words.now }
{
    words.iter().all(|word| holds_count(word, script))
}

fn is_static(operand: &WordText, script: &[u8]) -> bool
    ensures { result ≡ is_some (text_in script.now operand.now) }
{
    operand.get(script).is_some()
}

fn each_static(words: &[WordText], script: &[u8]) -> bool
    ensures { result ≡ list_all (λ w. is_some (text_in script.now w)) words.now }
{
    words.iter().all(|word| is_static(word, script))
}

/// Whether each operand is a static number from 1.
pub fn are_counts(words: &[WordText], script: &[u8]) -> bool
    ensures { result ≡ list_all rows.is_count (map (text_in script.now) words.now) }
{
    each_counts(words, script)
}

/// Whether each operand is static.
pub fn are_static(words: &[WordText], script: &[u8]) -> bool
    ensures { result ≡ list_all is_some (map (text_in script.now) words.now) }
{
    each_static(words, script)
}

#[tactic(auto, unfolding(sh_runs::specs::standard::runs::Rows::is_no_action, sh_runs::specs::standard::runs::Numbers::number_in))]
fn is_no_action(words: &[WordText], script: &[u8]) -> bool
    ensures { result ≡ rows.is_no_action (map (text_in script.now) words.now) }
{
    match words {
        [] => true,
        [first, ..] => match first.get(script) {
            None => false,
            Some(text) => text.is_empty() || matches!(text, b"-") || is_number(text),
        },
    }
}

/// Whether `trap` is given no action (XCU 2.15, trap).
#[tactic(auto, unfolding(sh_runs::specs::standard::runs::Rows::traps_nothing))]
pub fn traps_nothing(words: &[WordText], script: &[u8]) -> bool
    ensures { result ≡ rows.traps_nothing (map (text_in script.now) words.now) }
{
    match words {
        [] => is_no_action(words, script),
        [first, rest @ ..] => match first.get(script) {
            Some(b"--") => is_no_action(rest, script),
            _ => is_no_action(words, script),
        },
    }
}

/// Whether `command` may run what has this kind (XCU 3, command).
#[tactic(auto, unfolding(sh_runs::specs::standard::runs::Rows::may_run))]
fn may_run(kind: Kind) -> bool
    ensures { result ≡ rows.may_run kind }
{
    match kind {
        Kind::True => true,
        Kind::False => true,
        Kind::Utility => true,
        Kind::Special(_) => false,
        Kind::Cd => false,
        Kind::Command => false,
        Kind::Getopts => false,
        Kind::Read => false,
        Kind::Refused(_) => false,
    }
}

#[tactic(auto, unfolding(sh_runs::specs::standard::runs::Rows::runs_utility))]
fn runs_utility(words: &[WordText], script: &[u8]) -> bool
    ensures { result ≡ rows.runs_utility (map (text_in script.now) words.now) }
{
    match words {
        [] => true,
        [first, ..] => match first.get(script) {
            None => false,
            Some(name) => may_run(kind_of(name)),
        },
    }
}

fn is_command_letter(byte: u8) -> bool
    ensures { result ≡ rows.is_command_letter byte }
{
    byte == b'p' || byte == b'v' || byte == b'V'
}

fn are_command_letters(text: &[u8]) -> bool
    ensures { result ≡ list_all rows.is_command_letter text.now }
{
    text.iter().all(|byte| is_command_letter(*byte))
}

fn has_command_letters(text: &[u8]) -> bool
    ensures { result ≡ rows.has_command_letters text.now }
{
    match text {
        [] => true,
        [_, letters @ ..] => are_command_letters(letters),
    }
}

/// Whether an option of `command` only describes a name.
fn describes(text: &[u8]) -> bool
    ensures { result ≡ rows.describes text.now }
{
    text.iter().any(|byte| *byte == b'v' || *byte == b'V')
}

/// Whether `command` runs what the profile admits (XCU 3, command).
#[tactic(auto, unfolding(sh_runs::specs::standard::runs::Rows::commands_utility))]
pub fn commands_utility(words: &[WordText], script: &[u8]) -> bool
    ensures { result ≡ rows.commands_utility (map (text_in script.now) words.now) }
{
    let mut rest = words;
    while let [first, others @ ..] = rest {
        let Some(text) = first.get(script) else {
            return false;
        };
        if ends_options(text) {
            return runs_utility(others, script);
        }
        if !is_dashed(text) {
            return may_run(kind_of(text));
        }
        if !has_command_letters(text) {
            return false;
        }
        if describes(text) {
            return true;
        }
        rest = others;
    }
    true
}

/// Whether an `o` is before the last letter.
#[tactic(auto, using(crate::proofs::OperandTests::inner_o))]
fn has_inner_o(text: &[u8]) -> bool
    ensures { result ≡ profile.has_inner_o text.now }
{
    match text {
        [] => false,
        [inner @ .., _] => inner.contains(&b'o'),
    }
}

/// Whether the text ends in `o`, as an option of `set` does that takes the next operand (XCU 2.15,
/// set).
#[tactic(auto, using(crate::proofs::OperandTests::last_o))]
pub fn ends_in_o(text: &[u8]) -> bool
    ensures { result ≡ operands.ends_in_o text.now }
{
    match text {
        [] => false,
        [.., last] => *last == b'o',
    }
}

#[tactic(auto, unfolding(sh_tree::specs::standard::language::Bytes::is_first))]
fn is_signed(text: &[u8]) -> bool
    ensures { result ≡ profile.is_signed text.now }
{
    match text {
        [] => false,
        [first, ..] => *first == b'-' || *first == b'+',
    }
}

/// Whether the text is `-` or `+` and more, as options of `set` are (XCU 2.15, set).
#[tactic(auto, unfolding(sh_runs::specs::standard::runs::Operands::is_set_option))]
pub fn is_set_option(text: &[u8]) -> bool
    ensures { result ≡ operands.is_set_option text.now }
{
    matches!(text, [b'-' | b'+', _, ..])
}

fn has_inner_letter_o(text: &[u8]) -> bool
    ensures { result ≡ profile.has_inner_o (drop 1 text.now) }
{
    match text {
        [] => has_inner_o(text),
        [_, letters @ ..] => has_inner_o(letters),
    }
}

/// Whether the options of `set` are known, and what follows them (XCU 2.15, set).
#[tactic(auto, unfolding(sh_runs::specs::Profile::sets_known))]
pub fn sets_known(words: &[WordText], script: &[u8]) -> bool
    ensures { result ≡ profile.sets_known false (map (text_in script.now) words.now) }
{
    let mut rest = words;
    let mut takes = false;
    while let [first, others @ ..] = rest {
        let Some(text) = first.get(script) else {
            return false;
        };
        if takes {
            if text.is_empty() || is_signed(text) {
                return false;
            }
            takes = false;
        } else {
            if ends_options(text) {
                return true;
            }
            if !is_set_option(text) {
                return !is_signed(text);
            }
            if has_inner_letter_o(text) {
                return false;
            }
            takes = ends_in_o(text);
        }
        rest = others;
    }
    true
}

/// Whether a name and `+=` are at the front, which other shells read as an assignment.
#[tactic(auto, unfolding(sh_tree::specs::standard::language::Bytes::is_first))]
pub fn is_append(text: &[u8]) -> bool
    ensures { result ≡ profile.is_append text.now }
{
    let length = name_length(text);
    length > 0 && text[length..].starts_with(b"+") && text[length + 1..].starts_with(b"=")
}
