//! The front of a text.
ghost use Rattle.std.specs.Prelude.{◌≡◌, ◌≤◌, ◌<◌, ◌==◌, true, length};
ghost use Rattle.sh_tree.specs.standard.language.Bytes as bytes;
ghost use Rattle.sh_tree.specs.standard.language.Commands as commands;
ghost use Rattle.sh_tree.specs.standard.language.Words as words;
ghost use Rattle.sh_scan.specs.Steps.{joined_step};

use crate::bytes::ends_token;
use sh_tree::{MAX_SCRIPT, is_digit, name_length};

/// Whether the text begins with the byte.
#[tactic(auto, unfolding(sh_tree::specs::standard::language::Bytes::is_first))]
pub fn begins_with(rest: &[u8], byte: u8) -> bool
    ensures value { result ≡ bytes.is_first (λ c. c == byte) rest.now }
    ensures within { result ≡ true → 0 < length rest.now }
{
    match rest {
        [] => false,
        [first, ..] => *first == byte,
    }
}

/// Whether the text begins with `<` or `>`.
#[tactic(auto, unfolding(sh_tree::specs::standard::language::Bytes::is_first))]
pub fn begins_angle(rest: &[u8]) -> bool
    ensures { result ≡ commands.is_angle rest.now }
{
    match rest {
        [] => false,
        [first, ..] => *first == b'<' || *first == b'>',
    }
}

/// How many digits there are at the front.
pub fn digit_length(rest: &[u8]) -> usize
    ensures value { result ≡ bytes.run bytes.is_digit rest.now }
    ensures within { result ≤ length rest.now }
{
    rest.iter().take_while(|byte| is_digit(**byte)).count()
}

/// How many bytes the line continuation at the front has.
#[tactic(auto, unfolding(crate::specs::Steps::joined_step))]
pub fn joined_step(rest: &[u8]) -> usize
    ensures value { result ≡ joined_step rest.now }
    ensures within { result ≤ length rest.now }
{
    match rest {
        [b'\\', b'\n', ..] => 2,
        _ => 0,
    }
}

/// How many bytes of line continuations there are at the front.
pub fn joined_length(rest: &[u8]) -> usize
    ensures value { result ≡ bytes.joined_length rest.now }
    ensures within { result ≤ length rest.now }
{
    let mut length = 0;
    loop {
        let step = joined_step(&rest[length..]);
        if step == 0 {
            return length;
        }
        length += step;
    }
}

/// Whether a line continuation is at the front.
#[tactic(auto, using(crate::proofs::StepLemmas::is_joined_is), unfolding(crate::specs::Steps::joined_step))]
pub fn is_joined(rest: &[u8]) -> bool
    ensures value { result ≡ bytes.is_joined rest.now }
    ensures within { result ≡ true → 1 < length rest.now }
{
    joined_step(rest) != 0
}

/// The text after the line continuations at its front.
pub fn behind_joined(rest: &[u8]) -> &[u8]
    ensures { result.now ≡ bytes.behind_joined rest.now }
{
    &rest[joined_length(rest)..]
}

/// Whether the text is one backquote, which closes the commands that the text is of (XCU 2.6.3).
#[tactic(auto, unfolding(sh_tree::specs::standard::language::Bytes::is_last_backquote))]
pub fn is_last_backquote(rest: &[u8]) -> bool
    ensures value { result ≡ bytes.is_last_backquote rest.now }
    ensures within { result ≡ true → 0 < length rest.now }
{
    match rest {
        [only] => *only == b'`',
        _ => false,
    }
}

/// Whether a word ends before `rest`. Line continuations are no part of the word.
#[tactic(auto, unfolding(sh_tree::specs::standard::language::Bytes::is_first))]
pub fn ends_joined(rest: &[u8]) -> bool
    ensures { result ≡ words.ends_joined rest.now }
{
    let behind = behind_joined(rest);
    match behind {
        [] => true,
        [first, ..] => ends_token(*first) || is_last_backquote(behind),
    }
}

/// Where the name at `at` ends, or `at` if none begins there (XBD 3.216).
#[tactic(auto, unfolding(sh_tree::specs::standard::language::Commands::name_end))]
pub fn name_at(script: &[u8], at: u32) -> u32
    requires small { length script.now ≤ MAX_SCRIPT }
    requires inside { at ≤ length script.now }
    ensures value { result ≡ commands.name_end script.now at }
    ensures within { result ≤ length script.now }
    ensures after { at ≤ result }
{
    (at as usize + name_length(&script[at as usize..])) as u32
}
