//! The bytes of names and constants, in two pieces: a token, and what follows the line
//! continuations that follow it.
ghost use Rattle.std.specs.Prelude.{◌≡◌, ◌≤◌, ◌<◌, ◌+◌, ◌++◌, length, drop, codes};
ghost use Rattle.sh_tree.specs.standard.language.Bytes as bytes;
ghost use Rattle.sh_scan.specs.Alphabets.{belongs};

use sh_tree::{MAX_SCRIPT, is_digit, is_name_byte};

/// Of which bytes names and constants are made.
#[derive(Clone, Copy, Debug, PartialEq, Eq)]
pub enum Alphabet {
    Name,
    Decimal,
    Octal,
    Hexadecimal,
}

fn belongs(alphabet: Alphabet, byte: u8) -> bool
    ensures { result ≡ belongs alphabet byte }
{
    match alphabet {
        Alphabet::Name => is_name_byte(byte),
        Alphabet::Decimal => is_digit(byte),
        Alphabet::Octal => matches!(byte, b'0'..=b'7'),
        Alphabet::Hexadecimal => is_digit(byte) || matches!(byte, b'A'..=b'F' | b'a'..=b'f'),
    }
}

fn run(alphabet: Alphabet, rest: &[u8]) -> usize
    ensures value { result ≡ bytes.run (belongs alphabet) rest.now }
    ensures within { result ≤ length rest.now }
{
    rest.iter()
        .take_while(|byte| belongs(alphabet, **byte))
        .count()
}

/// How many bytes of an alphabet are at the front of both pieces.
#[tactic(auto, using(crate::proofs::RunLemmas::run_ends, crate::proofs::RunLemmas::run_over))]
pub fn run_over(alphabet: Alphabet, front: &[u8], rest: &[u8]) -> usize
    requires small { length front.now + length rest.now ≤ MAX_SCRIPT }
    ensures value { result ≡ bytes.run (belongs alphabet) (front.now ++ rest.now) }
    ensures within { result ≤ length front.now + length rest.now }
{
    let count = run(alphabet, front);
    if count < front.len() {
        count
    } else {
        count + run(alphabet, rest)
    }
}

/// How many bytes of an alphabet are after the first byte of both pieces.
pub fn run_behind_first(alphabet: Alphabet, front: &[u8], rest: &[u8]) -> usize
    requires small { length front.now + length rest.now ≤ MAX_SCRIPT }
    ensures value { result ≡ bytes.run (belongs alphabet) (drop 1 (front.now ++ rest.now)) }
    ensures within { 0 < result → result < length front.now + length rest.now }
{
    match front {
        [] => match rest {
            [] => 0,
            [_, others @ ..] => run(alphabet, others),
        },
        [_, others @ ..] => run_over(alphabet, others, rest),
    }
}

/// Whether the first byte is the letter of a hexadecimal constant.
#[tactic(auto, unfolding(sh_tree::specs::standard::language::Bytes::is_first))]
pub fn begins_x(front: &[u8], rest: &[u8]) -> bool
    ensures { result ≡ bytes.is_first (bytes.is_in (codes "xX")) (front.now ++ rest.now) }
{
    match front {
        [] => match rest {
            [] => false,
            [first, ..] => *first == b'x' || *first == b'X',
        },
        [first, ..] => *first == b'x' || *first == b'X',
    }
}
