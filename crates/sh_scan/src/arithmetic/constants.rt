//! Constants of arithmetic.
ghost use Rattle.std.specs.Prelude.{◌≡◌, ◌≤◌, ◌<◌, ◌+◌, ◌++◌, ◌∷◌, true, length};
ghost use Rattle.sh_tree.specs.standard.language.Bytes as bytes;
ghost use Rattle.sh_tree.specs.standard.language.Arithmetic as arithmetic;

use super::alphabets::{Alphabet, begins_x, run_behind_first, run_over};
use sh_tree::MAX_SCRIPT;

/// How long the constant is that begins with a digit, before the text of both pieces.
#[tactic(auto, using(crate::proofs::ArithmeticLemmas::constant_is))]
pub fn constant_length(first: u8, others: &[u8], rest: &[u8]) -> usize
    requires small { length others.now + length rest.now ≤ MAX_SCRIPT }
    requires digit { bytes.is_digit first ≡ true }
    ensures value { result ≡ arithmetic.constant_length (first ∷ (others.now ++ rest.now)) }
    ensures within { result ≤ length others.now + length rest.now + 1 }
    ensures moves { 0 < result }
{
    if first != b'0' {
        return run_over(Alphabet::Decimal, others, rest) + 1;
    }
    let hexadecimal = run_behind_first(Alphabet::Hexadecimal, others, rest);
    let marked = begins_x(others, rest);
    if marked && hexadecimal != 0 {
        hexadecimal + 2
    } else {
        run_over(Alphabet::Octal, others, rest) + 1
    }
}
