//! What a token of arithmetic is.
ghost use Rattle.std.specs.Prelude.{◌≡◌, ◌≢◌, ◌≤◌, ◌<◌, ◌+◌, ◌++◌, ◌∷◌, true, length};
ghost use Rattle.sh_tree.specs.standard.language.Bytes as bytes;
ghost use Rattle.sh_tree.specs.standard.language.Arithmetic as arithmetic;

use super::alphabets::{Alphabet, run_over};
use super::constants::constant_length;
use super::operators::operator;
use crate::pieces::begins_so;
use sh_tree::{Figure, Form, MAX_SCRIPT, is_digit, is_name_start};

#[tactic(auto, using(sh_tree::proofs::FirstLemmas::name_some), unfolding(sh_tree::specs::standard::language::Arithmetic::name_figure, sh_tree::specs::standard::language::Bytes::name_length))]
fn name_figure(front: &[u8], rest: &[u8]) -> (Figure, usize)
    requires small { length front.now + length rest.now ≤ MAX_SCRIPT }
    requires begun { bytes.is_first bytes.is_name_start (front.now ++ rest.now) ≡ true }
    ensures value { result ≡ arithmetic.name_figure (front.now ++ rest.now) }
    ensures within { result.1 ≤ length front.now + length rest.now }
    ensures moves { 0 < result.1 }
    ensures some { result.0 ≢ Figure.End }
{
    let length = run_over(Alphabet::Name, front, rest);
    if length == 6 && begins_so(front, rest, b"sizeof") {
        (Figure::LeftOut(Form::Arithmetic), 6)
    } else {
        (Figure::Name, length)
    }
}

/// No token begins so.
#[tactic(auto, unfolding(sh_tree::specs::standard::language::Arithmetic::unknown, sh_tree::specs::standard::language::Bytes::is_first))]
fn unknown_figure(first: u8, others: &[u8], rest: &[u8]) -> (Figure, usize)
    ensures value { result ≡ arithmetic.unknown (first ∷ (others.now ++ rest.now)) }
    ensures length { result.1 ≡ 1 }
    ensures some { result.0 ≢ Figure.End }
{
    if first == b'\\' && others.is_empty() && rest.is_empty() {
        (Figure::FinalBackslash, 1)
    } else {
        (Figure::Bad, 1)
    }
}

/// The token at the front of both pieces and its length.
#[tactic(auto, unfolding(sh_tree::specs::standard::language::Arithmetic::figure_of, sh_tree::specs::standard::language::Bytes::is_first))]
pub fn figure_of(front: &[u8], rest: &[u8]) -> (Figure, usize)
    requires small { length front.now + length rest.now ≤ MAX_SCRIPT }
    requires whole { length front.now ≡ 0 → length rest.now ≡ 0 }
    ensures value { result ≡ arithmetic.figure_of (front.now ++ rest.now) }
    ensures within { result.1 ≤ length front.now + length rest.now }
    ensures moves { 0 < length front.now → 0 < result.1 }
    ensures some { result.0 ≢ Figure.End → 0 < length front.now }
{
    match front {
        [] => (Figure::End, 0),
        [first, others @ ..] => {
            if is_name_start(*first) {
                name_figure(front, rest)
            } else if is_digit(*first) {
                (Figure::Constant, constant_length(*first, others, rest))
            } else {
                match operator(*first, others, rest) {
                    Some(found) => found,
                    None => unknown_figure(*first, others, rest),
                }
            }
        }
    }
}
