//! Tokens of arithmetic (XCU 2.6.4).
mod alphabets;
mod constants;
mod figures;
mod operators;
mod spaces;

ghost use Rattle.std.specs.Prelude.{◌≡◌, ◌≢◌, ◌≤◌, ◌<◌, ◌+◌, true, length};
ghost use Rattle.sh_tree.specs.standard.language.Arithmetic as arithmetic;
ghost use Rattle.sh_scan.specs.Moves.{reads_figure};

use crate::front::{begins_with, behind_joined, is_joined};
use figures::figure_of;
pub use operators::{assignment_of, binary_of, unary_of};
use sh_tree::{Figure, Form, Lexeme, MAX_SCRIPT};
use spaces::space_length;

/// Whether line continuations after the token of so many bytes at the front keep it from being a
/// longer one.
fn is_split(rest: &[u8], count: usize) -> bool
    requires some { 0 < count }
    requires inside { count ≤ length rest.now }
    requires small { length rest.now ≤ MAX_SCRIPT }
    ensures value { result ≡ arithmetic.is_split rest.now count }
    ensures within { result ≡ true → count < length rest.now }
{
    let behind = &rest[count..];
    if !is_joined(behind) {
        return false;
    }
    let (_, longer) = figure_of(&rest[..count], behind_joined(behind));
    count < longer
}

/// The token at the front of a text from `at` on.
fn lexeme_of(rest: &[u8], at: usize) -> Lexeme
    requires small { at + length rest.now ≤ MAX_SCRIPT }
    ensures value { result ≡ arithmetic.lexeme_from rest.now at (arithmetic.figure_of rest.now) }
    ensures after { at ≤ result.start }
    ensures ordered { result.start ≤ result.end }
    ensures within { result.end ≤ at + length rest.now }
    ensures moves { reads_figure result.figure ≡ true → result.start < result.end }
    ensures told { result.figure ≢ Figure.End → result.start < at + length rest.now }
{
    let (figure, count) = figure_of(rest, &[]);
    if count != 0 && is_split(rest, count) {
        let behind = (at + count) as u32;
        return Lexeme {
            figure: Figure::LeftOut(Form::Continuation),
            start: behind,
            end: behind,
        };
    }
    Lexeme {
        figure,
        start: at as u32,
        end: (at + count) as u32,
    }
}

/// The token at or after `at`.
#[tactic(auto, unfolding(sh_tree::specs::standard::language::Arithmetic::lexeme, sh_tree::specs::standard::language::Arithmetic::lexeme_start))]
pub fn lexeme_at(script: &[u8], at: u32) -> Lexeme
    requires small { length script.now ≤ MAX_SCRIPT }
    requires inside { at ≤ length script.now }
    ensures value { result ≡ arithmetic.lexeme script.now at }
    ensures after { at ≤ result.start }
    ensures ordered { result.start ≤ result.end }
    ensures within { result.end ≤ length script.now }
    ensures moves { reads_figure result.figure ≡ true → result.start < result.end }
    ensures told { result.figure ≢ Figure.End → result.start < length script.now }
{
    let start = at as usize + space_length(&script[at as usize..]);
    lexeme_of(&script[start..], start)
}

/// Whether a closing parenthesis is at `at`, which after another closes the expansion.
#[tactic(auto, unfolding(sh_tree::specs::standard::language::Arithmetic::is_closed))]
pub fn is_closed(script: &[u8], at: u32) -> bool
    requires small { length script.now ≤ MAX_SCRIPT }
    requires inside { at ≤ length script.now }
    ensures value { result ≡ arithmetic.is_closed script.now at }
    ensures within { result ≡ true → at < length script.now }
{
    begins_with(&script[at as usize..], b')')
}
