//! The tokens of arithmetic, as a builder uses them.
ghost use Rattle.std.specs.Prelude.{◌≡◌, ◌≤◌, length};
ghost use Rattle.sh_words.specs.Lexemes.{IsLexeme};
ghost use Rattle.sh_words.specs.Lexemes as lexemes;

use sh_scan::{assignment_of, lexeme_at};
use sh_tree::{Binary, Expr, Figure, Lexeme, MAX_SCRIPT, Span};

/// The token at or after `at`.
pub fn lexeme(script: &[u8], at: u32) -> Lexeme
    requires small { length script.now ≤ MAX_SCRIPT }
    requires inside { at ≤ length script.now }
    ensures { IsLexeme script.now at result }
{
    lexeme_at(script, at)
}

pub fn span_of(lexeme: Lexeme) -> Span
    ensures { result ≡ lexemes.span_of lexeme }
{
    Span {
        start: lexeme.start,
        end: lexeme.end,
    }
}

/// The operator of an assignment that begins with the two tokens.
#[tactic(auto, unfolding(crate::specs::Lexemes::assigned))]
pub fn assigned(first: Figure, second: Figure) -> Option<Option<Binary>>
    ensures { result ≡ lexemes.assigned first second }
{
    match first {
        Figure::Name => assignment_of(second),
        _ => None,
    }
}

/// The operand that a token is, if it is a whole one.
#[tactic(auto, unfolding(crate::specs::Lexemes::operand_of))]
pub fn operand_of(lexeme: Lexeme) -> Option<Expr>
    ensures { result ≡ lexemes.operand_of lexeme.figure (lexemes.span_of lexeme) }
{
    match lexeme.figure {
        Figure::Constant => Some(Expr::Constant(span_of(lexeme))),
        Figure::Name => Some(Expr::Variable(span_of(lexeme))),
        _ => None,
    }
}

/// Whether such a token may come after an expression.
pub fn follows(figure: Figure) -> bool
    ensures { result ≡ lexemes.follows figure }
{
    matches!(
        figure,
        Figure::Binary(_) | Figure::Question | Figure::Colon | Figure::Close
    )
}

/// Whether an operand may begin with such a token that touches another one.
pub fn begins_operand(figure: Figure) -> bool
    ensures { result ≡ lexemes.begins_operand figure }
{
    matches!(figure, Figure::Dollar | Figure::Name | Figure::Constant)
}
