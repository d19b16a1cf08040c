//! Operators of arithmetic.
ghost use Rattle.std.specs.Prelude.{◌≡◌, ◌≤◌, ◌<◌, ◌+◌, ◌++◌, ◌∷◌, length, nat_eq, IfSome};
ghost use Rattle.std.specs.List.{starts_with};
ghost use Rattle.sh_tree.specs.standard.language.Bytes.{longest};
ghost use Rattle.sh_tree.specs.standard.language.Arithmetic as arithmetic;
ghost use Rattle.sh_scan.specs.Tables.{texts_of};

use crate::pieces::begins_so;
use sh_tree::{Binary, Figure, Form, Unary};

/// The operators, longer ones first; the refused ones are among them.
const OPERATORS: [(&[u8], Figure); 42] = [
    (b"<<=", Figure::Assign(Some(Binary::ShiftLeft))),
    (b">>=", Figure::Assign(Some(Binary::ShiftRight))),
    (b"++", Figure::LeftOut(Form::Arithmetic)),
    (b"--", Figure::LeftOut(Form::Arithmetic)),
    (b"<<", Figure::Binary(Binary::ShiftLeft)),
    (b">>", Figure::Binary(Binary::ShiftRight)),
    (b"<=", Figure::Binary(Binary::LessEqual)),
    (b">=", Figure::Binary(Binary::GreaterEqual)),
    (b"==", Figure::Binary(Binary::Equal)),
    (b"!=", Figure::Binary(Binary::Unequal)),
    (b"&&", Figure::Binary(Binary::And)),
    (b"||", Figure::Binary(Binary::Or)),
    (b"*=", Figure::Assign(Some(Binary::Multiply))),
    (b"/=", Figure::Assign(Some(Binary::Divide))),
    (b"%=", Figure::Assign(Some(Binary::Remainder))),
    (b"+=", Figure::Assign(Some(Binary::Add))),
    (b"-=", Figure::Assign(Some(Binary::Subtract))),
    (b"&=", Figure::Assign(Some(Binary::BitAnd))),
    (b"^=", Figure::Assign(Some(Binary::BitXor))),
    (b"|=", Figure::Assign(Some(Binary::BitOr))),
    (b"*", Figure::Binary(Binary::Multiply)),
    (b"/", Figure::Binary(Binary::Divide)),
    (b"%", Figure::Binary(Binary::Remainder)),
    (b"+", Figure::Binary(Binary::Add)),
    (b"-", Figure::Binary(Binary::Subtract)),
    (b"<", Figure::Binary(Binary::Less)),
    (b">", Figure::Binary(Binary::Greater)),
    (b"&", Figure::Binary(Binary::BitAnd)),
    (b"^", Figure::Binary(Binary::BitXor)),
    (b"|", Figure::Binary(Binary::BitOr)),
    (b"=", Figure::Assign(None)),
    (b"~", Figure::Complement),
    (b"!", Figure::Not),
    (b"?", Figure::Question),
    (b":", Figure::Colon),
    (b"(", Figure::Open),
    (b")", Figure::Close),
    (b"$", Figure::Dollar),
    (b",", Figure::LeftOut(Form::Arithmetic)),
    (b"'", Figure::LeftOut(Form::Arithmetic)),
    (b"\"", Figure::LeftOut(Form::Arithmetic)),
    (b"`", Figure::LeftOut(Form::Backquoted)),
];

/// Whether the text of the byte and both pieces begins so.
fn begins(first: u8, others: &[u8], rest: &[u8], text: &[u8]) -> bool
    ensures { result ≡ starts_with nat_eq (first ∷ (others.now ++ rest.now)) text.now }
{
    match text {
        [] => true,
        [own, behind @ ..] => *own == first && begins_so(others, rest, behind),
    }
}

/// The first text of a table with which the text of the byte and both pieces begins.
#[tactic(auto, using(crate::proofs::ArithmeticLemmas::begun_within), unfolding(sh_tree::specs::standard::language::Bytes::longest))]
fn longest(
    mut table: &[(&[u8], Figure)],
    first: u8,
    others: &[u8],
    rest: &[u8],
) -> Option<(Figure, usize)>
    ensures value { result ≡ longest (texts_of table.entry.now) (first ∷ (others.now ++ rest.now)) }
    ensures within { IfSome result (λ found. found.1 ≤ length others.now + length rest.now + 1) }
{
    while let [row, later @ ..] = table {
        if begins(first, others, rest, row.0) {
            return Some((row.1, row.0.len()));
        }
        table = later;
    }
    None
}

/// The operator that begins with the byte, before the text of both pieces, and its length.
pub fn operator(first: u8, others: &[u8], rest: &[u8]) -> Option<(Figure, usize)>
    ensures value { result ≡ longest arithmetic.operator_table (first ∷ (others.now ++ rest.now)) }
    ensures within { IfSome result (λ found. found.1 ≤ length others.now + length rest.now + 1) }
    ensures moves { IfSome result (λ found. 0 < found.1) }
{
    longest(&OPERATORS, first, others, rest)
}

/// The binary operator of a level, if the token is one.
#[tactic(auto, unfolding(sh_tree::specs::standard::language::Arithmetic::binary_of))]
pub fn binary_of(level: u8, figure: Figure) -> Option<Binary>
    ensures { result ≡ arithmetic.binary_of level figure }
{
    match figure {
        Figure::Binary(operator) if level_of(operator) == level => Some(operator),
        _ => None,
    }
}

fn level_of(operator: Binary) -> u8
    ensures { result ≡ arithmetic.level_of operator }
{
    match operator {
        Binary::Or => 0,
        Binary::And => 1,
        Binary::BitOr => 2,
        Binary::BitXor => 3,
        Binary::BitAnd => 4,
        Binary::Equal | Binary::Unequal => 5,
        Binary::Less | Binary::LessEqual | Binary::Greater | Binary::GreaterEqual => 6,
        Binary::ShiftLeft | Binary::ShiftRight => 7,
        Binary::Add | Binary::Subtract => 8,
        Binary::Multiply | Binary::Divide | Binary::Remainder => 9,
    }
}

/// The unary operator, if the token is one.
#[tactic(auto, unfolding(sh_tree::specs::standard::language::Arithmetic::unary_of))]
pub fn unary_of(figure: Figure) -> Option<Unary>
    ensures { result ≡ arithmetic.unary_of figure }
{
    match figure {
        Figure::Binary(Binary::Add) => Some(Unary::Plus),
        Figure::Binary(Binary::Subtract) => Some(Unary::Minus),
        Figure::Complement => Some(Unary::Complement),
        Figure::Not => Some(Unary::Not),
        _ => None,
    }
}

/// The operator before the `=` of an assignment, or none; nothing if the token is no assignment.
#[tactic(auto, unfolding(sh_tree::specs::standard::language::Arithmetic::assignment_of))]
pub fn assignment_of(figure: Figure) -> Option<Option<Binary>>
    ensures { result ≡ arithmetic.assignment_of figure }
{
    match figure {
        Figure::Assign(operator) => Some(operator),
        _ => None,
    }
}
