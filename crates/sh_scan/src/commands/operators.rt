//! Operators (XCU 2.10.2).
ghost use Rattle.std.specs.Prelude.{◌≡◌, ◌≤◌, ◌<◌, ◌++◌, ◌∷◌, ℕ, List, length, IfSome};
ghost use Rattle.sh_tree.specs.standard.language.Bytes as bytes;
ghost use Rattle.sh_tree.specs.standard.language.Bytes.{longest};
ghost use Rattle.sh_tree.specs.standard.language.Commands as commands;

use crate::bytes::is_operator_byte;
use crate::front::{behind_joined, is_joined};
use crate::pieces::begins_so;
use sh_tree::text::behind_first;
use sh_tree::{Direction, MAX_SCRIPT, Operator};

/// The operator of two bytes or more at the front of both pieces.
#[tactic(auto, unfolding(sh_tree::specs::standard::language::Bytes::longest))]
fn long_operator(front: &[u8], rest: &[u8]) -> Option<(Operator, usize)>
    ensures { result ≡ longest commands.long_operators (front.now ++ rest.now) }
{
    if begins_so(front, rest, b"<<-") {
        Some((Operator::HereDocTabs, 3))
    } else if begins_so(front, rest, b"&&") {
        Some((Operator::AndIf, 2))
    } else if begins_so(front, rest, b"||") {
        Some((Operator::OrIf, 2))
    } else if begins_so(front, rest, b";;") {
        Some((Operator::DoubleSemicolon, 2))
    } else if begins_so(front, rest, b";&") {
        Some((Operator::SemicolonAnd, 2))
    } else if begins_so(front, rest, b"<<") {
        Some((Operator::HereDoc, 2))
    } else if begins_so(front, rest, b">>") {
        Some((Operator::Append, 2))
    } else if begins_so(front, rest, b"<&") {
        Some((Operator::CopyIn, 2))
    } else if begins_so(front, rest, b">&") {
        Some((Operator::CopyOut, 2))
    } else if begins_so(front, rest, b"<>") {
        Some((Operator::ReadWrite, 2))
    } else if begins_so(front, rest, b">|") {
        Some((Operator::Clobber, 2))
    } else {
        None
    }
}

/// The operator that a byte alone is.
#[tactic(auto, unfolding(sh_tree::specs::standard::language::Bytes::longest))]
fn lone_operator(byte: u8) -> Option<(Operator, usize)>
    ensures { (cs : List ℕ) → result ≡ longest commands.short_operators (byte ∷ cs) }
{
    match byte {
        b'&' => Some((Operator::And, 1)),
        b';' => Some((Operator::Semicolon, 1)),
        b'|' => Some((Operator::Bar, 1)),
        b'(' => Some((Operator::LeftParenthesis, 1)),
        b')' => Some((Operator::RightParenthesis, 1)),
        b'<' => Some((Operator::Less, 1)),
        b'>' => Some((Operator::Greater, 1)),
        _ => None,
    }
}

/// The operator of one byte at the front.
#[tactic(auto, unfolding(sh_tree::specs::standard::language::Bytes::longest))]
fn short_at(rest: &[u8]) -> Option<(Operator, usize)>
    ensures { result ≡ longest commands.short_operators rest.now }
{
    match rest {
        [] => None,
        [first, ..] => lone_operator(*first),
    }
}

/// The operator of one byte at the front of both pieces.
fn short_operator(front: &[u8], rest: &[u8]) -> Option<(Operator, usize)>
    ensures { result ≡ longest commands.short_operators (front.now ++ rest.now) }
{
    match front {
        [] => short_at(rest),
        [first, ..] => lone_operator(*first),
    }
}

/// The operator at the front of both pieces and its length.
fn operator_over(front: &[u8], rest: &[u8]) -> Option<(Operator, usize)>
    ensures value { result ≡ commands.operator_of (front.now ++ rest.now) }
    ensures within { IfSome result (λ found. found.1 ≤ length (front.now ++ rest.now)) }
    ensures moves { IfSome result (λ found. 0 < found.1) }
{
    match long_operator(front, rest) {
        Some(found) => Some(found),
        None => short_operator(front, rest),
    }
}

#[tactic(auto, unfolding(sh_tree::specs::standard::language::Bytes::is_first))]
fn begins_operator(rest: &[u8]) -> bool
    ensures { result ≡ bytes.is_first bytes.is_operator_byte rest.now }
{
    match rest {
        [] => false,
        [first, ..] => is_operator_byte(*first),
    }
}

/// The operator at the front and its length.
pub fn operator_of(rest: &[u8]) -> Option<(Operator, usize)>
    ensures value { result ≡ commands.operator_of rest.now }
    ensures within { IfSome result (λ found. found.1 ≤ length rest.now) }
    ensures moves { IfSome result (λ found. 0 < found.1) }
{
    if !begins_operator(rest) {
        return None;
    }
    // The second byte of a longer operator begins one too.
    if !begins_operator(behind_first(rest)) {
        return short_at(rest);
    }
    operator_over(rest, &[])
}

fn is_longer(count: usize, found: Option<(Operator, usize)>) -> bool
    ensures { result ≡ commands.is_longer count found }
{
    match found {
        Some((_, length)) => count < length,
        None => false,
    }
}

/// Whether line continuations after the operator of so many bytes at the front keep it from being a
/// longer one.
#[tactic(auto, unfolding(sh_tree::specs::standard::language::Commands::is_split))]
pub fn is_split(rest: &[u8], count: usize) -> bool
    requires { count ≤ length rest.now }
    ensures { result ≡ commands.is_split rest.now count }
{
    let behind = &rest[count..];
    if !is_joined(behind) {
        return false;
    }
    is_longer(count, operator_over(&rest[..count], behind_joined(behind)))
}

/// The longest operator at `at`, and where it ends.
#[tactic(auto, unfolding(sh_tree::specs::standard::language::Commands::operator))]
pub fn operator_at(script: &[u8], at: u32) -> Option<(Operator, u32)>
    requires small { length script.now ≤ MAX_SCRIPT }
    requires inside { at ≤ length script.now }
    ensures value { result ≡ commands.operator script.now at }
    ensures within { IfSome result (λ found. found.1 ≤ length script.now) }
    ensures moves { IfSome result (λ found. at < found.1) }
{
    match operator_of(&script[at as usize..]) {
        Some((operator, length)) => Some((operator, (at as usize + length) as u32)),
        None => None,
    }
}

/// What a redirection by the operator opens, if that is no here-document.
#[tactic(auto, unfolding(sh_tree::specs::standard::language::Commands::direction_of))]
pub fn direction_of(operator: Operator) -> Option<Direction>
    ensures { result ≡ commands.direction_of operator }
{
    match operator {
        Operator::Less => Some(Direction::Read),
        Operator::Greater => Some(Direction::Write),
        Operator::Clobber => Some(Direction::Clobber),
        Operator::Append => Some(Direction::Append),
        Operator::ReadWrite => Some(Direction::Both),
        Operator::CopyIn => Some(Direction::CopyIn),
        Operator::CopyOut => Some(Direction::CopyOut),
        _ => None,
    }
}

/// Of the operator of a here-document, whether it is `<<-`.
#[tactic(auto, unfolding(sh_tree::specs::standard::language::Commands::strip_of))]
pub fn strip_of(operator: Operator) -> Option<bool>
    ensures { result ≡ commands.strip_of operator }
{
    match operator {
        Operator::HereDoc => Some(false),
        Operator::HereDocTabs => Some(true),
        _ => None,
    }
}

/// Whether the operator is that of a redirection.
#[tactic(auto, unfolding(sh_tree::specs::standard::language::Commands::redirects))]
pub fn redirects(operator: Operator) -> bool
    ensures { result ≡ commands.redirects operator }
{
    !matches!(
        operator,
        Operator::AndIf
            | Operator::OrIf
            | Operator::DoubleSemicolon
            | Operator::SemicolonAnd
            | Operator::And
            | Operator::Semicolon
            | Operator::Bar
            | Operator::LeftParenthesis
            | Operator::RightParenthesis
    )
}
