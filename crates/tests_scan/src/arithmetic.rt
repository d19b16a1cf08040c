use crate::check::{is_place, same};
use sh_scan::{assignment_of, binary_of, is_closed, lexeme_at, unary_of};
use sh_tree::{Binary, Figure, Form, Lexeme, Unary};
use std::process::Abort;
use std::test::Fail;

/// A text, and the token at its front with where that begins and ends.
type Row = (&'static [u8], Figure, u32, u32);

fn check(rt: &impl Abort, rows: &[Row]) {
    for (text, figure, start, end) in rows {
        let wanted = Lexeme {
            figure: *figure,
            start: *start,
            end: *end,
        };
        is_place(rt, text, 0);
        same(rt, text, &lexeme_at(text, 0), &wanted);
    }
}

const OPERANDS: &[Row] = &[
    (b"", Figure::End, 0, 0),
    (b" \t\n\\\nab1+", Figure::Name, 5, 8),
    (b"19a", Figure::Constant, 0, 2),
    (b"012a", Figure::Constant, 0, 3),
    (b"08", Figure::Constant, 0, 1),
    (b"0x1fg", Figure::Constant, 0, 4),
    (b"0X", Figure::Constant, 0, 1),
    (b"$a", Figure::Dollar, 0, 1),
    (b"(a", Figure::Open, 0, 1),
    (b"sizeof", Figure::LeftOut(Form::Arithmetic), 0, 6),
    (b"sizeof1", Figure::Name, 0, 7),
];

#[test]
fn operands(rt: HostRuntime) -> Result<(), Fail> {
    check(&rt, OPERANDS);
    Ok(())
}

const OPERATORS: &[Row] = &[
    (b"<<=1", Figure::Assign(Some(Binary::ShiftLeft)), 0, 3),
    (b"<<1", Figure::Binary(Binary::ShiftLeft), 0, 2),
    (b"<=1", Figure::Binary(Binary::LessEqual), 0, 2),
    (b"< =", Figure::Binary(Binary::Less), 0, 1),
    (b"&&", Figure::Binary(Binary::And), 0, 2),
    (b"&=", Figure::Assign(Some(Binary::BitAnd)), 0, 2),
    (b"==", Figure::Binary(Binary::Equal), 0, 2),
    (b"=1", Figure::Assign(None), 0, 1),
    (b"?", Figure::Question, 0, 1),
    (b":", Figure::Colon, 0, 1),
    (b"!a", Figure::Not, 0, 1),
    (b"!=", Figure::Binary(Binary::Unequal), 0, 2),
    (b"~", Figure::Complement, 0, 1),
    (b"))", Figure::Close, 0, 1),
];

#[test]
fn operators(rt: HostRuntime) -> Result<(), Fail> {
    check(&rt, OPERATORS);
    Ok(())
}

const REFUSED: &[Row] = &[
    (b"++a", Figure::LeftOut(Form::Arithmetic), 0, 2),
    (b"--a", Figure::LeftOut(Form::Arithmetic), 0, 2),
    (b",", Figure::LeftOut(Form::Arithmetic), 0, 1),
    (b"'", Figure::LeftOut(Form::Arithmetic), 0, 1),
    (b"\"", Figure::LeftOut(Form::Arithmetic), 0, 1),
    (b"`", Figure::LeftOut(Form::Backquoted), 0, 1),
    (b"\\", Figure::FinalBackslash, 0, 1),
    (b"\\a", Figure::Bad, 0, 1),
    (b"@", Figure::Bad, 0, 1),
];

#[test]
fn refused(rt: HostRuntime) -> Result<(), Fail> {
    check(&rt, REFUSED);
    Ok(())
}

const CONTINUATIONS: &[Row] = &[
    (b"a\\\nb", Figure::LeftOut(Form::Continuation), 1, 1),
    (b"a\\\n+", Figure::Name, 0, 1),
    (b"0\\\nx1", Figure::LeftOut(Form::Continuation), 1, 1),
    (b"0\\\n8", Figure::Constant, 0, 1),
    (b"1\\\n\\\n8", Figure::LeftOut(Form::Continuation), 1, 1),
    (b"<\\\n<", Figure::LeftOut(Form::Continuation), 1, 1),
    (b"<<\\\n=", Figure::LeftOut(Form::Continuation), 2, 2),
    (b"<\\\na", Figure::Binary(Binary::Less), 0, 1),
];

#[test]
fn continuations(rt: HostRuntime) -> Result<(), Fail> {
    check(&rt, CONTINUATIONS);
    Ok(())
}

/// A level of binary operators, a token, and the operator of that level that it is.
type Level = (u8, Figure, Option<Binary>);

fn check_levels(rt: &impl Abort, rows: &[Level]) {
    for (level, figure, wanted) in rows {
        same(rt, figure, &binary_of(*level, *figure), wanted);
    }
}

const LEVELS: &[Level] = &[
    (
        7,
        Figure::Binary(Binary::ShiftLeft),
        Some(Binary::ShiftLeft),
    ),
    (6, Figure::Binary(Binary::ShiftLeft), None),
    (8, Figure::Not, None),
];

#[test]
fn binary_operators(rt: HostRuntime) -> Result<(), Fail> {
    check_levels(&rt, LEVELS);
    Ok(())
}

/// A token, the unary operator that it is, and the assignment.
type Kind = (Figure, Option<Unary>, Option<Option<Binary>>);

fn check_kinds(rt: &impl Abort, rows: &[Kind]) {
    for (figure, unary, assignment) in rows {
        same(rt, figure, &unary_of(*figure), unary);
        same(rt, figure, &assignment_of(*figure), assignment);
    }
}

const KINDS: &[Kind] = &[
    (Figure::Binary(Binary::Subtract), Some(Unary::Minus), None),
    (Figure::Not, Some(Unary::Not), None),
    (Figure::Binary(Binary::ShiftLeft), None, None),
    (
        Figure::Assign(Some(Binary::Add)),
        None,
        Some(Some(Binary::Add)),
    ),
    (Figure::Assign(None), None, Some(None)),
    (Figure::Name, None, None),
];

#[test]
fn unary_operators_and_assignments(rt: HostRuntime) -> Result<(), Fail> {
    check_kinds(&rt, KINDS);
    Ok(())
}

/// A text, a place in it, and whether another `)` is there.
type Closed = (&'static [u8], u32, bool);

fn check_closed(rt: &impl Abort, rows: &[Closed]) {
    for (text, at, wanted) in rows {
        is_place(rt, text, *at);
        same(rt, text, &is_closed(text, *at), wanted);
    }
}

const CLOSED: &[Closed] = &[(b"))", 1, true), (b") )", 1, false), (b")", 1, false)];

#[test]
fn closing_parentheses(rt: HostRuntime) -> Result<(), Fail> {
    check_closed(&rt, CLOSED);
    Ok(())
}
