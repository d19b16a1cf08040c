use crate::check::{is_place, same};
use sh_scan::{direction_of, operator_at, redirection_at, strip_of};
use sh_tree::{Direction, Operator, Redirection, Span};
use std::process::Abort;
use std::test::Fail;

/// A text, a place in it, and the operator that begins there with its end.
type Row = (&'static [u8], u32, Option<(Operator, u32)>);

fn check(rt: &impl Abort, rows: &[Row]) {
    for (text, at, wanted) in rows {
        is_place(rt, text, *at);
        same(rt, text, &operator_at(text, *at), wanted);
    }
}

const LONGEST: &[Row] = &[
    (b"<<-a", 0, Some((Operator::HereDocTabs, 3))),
    (b"<<a", 0, Some((Operator::HereDoc, 2))),
    (b"<<<", 0, Some((Operator::HereDoc, 2))),
    (b"&&&", 0, Some((Operator::AndIf, 2))),
    (b"||", 0, Some((Operator::OrIf, 2))),
    (b";;", 0, Some((Operator::DoubleSemicolon, 2))),
    (b";&", 0, Some((Operator::SemicolonAnd, 2))),
    (b">>", 0, Some((Operator::Append, 2))),
    (b"<&", 0, Some((Operator::CopyIn, 2))),
    (b">&", 0, Some((Operator::CopyOut, 2))),
    (b"<>", 0, Some((Operator::ReadWrite, 2))),
    (b">|", 0, Some((Operator::Clobber, 2))),
    (b"&>", 0, Some((Operator::And, 1))),
    (b"; ;", 0, Some((Operator::Semicolon, 1))),
    (b"|&", 0, Some((Operator::Bar, 1))),
    (b"((", 0, Some((Operator::LeftParenthesis, 1))),
    (b")", 0, Some((Operator::RightParenthesis, 1))),
    (b"<-", 0, Some((Operator::Less, 1))),
    (b"a>", 1, Some((Operator::Greater, 2))),
    (b"&\\\n&", 0, Some((Operator::And, 1))),
    (b"a>", 0, None),
    (b"\n", 0, None),
    (b"", 0, None),
    (b">", 1, None),
];

#[test]
fn longest(rt: HostRuntime) -> Result<(), Fail> {
    check(&rt, LONGEST);
    Ok(())
}

/// An operator, what it does with a file, and whether it strips the tabs of a here-document.
type Use = (Operator, Option<Direction>, Option<bool>);

fn check_uses(rt: &impl Abort, rows: &[Use]) {
    for (operator, direction, strip) in rows {
        same(rt, operator, &direction_of(*operator), direction);
        same(rt, operator, &strip_of(*operator), strip);
    }
}

const USES: &[Use] = &[
    (Operator::Less, Some(Direction::Read), None),
    (Operator::Greater, Some(Direction::Write), None),
    (Operator::Clobber, Some(Direction::Clobber), None),
    (Operator::Append, Some(Direction::Append), None),
    (Operator::ReadWrite, Some(Direction::Both), None),
    (Operator::CopyIn, Some(Direction::CopyIn), None),
    (Operator::CopyOut, Some(Direction::CopyOut), None),
    (Operator::HereDoc, None, Some(false)),
    (Operator::HereDocTabs, None, Some(true)),
    (Operator::Bar, None, None),
];

#[test]
fn uses(rt: HostRuntime) -> Result<(), Fail> {
    check_uses(&rt, USES);
    Ok(())
}

/// A text, and the redirection at its front.
type Front = (&'static [u8], Option<Redirection>);

fn check_fronts(rt: &impl Abort, rows: &[Front]) {
    for (text, wanted) in rows {
        is_place(rt, text, 0);
        same(rt, text, &redirection_at(text, 0), wanted);
    }
}

const FRONTS: &[Front] = &[
    (
        b">a",
        Some(Redirection {
            number: None,
            operator: Operator::Greater,
            at: 0,
            end: 1,
        }),
    ),
    (
        b"2>>a",
        Some(Redirection {
            number: Some(Span { start: 0, end: 1 }),
            operator: Operator::Append,
            at: 1,
            end: 3,
        }),
    ),
    (
        b"12<<-a",
        Some(Redirection {
            number: Some(Span { start: 0, end: 2 }),
            operator: Operator::HereDocTabs,
            at: 2,
            end: 5,
        }),
    ),
    (b"1 >a", None),
    (b"a>b", None),
    (b"1|", None),
    (b"1", None),
    (b"", None),
];

#[test]
fn redirections(rt: HostRuntime) -> Result<(), Fail> {
    check_fronts(&rt, FRONTS);
    Ok(())
}
