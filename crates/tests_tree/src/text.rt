use crate::trees::{holds, one};
use sh_tree::{
    Boxed, CommandStyle, Expr, Items, MAX_SCRIPT, Param, ParameterOperator, Part, Script,
    SingleStyle, Span, Subject, Word, static_text,
};
use std::alloc::{AllocError, Global};
use std::process::Abort;
use std::test::Fail;

/// What a part of a word is.
#[derive(Clone, Copy)]
enum Shape {
    Plain,
    Escaped,
    Single(SingleStyle),
    /// Double quotes round plain text, or round nothing.
    Double,
    Joined,
    Tilde,
    Parameter,
    Arithmetic,
    Command,
}

/// The plain text between the quotes.
fn between(alloc: Global, quotes: Span) -> Result<Items<Part>, AllocError> {
    let start = quotes.start.saturating_add(1);
    let end = quotes.end.saturating_sub(1);
    if start < end {
        one(alloc, Part::Plain(Span { start, end }))
    } else {
        Ok(Items::new(alloc))
    }
}

/// The value of the parameter whose name is after the `$`.
fn parameter(span: Span) -> Param {
    let name = Span {
        start: span.start.saturating_add(1),
        end: span.end,
    };
    Param {
        span,
        subject: Subject::Name(name),
        operator: ParameterOperator::Value,
    }
}

fn part(alloc: Global, shape: Shape, span: Span) -> Result<Part, AllocError> {
    Ok(match shape {
        Shape::Plain => Part::Plain(span),
        Shape::Escaped => Part::Escaped(span),
        Shape::Single(style) => Part::Single(style, span),
        Shape::Double => Part::Double(span, between(alloc, span)?),
        Shape::Joined => Part::Joined(span),
        Shape::Tilde => Part::Tilde(span),
        Shape::Parameter => Part::Param(parameter(span)),
        Shape::Arithmetic => Part::Arith(span, Boxed::new(alloc, Expr::Constant(span))?),
        Shape::Command => {
            let items = Items::new(alloc);
            Part::Command(CommandStyle::Paren, span, Script { items })
        }
    })
}

/// A part, which begins where the one before it ends, and its end.
type Piece = (Shape, u32);

fn parts(alloc: Global, pieces: &[Piece]) -> Result<Items<Part>, AllocError> {
    let mut parts = Items::new(alloc);
    let mut start = 0;
    for (shape, end) in pieces {
        parts.push(part(alloc, *shape, Span { start, end: *end })?)?;
        start = *end;
    }
    Ok(parts)
}

/// The static text of a word that is the whole of a script.
fn static_text_of(
    alloc: Global,
    text: &[u8],
    pieces: &[Piece],
) -> Result<Option<Vec<u8>>, AllocError> {
    let parts = parts(alloc, pieces)?;
    let end = text.len().min(MAX_SCRIPT) as u32;
    let span = Span { start: 0, end };
    static_text(alloc, &Word { span, parts }, text)
}

/// A text, the parts of the word that it is, and the word's static text.
type Row = (&'static [u8], &'static [Piece], Option<&'static [u8]>);

fn is_same(found: &Option<Vec<u8>>, wanted: Option<&[u8]>) -> bool {
    match (found, wanted) {
        (Some(found), Some(wanted)) => found.as_slice() == wanted,
        (None, None) => true,
        _ => false,
    }
}

fn check(rt: &impl Abort, alloc: Global, rows: &[Row]) -> Result<(), AllocError> {
    for (text, pieces, wanted) in rows {
        let found = static_text_of(alloc, text, pieces)?;
        holds(rt, text, is_same(&found, *wanted));
    }
    Ok(())
}

const QUOTATIONS: &[Row] = &[
    (b"ab", &[(Shape::Plain, 2)], Some(b"ab")),
    (b"\\*", &[(Shape::Escaped, 2)], Some(b"*")),
    (
        b"'a*'",
        &[(Shape::Single(SingleStyle::Plain), 4)],
        Some(b"a*"),
    ),
    (
        b"$'a*'",
        &[(Shape::Single(SingleStyle::Dollar), 5)],
        Some(b"a*"),
    ),
    (
        b"$''",
        &[(Shape::Single(SingleStyle::Dollar), 3)],
        Some(b""),
    ),
    (
        b"$'\\a\\b\\e\\f\\n\\r\\t\\v'",
        &[(Shape::Single(SingleStyle::Dollar), 19)],
        Some(b"\x07\x08\x1b\x0c\n\r\t\x0b"),
    ),
    (
        b"$'\\\"\\'\\\\n'",
        &[(Shape::Single(SingleStyle::Dollar), 10)],
        Some(b"\"'\\n"),
    ),
    (b"\\\n", &[(Shape::Joined, 2)], Some(b"")),
    (b"\"*\"", &[(Shape::Double, 3)], Some(b"*")),
];

#[test]
fn quotations(rt: HostRuntime) -> Result<(), Fail> {
    check(&rt, rt.alloc(), QUOTATIONS)?;
    Ok(())
}

const EXPANSIONS: &[Row] = &[
    (b"$x", &[(Shape::Parameter, 2)], None),
    (b"$((1))", &[(Shape::Arithmetic, 6)], None),
    (b"$()", &[(Shape::Command, 3)], None),
    (b"~a", &[(Shape::Tilde, 2)], None),
];

#[test]
fn expansions(rt: HostRuntime) -> Result<(), Fail> {
    check(&rt, rt.alloc(), EXPANSIONS)?;
    Ok(())
}

const PATTERNS: &[Row] = &[
    (b"[", &[(Shape::Plain, 1)], Some(b"[")),
    (b"a[", &[(Shape::Plain, 2)], None),
    (b"[[", &[(Shape::Plain, 2)], None),
    (b"*", &[(Shape::Plain, 1)], None),
    (b"?", &[(Shape::Plain, 1)], None),
    (b"a*b", &[(Shape::Plain, 3)], None),
    (b"[\"\"", &[(Shape::Plain, 1), (Shape::Double, 3)], None),
];

#[test]
fn patterns(rt: HostRuntime) -> Result<(), Fail> {
    check(&rt, rt.alloc(), PATTERNS)?;
    Ok(())
}
