use crate::check::{is_place, same};
use sh_scan::{Lines, behind_joined, blanks_at, here_line, name_at, single_end};
use std::alloc::{AllocError, Global};
use std::process::Abort;
use std::test::Fail;

/// A text, a place in it, and where the name ends that begins there.
type Name = (&'static [u8], u32, u32);

fn check_names(rt: &impl Abort, rows: &[Name]) {
    for (text, at, end) in rows {
        is_place(rt, text, *at);
        same(rt, text, &name_at(text, *at), end);
    }
}

const NAMES: &[Name] = &[
    (b"a1_b-", 0, 4),
    (b"1a", 0, 0),
    (b"_", 0, 1),
    (b"x=ab c", 2, 4),
    (b"", 0, 0),
];

#[test]
fn names(rt: HostRuntime) -> Result<(), Fail> {
    check_names(&rt, NAMES);
    Ok(())
}

/// A text, whether it is in the body of a here-document, and where the blanks at its front end.
type Blanks = (&'static [u8], bool, u32);

fn check_blanks(rt: &impl Abort, rows: &[Blanks]) {
    for (text, body, end) in rows {
        is_place(rt, text, 0);
        same(rt, text, &blanks_at(text, 0, *body), end);
    }
}

const BLANKS: &[Blanks] = &[
    (b" \t a", false, 3),
    (b"a", false, 0),
    (b" \\\n a", false, 4),
    (b" \\a", false, 1),
    (b" \\", false, 1),
    (b" #a b\nc", false, 5),
    (b"#\\\na", false, 2),
    (b"#\\\na", true, 0),
    (b"#a\na", true, 2),
    (b"# a\\", true, 4),
    (b"#a\\\\\na", true, 4),
    (b"#a\\\\\\\na", true, 0),
    (b"#a\\ \na", true, 4),
];

#[test]
fn blanks(rt: HostRuntime) -> Result<(), Fail> {
    check_blanks(&rt, BLANKS);
    Ok(())
}

/// A text, and what of it is after the line continuations at its front.
type Joined = (&'static [u8], &'static [u8]);

fn check_joined(rt: &impl Abort, rows: &[Joined]) {
    for (text, behind) in rows {
        same(rt, text, &behind_joined(text), behind);
    }
}

const JOINED: &[Joined] = &[
    (b"\\\n\\\na\\\n", b"a\\\n"),
    (b"a\\\n", b"a\\\n"),
    (b"\\a", b"\\a"),
    (b"\\\n", b""),
    (b"\\", b"\\"),
    (b"", b""),
];

#[test]
fn continuations(rt: HostRuntime) -> Result<(), Fail> {
    check_joined(&rt, JOINED);
    Ok(())
}

/// A text, a place in it, and where the single quotes end that open there.
type Quotes = (&'static [u8], u32, Option<u32>);

fn check_quotes(rt: &impl Abort, rows: &[Quotes]) {
    for (text, at, end) in rows {
        is_place(rt, text, *at);
        assert!(rt; (*at as usize) < text.len(), "{text:?}");
        same(rt, text, &single_end(text, *at), end);
    }
}

const QUOTES: &[Quotes] = &[
    (b"'a'", 0, Some(3)),
    (b"''", 0, Some(2)),
    (b"x'\\'b'", 1, Some(4)),
    (b"'a", 0, None),
    (b"'", 0, None),
];

#[test]
fn quotes(rt: HostRuntime) -> Result<(), Fail> {
    check_quotes(&rt, QUOTES);
    Ok(())
}

/// A text, a place in it, whether continuations join lines, and where the line ends that begins
/// there.
type Line = (&'static [u8], u32, bool, u32);

fn check_lines(rt: &impl Abort, rows: &[Line]) {
    for (text, at, joins, end) in rows {
        is_place(rt, text, *at);
        same(rt, text, &here_line(text, *at, *joins), end);
    }
}

const LINES: &[Line] = &[
    (b"ab\nc", 0, true, 2),
    (b"ab\nc", 2, true, 2),
    (b"ab\nc", 3, true, 4),
    (b"a\\\nb\nc", 0, true, 4),
    (b"a\\\nb\nc", 0, false, 2),
    (b"a\\\\\nb", 0, true, 3),
    (b"a\\", 0, true, 2),
    (b"", 0, true, 0),
];

#[test]
fn lines_of_here_documents(rt: HostRuntime) -> Result<(), Fail> {
    check_lines(&rt, LINES);
    Ok(())
}

/// A text, an offset, and its line and column.
type Place = (&'static [u8], u32, (u32, u32));

fn check_places(rt: &impl Abort, alloc: Global, rows: &[Place]) -> Result<(), AllocError> {
    for (text, at, place) in rows {
        let lines = Lines::new(alloc, text)?;
        same(rt, text, &lines.place(*at), place);
    }
    Ok(())
}

const PLACES: &[Place] = &[
    (b"", 0, (1, 1)),
    (b"", 7, (1, 1)),
    (b"ab", 1, (1, 2)),
    (b"ab", 2, (1, 3)),
    (b"ab\n", 2, (1, 3)),
    (b"ab\n", 3, (2, 1)),
    (b"\n\n\n", 2, (3, 1)),
    (b"\n\n\n", 3, (4, 1)),
    (b"a\nbc\n\nd", 4, (2, 3)),
    (b"a\nbc\n\nd", 7, (4, 2)),
];

#[test]
fn places(rt: HostRuntime) -> Result<(), Fail> {
    check_places(&rt, rt.alloc(), PLACES)?;
    Ok(())
}
