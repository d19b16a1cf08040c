use crate::check::{is_place, same};
use sh_scan::{backquote_end, closes_at, kept_backslash};
use sh_tree::CommandStyle;
use std::process::Abort;
use std::test::Fail;

/// A text, a place in it, and where the next backquote ends.
type End = (&'static [u8], u32, Option<u32>);

fn check_ends(rt: &impl Abort, rows: &[End]) {
    for (text, at, end) in rows {
        is_place(rt, text, *at);
        same(rt, text, &backquote_end(text, *at), end);
    }
}

const ENDS: &[End] = &[
    (b"`a`b`", 1, Some(3)),
    (b"`a`b`", 0, Some(1)),
    (b"``", 1, Some(2)),
    (b"`\\``", 1, Some(3)),
    (b"`'`'", 1, Some(3)),
    (b"`a", 1, None),
    (b"`", 1, None),
];

#[test]
fn ends(rt: HostRuntime) -> Result<(), Fail> {
    check_ends(&rt, ENDS);
    Ok(())
}

/// A text, a place in it, and whether what is there closes commands.
type Closing = (&'static [u8], u32, bool);

fn check_closing(rt: &impl Abort, style: CommandStyle, rows: &[Closing]) {
    for (text, at, closes) in rows {
        is_place(rt, text, *at);
        same(rt, text, &closes_at(style, text, *at), closes);
    }
}

const PARENTHESES: &[Closing] = &[
    (b"$(a)b", 3, true),
    (b"$(a)b", 2, false),
    (b"$(a`", 3, false),
    (b"$(", 2, false),
];

const BACKQUOTES: &[Closing] = &[
    (b"`a`", 2, true),
    (b"`a`b", 2, false),
    (b"`a)", 2, false),
    (b"`a", 2, false),
];

#[test]
fn closing(rt: HostRuntime) -> Result<(), Fail> {
    check_closing(&rt, CommandStyle::Paren, PARENTHESES);
    check_closing(&rt, CommandStyle::Backquote, BACKQUOTES);
    Ok(())
}

/// A text, and where its first backslash is that goes before its commands are read.
type Kept = (&'static [u8], Option<u32>);

fn check_kept(rt: &impl Abort, quoted: bool, rows: &[Kept]) {
    for (text, place) in rows {
        is_place(rt, text, 0);
        same(rt, text, &kept_backslash(text, quoted), place);
    }
}

const OUTSIDE_QUOTES: &[Kept] = &[
    (b"a \\b`", None),
    (b"a \\\n`", None),
    (b"\\\"`", None),
    (b"a\\$x`", Some(1)),
    (b"a \\`", Some(2)),
    (b"\\a\\\\b`", Some(2)),
    (b"\\", None),
    (b"", None),
];

const IN_QUOTES: &[Kept] = &[
    (b"a \\b`", Some(2)),
    (b"a\\\n\\`", Some(1)),
    (b"\\", Some(0)),
    (b"a$`", None),
];

#[test]
fn kept(rt: HostRuntime) -> Result<(), Fail> {
    check_kept(&rt, false, OUTSIDE_QUOTES);
    check_kept(&rt, true, IN_QUOTES);
    Ok(())
}
