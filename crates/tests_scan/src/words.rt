mod quotations;
mod quoted;

use crate::check::{is_place, same};
use sh_scan::{in_body, in_operand, in_unsplit, in_value, in_word, token_at};
use sh_tree::{
    Action, CommandStyle, Context, Fault, Form, Removal, Sign, SingleStyle, Site, Span, Special,
    Subject, Token,
};
use std::process::Abort;
use std::test::Fail;

/// A text, a place in it, and the sign that begins there with its end.
type Row = (&'static [u8], u32, Sign, u32);

/// Holds the tokens after the byte `prior` against those wanted.
fn check(rt: &impl Abort, context: Context, prior: u8, rows: &[Row]) {
    for (text, at, sign, end) in rows {
        let wanted = Token {
            sign: *sign,
            end: *end,
        };
        is_place(rt, text, *at);
        same(rt, text, &token_at(text, context, prior, *at), &wanted);
    }
}

/// Single quotes.
const SINGLE: Sign = Sign::Single(SingleStyle::Plain);

/// A backquote that opens a substitution.
const BACKQUOTE: Sign = Sign::Substitution(CommandStyle::Backquote);

const OUTSIDE_QUOTES: &[Row] = &[
    (b"", 0, Sign::Stop, 0),
    (b"ab c", 0, Sign::Plain, 2),
    (b"ab;c", 0, Sign::Plain, 2),
    (b"ab c", 2, Sign::Stop, 2),
    (b"a#b\nc", 0, Sign::Plain, 3),
    (b"\\ b", 0, Sign::Escaped, 2),
    (b"\\", 0, Sign::Fault(Fault::FinalBackslash), 0),
    (b"'a b'c", 0, SINGLE, 5),
    (b"'a", 0, Sign::Fault(Fault::OpenSingle), 0),
    (b"\"a", 0, Sign::Double, 1),
    (b"`a`", 0, BACKQUOTE, 1),
    (b"a`b`", 0, Sign::Plain, 1),
    (b"a`", 1, Sign::Stop, 1),
    (b"`", 0, Sign::Stop, 0),
    (b"a\\\n`", 1, Sign::Stop, 1),
    (b"a\\\n`b", 1, Sign::LeftOut(Form::Continuation), 1),
    (b"a\\\nb", 1, Sign::LeftOut(Form::Continuation), 1),
    (b"a\\\n b", 1, Sign::Stop, 1),
    (b"a\\\n", 1, Sign::Stop, 1),
];

#[test]
fn outside_quotes(rt: HostRuntime) -> Result<(), Fail> {
    check(&rt, in_word(0), 0, OUTSIDE_QUOTES);
    Ok(())
}

const TILDES: &[Row] = &[
    (b"~", 0, Sign::Tilde, 1),
    (b"~/a", 0, Sign::Tilde, 1),
    (b"~me b", 0, Sign::Tilde, 3),
    (b"~a'b'", 0, Sign::Plain, 2),
    (b"~`", 0, Sign::Tilde, 1),
    (b"~me`", 0, Sign::Tilde, 3),
    (b"~me`a`", 0, Sign::Plain, 3),
    (b"a~", 0, Sign::Plain, 2),
    (b"~a:b", 0, Sign::Plain, 4),
    (b"a:~b", 0, Sign::Plain, 4),
];

const TILDES_IN_VALUES: &[Row] = &[
    (b"~a:b", 0, Sign::Tilde, 2),
    (b"a:~b", 0, Sign::Plain, 2),
    (b"a~b", 0, Sign::Plain, 3),
];

const TILDES_BEHIND_COLONS: &[Row] = &[(b"a:~b", 2, Sign::Tilde, 4)];

#[test]
fn tildes(rt: HostRuntime) -> Result<(), Fail> {
    check(&rt, in_word(0), 0, TILDES);
    check(&rt, in_value(0), 0, TILDES_IN_VALUES);
    check(&rt, in_value(0), b':', TILDES_BEHIND_COLONS);
    Ok(())
}

/// The byte after a `$`.
const BEHIND_DOLLAR: Span = Span { start: 1, end: 2 };

/// The bytes `na` or `a1` after a `$`.
const SHORT_NAME: Subject = Subject::Name(Span { start: 1, end: 3 });

const DOLLARS: &[Row] = &[
    (b"$a1", 0, Sign::Value(SHORT_NAME), 3),
    (
        b"$10",
        0,
        Sign::Value(Subject::Positional(1, BEHIND_DOLLAR)),
        2,
    ),
    (
        b"$0",
        0,
        Sign::Value(Subject::Special(Special::Zero, BEHIND_DOLLAR)),
        2,
    ),
    (
        b"$@",
        0,
        Sign::Value(Subject::Special(Special::At, BEHIND_DOLLAR)),
        2,
    ),
    (
        b"$-",
        0,
        Sign::Value(Subject::Special(Special::Hyphen, BEHIND_DOLLAR)),
        2,
    ),
    (b"$", 0, Sign::Plain, 1),
    (b"$.a", 0, Sign::Plain, 3),
    (b"$(a)", 0, Sign::Substitution(CommandStyle::Paren), 2),
    (b"$((1))", 0, Sign::Arith, 3),
    (b"$(\\\n(1))", 0, Sign::LeftOut(Form::Continuation), 2),
    (b"$\\\na", 0, Sign::LeftOut(Form::Continuation), 1),
    (b"$na\\\nme", 0, Sign::LeftOut(Form::Continuation), 3),
    (b"$na\\\n.e", 0, Sign::Value(SHORT_NAME), 3),
    (b"$\"a\"", 0, Sign::LeftOut(Form::DollarDouble), 0),
    (b"$[1]", 0, Sign::LeftOut(Form::DollarBracket), 0),
];

const UNSPLIT_DOLLARS: &[Row] = &[
    (b"$@", 0, Sign::LeftOut(Form::AllParameters), 0),
    (b"${@}", 0, Sign::LeftOut(Form::AllParameters), 0),
    (
        b"$*",
        0,
        Sign::Value(Subject::Special(Special::Asterisk, BEHIND_DOLLAR)),
        2,
    ),
];

#[test]
fn dollars(rt: HostRuntime) -> Result<(), Fail> {
    check(&rt, in_word(0), 0, DOLLARS);
    check(&rt, in_unsplit(0), 0, UNSPLIT_DOLLARS);
    Ok(())
}

/// The byte after a `${`.
const BEHIND_BRACE: Span = Span { start: 2, end: 3 };

/// The name of one byte after a `${`.
const NAME: Subject = Subject::Name(BEHIND_BRACE);

/// The name of one byte after a `${#`.
const MEASURED: Subject = Subject::Name(Span { start: 3, end: 4 });

const BRACED: &[Row] = &[
    (b"${a}", 0, Sign::Value(NAME), 4),
    (b"${#a}", 0, Sign::Length(MEASURED), 5),
    (
        b"${#}",
        0,
        Sign::Value(Subject::Special(Special::NumberSign, BEHIND_BRACE)),
        4,
    ),
    (
        b"${!}",
        0,
        Sign::Value(Subject::Special(Special::Exclamation, BEHIND_BRACE)),
        4,
    ),
    (b"${a-b}", 0, Sign::Use(NAME, Action::Default, false), 4),
    (b"${a:=b}", 0, Sign::Use(NAME, Action::Assign, true), 5),
    (b"${a?b}", 0, Sign::Use(NAME, Action::Fault, false), 4),
    (b"${a:+b}", 0, Sign::Use(NAME, Action::Alternative, true), 5),
    (b"${a%b}", 0, Sign::Remove(NAME, Removal::ShortSuffix), 4),
    (b"${a%%b}", 0, Sign::Remove(NAME, Removal::LongSuffix), 5),
    (b"${a#b}", 0, Sign::Remove(NAME, Removal::ShortPrefix), 4),
    (b"${a##b}", 0, Sign::Remove(NAME, Removal::LongPrefix), 5),
    (
        b"${10}",
        0,
        Sign::Value(Subject::Positional(10, Span { start: 2, end: 4 })),
        5,
    ),
    (
        b"${65535}",
        0,
        Sign::Value(Subject::Positional(65_535, Span { start: 2, end: 7 })),
        8,
    ),
    (
        b"${0}",
        0,
        Sign::Value(Subject::Special(Special::Zero, BEHIND_BRACE)),
        4,
    ),
];

#[test]
fn braced(rt: HostRuntime) -> Result<(), Fail> {
    check(&rt, in_word(0), 0, BRACED);
    Ok(())
}

const LEFT_OUT: &[Row] = &[
    (b"${", 0, Sign::Fault(Fault::OpenBraced), 0),
    (b"${a", 0, Sign::Fault(Fault::OpenBraced), 0),
    (b"${#a", 0, Sign::Fault(Fault::OpenBraced), 0),
    (b"${a\\", 0, Sign::Fault(Fault::FinalBackslash), 3),
    (b"${a\\\n}", 0, Sign::LeftOut(Form::Continuation), 3),
    (b"${a:%b}", 0, Sign::LeftOut(Form::Braced), 0),
    (b"${a/b}", 0, Sign::LeftOut(Form::Braced), 0),
    (b"${01}", 0, Sign::LeftOut(Form::Braced), 0),
    (b"${00}", 0, Sign::LeftOut(Form::Braced), 0),
    (b"${65536}", 0, Sign::LeftOut(Form::Braced), 0),
    (b"${@-a}", 0, Sign::LeftOut(Form::Braced), 0),
    (b"${#@}", 0, Sign::LeftOut(Form::Braced), 0),
    (b"${}", 0, Sign::LeftOut(Form::Braced), 0),
];

#[test]
fn left_out(rt: HostRuntime) -> Result<(), Fail> {
    check(&rt, in_word(0), 0, LEFT_OUT);
    Ok(())
}

/// An operand of a declaration, and where the value begins that it assigns.
type Operand = (&'static [u8], Option<u32>);

fn context_of(value: Option<u32>) -> Context {
    match value {
        Some(at) => in_value(at),
        None => in_word(0),
    }
}

fn check_operands(rt: &impl Abort, rows: &[Operand]) {
    for (text, value) in rows {
        is_place(rt, text, 0);
        same(rt, text, &in_operand(text, 0), &context_of(*value));
    }
}

const OPERANDS: &[Operand] = &[(b"a=~", Some(2)), (b"'a'=~", None), (b"a", None)];

#[test]
fn operands_of_declarations(rt: HostRuntime) -> Result<(), Fail> {
    check_operands(&rt, OPERANDS);
    Ok(())
}

fn check_sites(rt: &impl Abort, rows: &[(bool, Site)]) {
    for (quoted, site) in rows {
        same(rt, quoted, &in_body(*quoted, false).site, site);
    }
}

/// Whether the delimiter of a here-document is quoted, and the site of its body.
const SITES: &[(bool, Site)] = &[(true, Site::Verbatim), (false, Site::Body)];

#[test]
fn bodies(rt: HostRuntime) -> Result<(), Fail> {
    check_sites(&rt, SITES);
    Ok(())
}
