use super::{BACKQUOTE, BEHIND_DOLLAR, Row, SINGLE, check};
use sh_scan::{in_arithmetic, in_body, in_double, in_removal, in_use, in_word};
use sh_tree::{Action, Form, Sign, Special, Subject};
use std::test::Fail;

const ALL_PARAMETERS: Sign = Sign::Value(Subject::Special(Special::At, BEHIND_DOLLAR));

/// A backquote where no substitution is accepted.
const NO_BACKQUOTE: Sign = Sign::LeftOut(Form::Backquoted);

const DOUBLE: &[Row] = &[
    (b"ab c\"", 0, Sign::Plain, 4),
    (b"\"", 0, Sign::Stop, 1),
    (b"a", 1, Sign::Open, 1),
    (b"\\$", 0, Sign::Escaped, 2),
    (b"\\a\\", 0, Sign::Plain, 2),
    (b"\\\nb", 0, Sign::Joined, 2),
    (b"$'a'", 0, Sign::Plain, 4),
    (b"~", 0, Sign::Plain, 1),
    (b"$@", 0, ALL_PARAMETERS, 2),
    (b"`a`", 0, BACKQUOTE, 1),
    (b"`", 0, BACKQUOTE, 1),
];

const ARITHMETIC: &[Row] = &[
    (b"$@", 0, Sign::LeftOut(Form::AllParameters), 0),
    (b"`a`", 0, NO_BACKQUOTE, 0),
];

#[test]
fn double_quotes(rt: HostRuntime) -> Result<(), Fail> {
    check(&rt, in_double(in_word(0)), 0, DOUBLE);
    check(&rt, in_arithmetic(in_word(0)), 0, ARITHMETIC);
    Ok(())
}

const DEFAULT: &[Row] = &[
    (b"'a'}", 0, Sign::Plain, 3),
    (b"}", 0, Sign::Stop, 1),
    (b"a", 1, Sign::Open, 1),
    (b"\"", 0, Sign::LeftOut(Form::QuotedInDefault), 0),
    (b"\\}", 0, Sign::LeftOut(Form::BackslashInDefault), 0),
    (b"\\\"", 0, Sign::Escaped, 2),
    (b"`a`", 0, NO_BACKQUOTE, 0),
];

const DEFAULT_IN_BODY: &[Row] = &[(b"\\\"", 0, Sign::LeftOut(Form::QuotedInDefault), 0)];

#[test]
fn defaults_in_double_quotes(rt: HostRuntime) -> Result<(), Fail> {
    let quoted = in_use(in_double(in_word(0)), Action::Default, 0);
    check(&rt, quoted, 0, DEFAULT);
    let body = in_use(in_body(false, false), Action::Default, 0);
    check(&rt, body, 0, DEFAULT_IN_BODY);
    Ok(())
}

const ALTERNATIVE: &[Row] = &[
    (b"'a'}", 0, SINGLE, 3),
    (b"`a`}", 0, BACKQUOTE, 1),
    (b"`", 0, BACKQUOTE, 1),
    (b"~}", 0, Sign::Tilde, 1),
    (b"a b;}", 0, Sign::Plain, 4),
    (b"a\\\nb}", 1, Sign::LeftOut(Form::Continuation), 1),
    (b"$@", 0, ALL_PARAMETERS, 2),
];

const UNQUOTED_DEFAULT: &[Row] = &[
    (b"$@", 0, Sign::LeftOut(Form::AllParameters), 0),
    (b"`a`}", 0, BACKQUOTE, 1),
];

const QUOTED_IN_REMOVAL: &[Row] = &[(b"`a`", 0, NO_BACKQUOTE, 0)];

const REMOVAL: &[Row] = &[(b"'a'}", 0, SINGLE, 3), (b"`a`}", 0, NO_BACKQUOTE, 0)];

#[test]
fn words_of_braced_expansions(rt: HostRuntime) -> Result<(), Fail> {
    let alternative = in_use(in_word(0), Action::Alternative, 0);
    check(&rt, alternative, 0, ALTERNATIVE);
    let default = in_use(in_word(0), Action::Default, 0);
    check(&rt, default, 0, UNQUOTED_DEFAULT);
    let removal = in_removal(in_double(in_word(0)), 0);
    check(&rt, removal, 0, REMOVAL);
    check(&rt, in_double(removal), 0, QUOTED_IN_REMOVAL);
    Ok(())
}

const TABS: &[Row] = &[(b"\t\ta", 0, Sign::Tabs, 2)];

const STRIPPED: &[Row] = &[
    (b"\t\ta\n\tb", 0, Sign::Plain, 4),
    (b"\\\n\tb", 0, Sign::LeftOut(Form::HereTab), 2),
    (b"\\\nb", 0, Sign::Joined, 2),
    (b"a\"b\\\"", 0, Sign::Plain, 5),
    (b"`a`", 0, NO_BACKQUOTE, 0),
    (b"`", 0, NO_BACKQUOTE, 0),
    (b"", 0, Sign::Stop, 0),
];

const VERBATIM: &[Row] = &[(b"\t$a`\\", 0, Sign::Plain, 5)];

#[test]
fn bodies_of_here_documents(rt: HostRuntime) -> Result<(), Fail> {
    check(&rt, in_body(false, true), b'\n', TABS);
    check(&rt, in_body(false, true), 0, STRIPPED);
    check(&rt, in_body(true, false), 0, VERBATIM);
    Ok(())
}
