use crate::check::{is_place, same};
use sh_scan::{declares_at, is_assignment_at, is_bare_name_at, is_location_at};
use std::process::Abort;
use std::test::Fail;

/// What a word is, as far as its bytes alone show.
#[derive(Clone, Copy, Debug, PartialEq, Eq)]
enum Form {
    Assignment,
    Name,
    /// A name, whose operands are read as assignments.
    Declaration,
    Other,
}

impl Form {
    /// Whether it is an assignment, a name, and the name of a declaration.
    fn tests(self) -> [bool; 3] {
        match self {
            Form::Assignment => [true, false, false],
            Form::Name => [false, true, false],
            Form::Declaration => [false, true, true],
            Form::Other => [false, false, false],
        }
    }
}

/// A text, and the form of the word at its front.
type Row = (&'static [u8], Form);

fn check(rt: &impl Abort, rows: &[Row]) {
    for (text, form) in rows {
        is_place(rt, text, 0);
        let found = [
            is_assignment_at(text, 0),
            is_bare_name_at(text, 0),
            declares_at(text, 0),
        ];
        same(rt, text, &found, &form.tests());
    }
}

const WORDS: &[Row] = &[
    (b"a=b", Form::Assignment),
    (b"a1_=", Form::Assignment),
    (b"1a=b", Form::Other),
    (b"=b", Form::Other),
    (b"a", Form::Name),
    (b"a\\\n b", Form::Name),
    (b"a\\\nb", Form::Other),
    (b"a$b", Form::Other),
    (b"export", Form::Declaration),
    (b"readonly>a", Form::Declaration),
    (b"exports", Form::Name),
    (b"\"export\"", Form::Other),
];

#[test]
fn words(rt: HostRuntime) -> Result<(), Fail> {
    check(&rt, WORDS);
    Ok(())
}

/// A text, where the word at its front ends, and whether that names the location of a redirection.
type Location = (&'static [u8], u32, bool);

fn check_locations(rt: &impl Abort, rows: &[Location]) {
    for (text, end, wanted) in rows {
        is_place(rt, text, *end);
        same(rt, text, &is_location_at(text, 0, *end), wanted);
    }
}

const LOCATIONS: &[Location] = &[
    (b"{a}>b", 3, true),
    (b"{a}\\\n<b", 3, true),
    (b"{}>b", 2, false),
    (b"{a} >b", 3, false),
    (b"{a>b", 2, false),
    (b"a}}>b", 3, false),
];

#[test]
fn locations(rt: HostRuntime) -> Result<(), Fail> {
    check_locations(&rt, LOCATIONS);
    Ok(())
}
