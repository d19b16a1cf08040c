use super::{Row, check};
use sh_scan::in_word;
use sh_tree::{Fault, Form, Sign, SingleStyle};
use std::test::Fail;

/// A quotation that begins with `$'`.
const DOLLAR: Sign = Sign::Single(SingleStyle::Dollar);

/// One that nothing closes.
const OPEN: Sign = Sign::Fault(Fault::OpenSingle);

/// An escape that is not read.
const ESCAPE: Sign = Sign::LeftOut(Form::DollarEscape);

const CLOSED: &[Row] = &[
    (b"$'a'b", 0, DOLLAR, 4),
    (b"$''", 0, DOLLAR, 3),
    (b"$'a\nb`\"$x'", 0, DOLLAR, 10),
    (b"$'a\\'b'", 0, DOLLAR, 7),
    (b"$'\\\\'b'", 0, DOLLAR, 5),
    (b"$'\\\"\\a\\b\\e\\f\\n\\r\\t\\v'", 0, DOLLAR, 21),
];

const UNREAD: &[Row] = &[
    (b"$'a", 0, OPEN, 0),
    (b"$'", 0, OPEN, 0),
    (b"$'a\\", 0, OPEN, 0),
    (b"$'a\\'", 0, OPEN, 0),
    (b"$'\\x41'", 0, ESCAPE, 2),
    (b"$'a\\0", 0, ESCAPE, 3),
    (b"$'\\\\\\c'", 0, ESCAPE, 4),
    (b"$'a\\\n'", 0, ESCAPE, 3),
];

#[test]
fn quotations(rt: HostRuntime) -> Result<(), Fail> {
    check(&rt, in_word(0), 0, CLOSED);
    check(&rt, in_word(0), 0, UNREAD);
    Ok(())
}
