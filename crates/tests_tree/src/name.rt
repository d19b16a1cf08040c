use crate::trees::holds;
use sh_tree::is_name;
use std::process::Abort;
use std::test::Fail;

/// A text, and whether it is a name.
type Row = (&'static [u8], bool);

fn check(rt: &impl Abort, rows: &[Row]) {
    for (text, wanted) in rows {
        holds(rt, text, is_name(text) == *wanted);
    }
}

const NAMES: &[Row] = &[
    (b"a", true),
    (b"_", true),
    (b"aZ_09", true),
    (b"", false),
    (b"1a", false),
    (b"a-b", false),
    (b"a\xff", false),
];

#[test]
fn names(rt: HostRuntime) -> Result<(), Fail> {
    check(&rt, NAMES);
    Ok(())
}
