use crate::check::same;
use sh_scan::{Class, classify};
use std::process::Abort;
use std::test::Fail;

/// Bytes of one class.
type Row = (&'static [u8], Class);

fn check_bytes(rt: &impl Abort, bytes: &[u8], class: Class) {
    for byte in bytes {
        same(rt, byte, &classify(*byte), &class);
    }
}

fn check(rt: &impl Abort, rows: &[Row]) {
    for (bytes, class) in rows {
        check_bytes(rt, bytes, *class);
    }
}

const CLASSES: &[Row] = &[
    (b" \t", Class::Blank),
    (b"\n", Class::Newline),
    (b"|&;<>()", Class::Operator),
    (b"azAZ_", Class::Letter),
    (b"0189", Class::Digit),
    (b"$`\"'\\", Class::Quoting),
    (b"\0\x0b\r!#*-/:=?@[]^{}~\x7f\x80\xff", Class::Other),
];

#[test]
fn classes(rt: HostRuntime) -> Result<(), Fail> {
    check(&rt, CLASSES);
    Ok(())
}
