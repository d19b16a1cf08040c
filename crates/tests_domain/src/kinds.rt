//! What names mean.
use sh_table::{Kind, kind_of};
use sh_tree::KnownName;
use std::process::Abort;
use std::test::Fail;

type Row = (&'static [u8], Kind);

fn check(rt: &impl Abort, rows: &[Row]) {
    for (name, kind) in rows {
        assert_eq!(rt; kind_of(name), *kind, "{name:?}");
    }
}

const SPECIAL: &[Row] = &[
    (b":", Kind::Special(KnownName::Colon)),
    (b".", Kind::Special(KnownName::Dot)),
    (b"set", Kind::Special(KnownName::Set)),
    (b"eval", Kind::Special(KnownName::Eval)),
    (b"exec", Kind::Special(KnownName::Exec)),
    (b"exit", Kind::Special(KnownName::Exit)),
    (b"trap", Kind::Special(KnownName::Trap)),
    (b"break", Kind::Special(KnownName::Break)),
    (b"shift", Kind::Special(KnownName::Shift)),
    (b"times", Kind::Special(KnownName::Times)),
    (b"unset", Kind::Special(KnownName::Unset)),
    (b"export", Kind::Special(KnownName::Export)),
    (b"return", Kind::Special(KnownName::Return)),
    (b"continue", Kind::Special(KnownName::Continue)),
    (b"readonly", Kind::Special(KnownName::Readonly)),
];

#[test]
fn special(rt: HostRuntime) -> Result<(), Fail> {
    check(&rt, SPECIAL);
    Ok(())
}

const KNOWN: &[Row] = &[
    (b"cd", Kind::Cd),
    (b"read", Kind::Read),
    (b"true", Kind::True),
    (b"false", Kind::False),
    (b"command", Kind::Command),
    (b"getopts", Kind::Getopts),
    (b"", Kind::Utility),
    (b"[", Kind::Utility),
    (b"echo", Kind::Utility),
    (b"test", Kind::Utility),
    (b"Set", Kind::Utility),
    (b"sets", Kind::Utility),
    (b"se", Kind::Utility),
    (b"readarrays", Kind::Utility),
    (b"true\0", Kind::Utility),
];

#[test]
fn known(rt: HostRuntime) -> Result<(), Fail> {
    check(&rt, KNOWN);
    Ok(())
}

const REFUSED: &[Row] = &[
    (b"fc", Kind::Refused(KnownName::Fc)),
    (b"[[", Kind::Refused(KnownName::LeftBrackets)),
    (b"]]", Kind::Refused(KnownName::RightBrackets)),
    (b"let", Kind::Refused(KnownName::Let)),
    (b"time", Kind::Refused(KnownName::Time)),
    (b"alias", Kind::Refused(KnownName::Alias)),
    (b"local", Kind::Refused(KnownName::Local)),
    (b"float", Kind::Refused(KnownName::Float)),
    (b"shopt", Kind::Refused(KnownName::Shopt)),
    (b"source", Kind::Refused(KnownName::Source)),
    (b"select", Kind::Refused(KnownName::Select)),
    (b"unalias", Kind::Refused(KnownName::Unalias)),
    (b"typeset", Kind::Refused(KnownName::Typeset)),
    (b"declare", Kind::Refused(KnownName::Declare)),
    (b"builtin", Kind::Refused(KnownName::Builtin)),
    (b"nameref", Kind::Refused(KnownName::Nameref)),
    (b"integer", Kind::Refused(KnownName::Integer)),
    (b"mapfile", Kind::Refused(KnownName::Mapfile)),
    (b"function", Kind::Refused(KnownName::Function)),
    (b"readarray", Kind::Refused(KnownName::Readarray)),
    (b"namespace", Kind::Refused(KnownName::Namespace)),
];

#[test]
fn refused(rt: HostRuntime) -> Result<(), Fail> {
    check(&rt, REFUSED);
    Ok(())
}
