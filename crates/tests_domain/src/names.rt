//! The numbers of names, and texts that are none.
use sh_domain::{Names, Policy, PolicyFault};
use sh_grammar::parse;
use sh_tree::Refusal;
use std::alloc::Global;
use std::process::Abort;
use std::test::Fail;

/// A script, the names that are declared for it, and its names after those that every script has,
/// in the order of their numbers.
struct Row {
    script: &'static [u8],
    declared: &'static [&'static [u8]],
    names: &'static [&'static [u8]],
}

const FIRST: &[&[u8]] = &[b"IFS", b"OPTIND", b"PPID", b"OPTARG", b"!"];

/// Whether the name has this number, and the number this name.
fn is_numbered(names: &Names, number: u32, name: &[u8]) -> bool {
    if number >= names.count() {
        return false;
    }
    let found = names.name(number) == name;
    let back = names.number(name) == Some(number);
    found && back
}

/// Whether the names are those that every script has, and these after them.
fn are_names(names: &Names, wanted: &[&[u8]]) -> bool {
    let all = FIRST.iter().chain(wanted);
    for (number, name) in (0..names.count()).zip(all) {
        if !is_numbered(names, number, name) {
            return false;
        }
    }
    names.count() as usize == FIRST.len() + wanted.len()
}

fn has_names(alloc: Global, row: &Row, policy: &Policy) -> Result<bool, Refusal> {
    let tree = parse(alloc, row.script)?;
    let names = Names::new(alloc, &tree, row.script, policy)?;
    Ok(are_names(&names, row.names))
}

fn is_held(alloc: Global, row: &Row) -> Result<bool, Fail> {
    let policy = Policy::new(alloc, row.declared, 0)?;
    let held = has_names(alloc, row, &policy)?;
    Ok(held)
}

fn check(rt: &(impl Abort + AllocGlobal), rows: &[Row]) -> Result<(), Fail> {
    for row in rows {
        let held = is_held(rt.alloc(), row)?;
        assert!(rt; held, "{script:?}", script = row.script);
    }
    Ok(())
}

const BY_FIRST_SIGHT: &[Row] = &[
    Row {
        script: b"",
        declared: &[],
        names: &[],
    },
    Row {
        script: b"x=1; echo \"$x\"",
        declared: &[b"HOME", b"x", b"IFS", b"HOME"],
        names: &[b"HOME", b"x"],
    },
    Row {
        script: b"echo \"$b\" ${a-\"$c\"}; a=1; d=$e $1 $! $# ~",
        declared: &[],
        names: &[b"b", b"a", b"c", b"d", b"e"],
    },
    Row {
        script: b"<<E cat $b\n$a\nE\n",
        declared: &[],
        names: &[b"b", b"a"],
    },
    Row {
        script: b"echo $((u = v + ${w%$x} + 1))",
        declared: &[],
        names: &[b"u", b"v", b"w", b"x"],
    },
];

const BY_UTILITY: &[Row] = &[
    Row {
        script: b"unset -v q -- \"z\" a-b; unset -- -f; unset r",
        declared: &[],
        names: &[b"q", b"z", b"r"],
    },
    Row {
        script: b"x=$y read -r -- b a; read -d x y x; read -dx k; read -rd",
        declared: &[],
        names: &[b"x", b"y", b"b", b"a", b"k"],
    },
    Row {
        script: b"read -p q z; read m $n; read \\o",
        declared: &[],
        names: &[b"n", b"o"],
    },
    Row {
        script: b"unset $'q'; read $'s'; $'read' t; u=`v=1; echo \"$w\"`",
        declared: &[],
        names: &[b"q", b"s", b"t", b"u", b"v", b"w"],
    },
    Row {
        script: b"getopts ab name $w; getopts -x p; getopts $c d; getopts e; getopts f 'g' h",
        declared: &[],
        names: &[b"name", b"w", b"c", b"g"],
    },
    Row {
        script: b"export d=1 e; readonly f=$g \"h=1\" i= 1=j; \"export\" k=l; echo m=n",
        declared: &[],
        names: &[b"d", b"f", b"g", b"i", b"k"],
    },
];

#[test]
fn by_first_sight(rt: HostRuntime) -> Result<(), Fail> {
    check(&rt, BY_FIRST_SIGHT)
}

#[test]
fn by_utility(rt: HostRuntime) -> Result<(), Fail> {
    check(&rt, BY_UTILITY)
}

/// Texts, and the first that is no name.
type Declared = (&'static [&'static [u8]], Option<usize>);

const DECLARED: &[Declared] = &[
    (&[], None),
    (&[b"a", b"_1"], None),
    (&[b"a", b"1x", b"-"], Some(1)),
    (&[b""], Some(0)),
    (&[b"a", b"!"], Some(1)),
];

fn first_bad(alloc: Global, texts: &[&[u8]]) -> Result<Option<usize>, PolicyFault> {
    match Policy::new(alloc, texts, 7) {
        Ok(_) => Ok(None),
        Err(PolicyFault::BadName(index)) => Ok(Some(index)),
        Err(fault) => Err(fault),
    }
}

#[test]
fn declared_names(rt: HostRuntime) -> Result<(), Fail> {
    for (texts, wanted) in DECLARED {
        assert_eq!(&rt; first_bad(rt.alloc(), texts)?, *wanted);
    }
    Ok(())
}
