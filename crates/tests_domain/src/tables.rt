//! The call tables of scripts with functions.
use sh_grammar::parse;
use sh_table::CallTable;
use std::process::Abort;
use std::test::Fail;

/// A function: its number, its name, and the commands that define it.
type Function = (u32, &'static [u8], &'static [u32]);

/// A command, and the function that it calls.
type Callee = (u32, Option<u32>);

/// A command, a word of it, and its static text.
type Text = (u32, u32, Option<&'static [u8]>);

/// A script with all its functions, none of which is `a`, and some of its commands and words.
struct Row {
    script: &'static [u8],
    functions: &'static [Function],
    callees: &'static [Callee],
    texts: &'static [Text],
}

/// Whether the function of a number has the name, is found by it, and these commands define it.
fn has_function(table: &CallTable, number: u32, name: &[u8], definitions: &[u32]) -> bool {
    let functions = table.functions();
    if number == 0 || number as usize > functions.len() {
        return false;
    }
    let named = functions[number as usize - 1].as_slice() == name;
    let defined = table.definitions(number) == definitions;
    let placed = table.function_place(name) == Some(number as usize - 1);
    named && defined && placed
}

fn check_functions(rt: &impl Abort, table: &CallTable, rows: &[Function]) {
    assert_eq!(rt; table.functions().len(), rows.len());
    for (number, name, definitions) in rows {
        assert!(rt; has_function(table, *number, name, definitions), "{number}");
    }
    assert!(rt; table.function_place(b"a").is_none());
}

fn check_callees(rt: &impl Abort, table: &CallTable, rows: &[Callee]) {
    for (command, function) in rows {
        assert_eq!(rt; table.callee(*command), *function, "{command}");
    }
}

fn check_texts(rt: &impl Abort, table: &CallTable, rows: &[Text]) {
    for (command, word, text) in rows {
        assert_eq!(rt; table.text(*command, *word), *text, "{command} {word}");
    }
}

fn check(rt: &(impl Abort + AllocGlobal), row: &Row) -> Result<(), Fail> {
    let tree = parse(rt.alloc(), row.script)?;
    let table = CallTable::new(rt.alloc(), &tree, row.script)?;
    check_functions(rt, &table, row.functions);
    check_callees(rt, &table, row.callees);
    check_texts(rt, &table, row.texts);
    Ok(())
}

const CALLS: &Row = &Row {
    script: b"f() { g a; }; g() { :; }; f 'b'; f() { x$y; }; set; set() { :; }; a",
    functions: &[(1, b"f", &[1, 8]), (2, b"g", &[4]), (3, b"set", &[12])],
    callees: &[
        (0, None),
        (1, None),
        (2, None),
        (3, Some(2)),
        (6, None),
        (7, Some(1)),
        (10, None),
        (11, None),
        (15, None),
        (16, None),
    ],
    texts: &[
        (0, 0, None),
        (1, 0, None),
        (3, 0, Some(b"g")),
        (3, 1, Some(b"a")),
        (3, 2, None),
        (6, 0, Some(b":")),
        (7, 0, Some(b"f")),
        (7, 1, Some(b"b")),
        (10, 0, None),
        (11, 0, Some(b"set")),
        (15, 0, Some(b"a")),
        (15, 4_294_967_295, None),
        (4_294_967_295, 0, None),
    ],
};

#[test]
fn calls(rt: HostRuntime) -> Result<(), Fail> {
    check(&rt, CALLS)
}

/// Quotations by `$'`. The table has texts of its own of them.
const ESCAPES: &Row = &Row {
    script: b"f() { $'\\a' 'b'; }; $'f' $'' $'a\\tb' $'it\\'s'x `g $'*'`",
    functions: &[(1, b"f", &[1])],
    callees: &[(4, Some(1))],
    texts: &[
        (3, 0, Some(b"\x07")),
        (3, 1, Some(b"b")),
        (4, 0, Some(b"f")),
        (4, 1, Some(b"")),
        (4, 2, Some(b"a\tb")),
        (4, 3, Some(b"it'sx")),
        (4, 4, None),
        (5, 0, Some(b"g")),
        (5, 1, Some(b"*")),
    ],
};

#[test]
fn escapes(rt: HostRuntime) -> Result<(), Fail> {
    check(&rt, ESCAPES)
}

/// The commands of the body are after the rest of its operator's line: of `f` the one there is the
/// first definition.
const BODIES: &Row = &Row {
    script: b"cat <<E | f b; f() { :; }\n$(g() { d; }; f() { e 'x y'; })\nE\ng 'c'\n",
    functions: &[(1, b"f", &[3, 9]), (2, b"g", &[6])],
    callees: &[(2, Some(1)), (12, Some(2))],
    texts: &[
        (1, 0, Some(b"cat")),
        (2, 1, Some(b"b")),
        (5, 0, Some(b":")),
        (8, 0, Some(b"d")),
        (11, 1, Some(b"x y")),
        (12, 1, Some(b"c")),
    ],
};

#[test]
fn bodies(rt: HostRuntime) -> Result<(), Fail> {
    check(&rt, BODIES)
}
