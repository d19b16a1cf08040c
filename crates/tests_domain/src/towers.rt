//! Towers of commands, sixty-four deep.
use sh_grammar::parse;
use sh_table::CallTable;
use std::alloc::{AllocError, Global};
use std::test::Fail;

/// What opens a level, the command in the middle, and what closes a level.
type Pieces = (&'static str, &'static str, &'static str);

/// A tower of sixty-four levels.
fn tower(alloc: Global, pieces: Pieces) -> Result<String, AllocError> {
    let (open, middle, close) = pieces;
    let mut text = String::new(alloc);
    for _ in 0..64 {
        text.push_str(open)?;
    }
    text.push_str(middle)?;
    for _ in 0..64 {
        text.push_str(close)?;
    }
    Ok(text)
}

#[test]
fn definitions_of_one_function(rt: HostRuntime) -> Result<(), Fail> {
    let alloc = rt.alloc();
    let text = tower(alloc, ("f() { ", "f", "; }"))?;
    let tree = parse(alloc, text.as_bytes())?;
    let table = CallTable::new(alloc, &tree, text.as_bytes())?;
    assert_eq!(rt; table.functions().len(), 1);
    assert_eq!(rt; table.callee(129), Some(1));
    Ok(())
}
