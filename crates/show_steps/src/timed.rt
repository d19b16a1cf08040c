//! Steps that are measured: the tree, the call table and the profile.
use crate::found::Ways;
use sh_grammar::parse;
use sh_table::{CallTable, admit};
use sh_tree::Script;
use std::rt::{Clock, Files};
use std::time::Instant;
use std::{fs, io};

/// How far a script is taken.
#[derive(Clone, Copy)]
pub enum Measured {
    Tree,
    Table,
    Profile,
}

/// A step, by its word.
#[derive(Clone, Copy)]
pub enum Step {
    Found(Ways),
    Read,
    Timed(Measured),
}

pub fn step_of(word: &str) -> Option<Step> {
    match word {
        "looks" => Some(Step::Found(Ways::ByNeed)),
        "found" => Some(Step::Found(Ways::All)),
        "read" => Some(Step::Read),
        "tree" => Some(Step::Timed(Measured::Tree)),
        "table" => Some(Step::Timed(Measured::Table)),
        "profile" => Some(Step::Timed(Measured::Profile)),
        _ => None,
    }
}

// Prints whether a step went well, or how long ago it began.
fn tell(rt: &(impl Print + Clock), timed: bool, begun: Instant, went_well: bool) -> io::Result<()> {
    if timed {
        let microseconds = begun.elapsed(rt)?.as_micros();
        return println!(rt; "{microseconds}");
    }
    println!(rt; "{went_well}")
}

fn ask<R: Print + Clock + AllocGlobal>(
    rt: &R,
    timed: bool,
    tree: &Script,
    script: &[u8],
) -> io::Result<()> {
    let Ok(table) = CallTable::new(rt.alloc(), tree, script) else {
        return println!(rt; "no table");
    };
    let begun = Instant::now(rt)?;
    let admitted = admit(rt.alloc(), tree, &table, script);
    tell(rt, timed, begun, admitted.is_ok())
}

fn take<R: Print + Clock + AllocGlobal>(
    rt: &R,
    step: Measured,
    timed: bool,
    tree: &Script,
    script: &[u8],
) -> io::Result<()> {
    let begun = Instant::now(rt)?;
    match step {
        Measured::Tree => tell(rt, timed, begun, true),
        Measured::Table => {
            let table = CallTable::new(rt.alloc(), tree, script);
            tell(rt, timed, begun, table.is_ok())
        }
        Measured::Profile => ask(rt, timed, tree, script),
    }
}

/// Takes the script of the file to the step, and prints whether that went well, or how many
/// microseconds the step took.
pub fn measure<R: Print + Clock + Files + AllocGlobal>(
    rt: &R,
    file: &str,
    step: Measured,
    timed: bool,
) -> io::Result<()> {
    let script = fs::read(rt, file)?;
    match parse(rt.alloc(), script.as_slice()) {
        Ok(tree) => take(rt, step, timed, &tree, script.as_slice()),
        Err(_) => println!(rt; "refused"),
    }
}
