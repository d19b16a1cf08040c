//! Takes the script of a file to a step of what shset does, and prints what that gave:
//! `FILE tree|table|profile [timed]`, `FILE looks|found ARGS NAME ..` or
//! `FILE read CERT ARGS NAME ..`.
//!
//! - `tree`, `table`, `profile`: whether it went well, or how many microseconds that step took.
//! - `looks`: how many commands there are, and how often the search went through the rules of one.
//! - `found`: the same, and each other way to the certificate that gives another text.
//! - `read`: whether the certificate of a second file is written again to the byte.
//!
//! `tests/found` uses the last three, and `bench/measure.py table` the others.
#![tactic(auto)]

mod found;
mod texts;
mod timed;

use found::Ways;
use sh_domain::{Policy, PolicyFault};
use std::alloc::{AllocError, Global};
use std::rt::{Clock, Env, Files};
use std::{env, fs, io};
use timed::{Step, step_of};

fn words_of(rt: &(impl Env + AllocGlobal)) -> io::Result<Vec<String>> {
    env::args(rt)?.collect(rt.alloc()).map_err(io::Error::from)
}

/// What is declared: how many operands, and then names.
fn policy_of(alloc: Global, words: &[String]) -> Result<Policy, PolicyFault> {
    let [args, names @ ..] = words else {
        return Policy::new(alloc, &[], 0);
    };
    let mut texts = Vec::with_capacity(alloc, names.len())?;
    for name in names {
        texts.push(name.as_bytes())?;
    }
    let args = args.as_str().parse::<u16>().unwrap_or(0);
    Policy::new(alloc, &texts, args)
}

/// What the search finds, with these declared.
fn found_told(
    alloc: Global,
    script: &[u8],
    ways: Ways,
    declared: &[String],
) -> Result<String, AllocError> {
    match policy_of(alloc, declared) {
        Ok(policy) => found::told(alloc, script, &policy, ways),
        Err(fault) => format!(in alloc; "{fault:?}"),
    }
}

/// Whether the certificate is written again, with these declared.
fn read_told(
    alloc: Global,
    script: &[u8],
    text: &[u8],
    declared: &[String],
) -> Result<String, AllocError> {
    match policy_of(alloc, declared) {
        Ok(policy) => found::read_told(alloc, script, &policy, text),
        Err(fault) => format!(in alloc; "{fault:?}"),
    }
}

fn print_found(
    rt: &(impl Print + Files + AllocGlobal),
    file: &str,
    ways: Ways,
    declared: &[String],
) -> io::Result<()> {
    let script = fs::read(rt, file)?;
    let told = found_told(rt.alloc(), script.as_slice(), ways, declared)?;
    println!(rt; "{told}")
}

fn print_read(
    rt: &(impl Print + Files + AllocGlobal),
    file: &str,
    declared: &[String],
) -> io::Result<()> {
    let [certificate, declared @ ..] = declared else {
        return println!(rt; "read CERT");
    };
    let script = fs::read(rt, file)?;
    let text = fs::read(rt, certificate.as_str())?;
    let told = read_told(rt.alloc(), script.as_slice(), text.as_slice(), declared)?;
    println!(rt; "{told}")
}

fn take<R: Print + Clock + Files + AllocGlobal>(
    rt: &R,
    file: &str,
    step: &str,
    rest: &[String],
) -> io::Result<()> {
    match step_of(step) {
        Some(Step::Found(ways)) => print_found(rt, file, ways, rest),
        Some(Step::Read) => print_read(rt, file, rest),
        Some(Step::Timed(step)) => timed::measure(rt, file, step, !rest.is_empty()),
        None => println!(rt; "FILE tree|table|profile|looks|found|read .."),
    }
}

fn main(rt: HostRuntime) -> io::Result<()> {
    let words = words_of(&rt)?;
    match words.as_slice() {
        [_, file, step, rest @ ..] => take(&rt, file.as_str(), step.as_str(), rest),
        _ => println!(rt; "FILE tree|table|profile|looks|found|read .."),
    }
}
