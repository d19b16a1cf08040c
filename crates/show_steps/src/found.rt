//! What is told of the certificates of a script.
ghost use Rattle.sh_judged.specs.Prepared.{IsPrepared};

use crate::texts::{find_by_need, is_by_rounds, is_filled, is_written_again};
use sh_domain::Policy;
use sh_judged::{Prepared, prepare};
use sh_tree::Refusal;
use std::alloc::{AllocError, Global};

/// Which ways to a certificate are taken.
#[derive(Clone, Copy)]
pub enum Ways {
    /// The search alone.
    ByNeed,
    /// The search, then the plain one, filling and reading.
    All,
}

// The other ways to the certificate with this text that give another one, by their words.
fn push_others(
    alloc: Global,
    script: &[u8],
    policy: &Policy,
    prepared: &Prepared,
    text: &[u8],
    told: &mut String,
) -> Result<(), Refusal>
    requires { IsPrepared script.now policy.now prepared.now }
{
    if !is_by_rounds(alloc, script, policy, prepared, text)? {
        told.push_str(" rounds")?;
    }
    if !is_filled(alloc, script, policy, prepared, text)? {
        told.push_str(" filled")?;
    }
    if !is_written_again(alloc, prepared, text)? {
        told.push_str(" read")?;
    }
    Ok(())
}

fn push_found(
    alloc: Global,
    script: &[u8],
    policy: &Policy,
    prepared: &Prepared,
    ways: Ways,
    told: &mut String,
) -> Result<(), Refusal>
    requires { IsPrepared script.now policy.now prepared.now }
{
    let mut text = Vec::new(alloc);
    let search = find_by_need(alloc, script, policy, prepared, &mut text)?;
    let counts = format!(in alloc;
        "{commands} {looks}",
        commands = search.commands,
        looks = search.looks
    )?;
    told.push_str(&counts)?;
    match ways {
        Ways::ByNeed => Ok(()),
        Ways::All => push_others(alloc, script, policy, prepared, &text, told),
    }
}

fn push_prepared(
    alloc: Global,
    script: &[u8],
    policy: &Policy,
    ways: Ways,
    told: &mut String,
) -> Result<(), Refusal> {
    let prepared = prepare(alloc, script, policy)?;
    push_found(alloc, script, policy, &prepared, ways, told)
}

/// The number of commands of the script, how often the search went through the rules of one, and
/// which of the other ways give another text. Or the refusal.
pub fn told(
    alloc: Global,
    script: &[u8],
    policy: &Policy,
    ways: Ways,
) -> Result<String, AllocError> {
    let mut told = String::new(alloc);
    match push_prepared(alloc, script, policy, ways, &mut told) {
        Ok(()) => Ok(told),
        Err(refusal) => format!(in alloc; "{refusal:?}"),
    }
}

fn is_read(alloc: Global, script: &[u8], policy: &Policy, text: &[u8]) -> Result<bool, Refusal> {
    let prepared = prepare(alloc, script, policy)?;
    is_written_again(alloc, &prepared, text)
}

/// Whether the certificate of the text is written again to the byte, or its refusal.
pub fn read_told(
    alloc: Global,
    script: &[u8],
    policy: &Policy,
    text: &[u8],
) -> Result<String, AllocError> {
    match is_read(alloc, script, policy, text) {
        Ok(true) => format!(in alloc; "same"),
        Ok(false) => format!(in alloc; "other"),
        Err(refusal) => format!(in alloc; "{refusal:?}"),
    }
}
