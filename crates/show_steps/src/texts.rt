//! Certificates and their texts.
ghost use Rattle.sh_judged.specs.Prepared.{IsPrepared};

use sh_domain::{Certificate, Compact, Given, Names, Policy};
use sh_facts::{compact_of, read_any, start_of, write_certificate, write_compact};
use sh_find::{find, find_by_rounds, find_counted};
use sh_judged::Prepared;
use sh_report::certified;
use sh_tree::{MAX_NAMES, Refusal};
use std::alloc::{AllocError, Global};

/// How many commands a script has, and how often the search went through the rules of one.
#[derive(Clone, Copy)]
pub struct Search {
    pub commands: usize,
    pub looks: u64,
}

// The text of a certificate of as many commands as there may be, and else an empty one.
fn text_of(alloc: Global, certificate: &Certificate, names: &Names) -> Result<Vec<u8>, AllocError> {
    if certificate.entries.len() > 65_535 || certificate.functions.len() > 65_535 {
        return Ok(Vec::new(alloc));
    }
    write_certificate(alloc, certificate, names)
}

fn compact_text_of(alloc: Global, compact: &Compact, names: &Names) -> Result<Vec<u8>, AllocError> {
    if compact.functions.len() > 65_535 {
        return Ok(Vec::new(alloc));
    }
    write_compact(alloc, compact, names)
}

fn is_text_of(
    alloc: Global,
    certificate: &Certificate,
    names: &Names,
    text: &[u8],
) -> Result<bool, AllocError> {
    let written = text_of(alloc, certificate, names)?;
    Ok(written.as_slice() == text)
}

/// Finds the certificate by need, and puts its text behind the given bytes.
pub fn find_by_need(
    alloc: Global,
    script: &[u8],
    policy: &Policy,
    prepared: &Prepared,
    out: &mut Vec<u8>,
) -> Result<Search, AllocError>
    requires { IsPrepared script.now policy.now prepared.now }
{
    let (certificate, looks) = find_counted(
        alloc,
        &prepared.tree,
        script,
        &prepared.table,
        &prepared.names,
        policy,
    )?;
    let text = text_of(alloc, &certificate, &prepared.names)?;
    out.extend_from_slice(&text)?;
    let commands = certificate.entries.len();
    Ok(Search { commands, looks })
}

/// Whether the certificate that is found by rounds has this text.
pub fn is_by_rounds(
    alloc: Global,
    script: &[u8],
    policy: &Policy,
    prepared: &Prepared,
    text: &[u8],
) -> Result<bool, AllocError>
    requires { IsPrepared script.now policy.now prepared.now }
{
    let certificate = find_by_rounds(
        alloc,
        &prepared.tree,
        script,
        &prepared.table,
        &prepared.names,
        policy,
    )?;
    is_text_of(alloc, &certificate, &prepared.names, text)
}

// The text of the compact form of a certificate, and an empty one as above.
fn form_of(
    alloc: Global,
    certificate: &Certificate,
    names: &Names,
    policy: &Policy,
) -> Result<Vec<u8>, AllocError> {
    if certificate.entries.len() > 65_535 || certificate.rows.count() as usize > MAX_NAMES {
        return Ok(Vec::new(alloc));
    }
    let compact = compact_of(alloc, certificate, &start_of(names, policy))?;
    compact_text_of(alloc, &compact, names)
}

fn compact_found(
    alloc: Global,
    script: &[u8],
    policy: &Policy,
    prepared: &Prepared,
) -> Result<Vec<u8>, AllocError>
    requires { IsPrepared script.now policy.now prepared.now }
{
    let certificate = find(
        alloc,
        &prepared.tree,
        script,
        &prepared.table,
        &prepared.names,
        policy,
    )?;
    form_of(alloc, &certificate, &prepared.names, policy)
}

/// Whether the certificate to which the compact one of the script is filled has this text.
pub fn is_filled(
    alloc: Global,
    script: &[u8],
    policy: &Policy,
    prepared: &Prepared,
    text: &[u8],
) -> Result<bool, Refusal>
    requires { IsPrepared script.now policy.now prepared.now }
{
    let compact = compact_found(alloc, script, policy, prepared)?;
    let filled = certified(alloc, script, policy, prepared, &compact)?;
    let is_same = is_text_of(alloc, &filled, &prepared.names, text)?;
    Ok(is_same)
}

fn is_given_text(
    alloc: Global,
    given: &Given,
    names: &Names,
    text: &[u8],
) -> Result<bool, AllocError> {
    let written = match given {
        Given::Full(certificate) => text_of(alloc, certificate, names)?,
        Given::Compact(compact) => compact_text_of(alloc, compact, names)?,
    };
    Ok(written.as_slice() == text)
}

/// Whether the text is a certificate's, of either version, and is written again to the byte.
pub fn is_written_again(alloc: Global, prepared: &Prepared, text: &[u8]) -> Result<bool, Refusal> {
    let given = read_any(
        alloc,
        text,
        &prepared.tree,
        &prepared.table,
        &prepared.names,
    )?;
    let is_same = is_given_text(alloc, &given, &prepared.names, text)?;
    Ok(is_same)
}
