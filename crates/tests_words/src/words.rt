//! Long words.
use sh_tree::MAX_SCRIPT;
use sh_words::{Mode, Next, WordBuilder};
use std::alloc::{AllocError, Global};
use std::process::Abort;
use std::test::Fail;

/// How many parts the word at the text's begin has, and where it ends.
fn size(alloc: Global, text: &[u8]) -> Result<Option<(usize, u32)>, AllocError> {
    if text.len() > MAX_SCRIPT {
        return Ok(None);
    }
    let mut builder = WordBuilder::start(alloc, Mode::Word, 0, 0, None)?;
    match builder.run(text) {
        Ok(Next::Done(word)) => Ok(Some((word.parts.len(), word.span.end))),
        _ => Ok(None),
    }
}

/// A piece so many times between these.
fn long(
    alloc: Global,
    head: &str,
    piece: &str,
    count: u32,
    tail: &str,
) -> Result<String, AllocError> {
    let mut text = String::new(alloc);
    text.push_str(head)?;
    for _ in 0..count {
        text.push_str(piece)?;
    }
    text.push_str(tail)?;
    Ok(text)
}

/// What a word begins with, a piece and how often it is there, and what the word ends with. Then
/// how many parts it has, and its length.
type Long = (&'static str, &'static str, u32, &'static str, usize, u32);

fn check_long(rt: &impl Abort, alloc: Global, rows: &[Long]) -> Result<(), Fail> {
    for (head, piece, count, tail, parts, length) in rows {
        let text = long(alloc, head, piece, *count, tail)?;
        let found = size(alloc, text.as_bytes())?;
        assert_eq!(rt; found, Some((*parts, *length)), "{head}{piece}");
    }
    Ok(())
}

const LONGEST_TEXT: &[Long] = &[("", "a", 1_048_576, "", 1, 1_048_576)];

#[test]
fn longest_text(rt: HostRuntime) -> Result<(), Fail> {
    check_long(&rt, rt.alloc(), LONGEST_TEXT)
}

const MOST_EXPANSIONS: &[Long] = &[("", "$x", 524_288, "", 524_288, 1_048_576)];

#[test]
fn most_expansions(rt: HostRuntime) -> Result<(), Fail> {
    check_long(&rt, rt.alloc(), MOST_EXPANSIONS)
}

const LONGEST_QUOTATIONS: &[Long] = &[
    ("'", "a;b$", 262_143, "ab'", 1, 1_048_576),
    ("\"", "a;b ", 262_143, "ab\"", 1, 1_048_576),
];

#[test]
fn longest_quotations(rt: HostRuntime) -> Result<(), Fail> {
    check_long(&rt, rt.alloc(), LONGEST_QUOTATIONS)
}

const MANY_PARTS: &[Long] = &[
    ("", "\\a", 10_000, "", 10_000, 20_000),
    ("", "$a", 10_000, "", 10_000, 20_000),
    ("", "\"\"", 10_000, "", 10_000, 20_000),
    ("", "''", 10_000, "", 10_000, 20_000),
    ("", "${a}", 5_000, "", 5_000, 20_000),
    ("", "${a-${b-c}}", 3_000, "", 3_000, 33_000),
    ("\"", "\\\n", 10_000, "\"", 1, 20_002),
    ("${a-", "a;'b'", 5_000, "}", 1, 25_005),
    ("\"${a%", "\\*", 5_000, "}\"", 1, 10_007),
];

#[test]
fn words_of_many_parts(rt: HostRuntime) -> Result<(), Fail> {
    check_long(&rt, rt.alloc(), MANY_PARTS)
}

const LONG_EXPRESSIONS: &[Long] = &[
    ("$((1", "+1", 3_000, "))", 1, 6_006),
    ("$((x", "* 1 ", 3_000, "))", 1, 12_006),
    ("$((1", " ", 10_000, "))", 1, 10_006),
    ("$((1", "0", 10_000, "))", 1, 10_006),
    ("$((1", "+1*(2)", 1_000, "))", 1, 6_006),
    ("", "$((1+2*3))", 1_000, "", 1_000, 10_000),
];

#[test]
fn long_expressions(rt: HostRuntime) -> Result<(), Fail> {
    check_long(&rt, rt.alloc(), LONG_EXPRESSIONS)
}
