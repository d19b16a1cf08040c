//! The text of words that hold no expansion.
ghost use Rattle.std.specs.Prelude.{◌≡◌, ◌<◌, ◌++◌, ◌∷◌, [], false, if◌then◌else◌, Some, None, IfOk, OnErr, length, option_map};
ghost use Rattle.std.specs.List.{list_any};
ghost use Rattle.std.specs.Str.{bytes_eq};
ghost use Rattle.sh_tree.specs.Fronts as fronts;
ghost use Rattle.sh_tree.specs.standard.Words as words;
ghost use Rattle.sh_tree.specs.standard.Words.{both_texts};

use crate::tree::{Part, SingleStyle, Word};
use std::alloc::{AllocError, Global};

/// The text of a word without its quoting (XCU 2.2). Nothing if the word holds an expansion, a
/// tilde-prefix or a byte of a pattern outside quotes. Such a byte is a `*`, a `?`, or a `[` that
/// is not the whole word.
///
/// # Errors
///
/// `AllocError` if a growth was refused. That requires a word without such a byte, and text before
/// its first expansion.
#[tactic(auto, unfolding(crate::specs::standard::Words::static_text))]
pub fn static_text(alloc: Global, word: &Word, script: &[u8]) -> Result<Option<Vec<u8>>, AllocError>
    ensures text { IfOk result (λ found. option_map (λ v. v.items) found ≡ words.static_text script.now word.now.parts) }
    ensures pattern { OnErr result (words.is_pattern script.now word.now.parts ≡ false) }
    ensures memory { OnErr result (0 < length (fronts.parts_front script.now word.now.parts)) }
{
    if is_pattern(word.parts.as_slice(), script) {
        return Ok(None);
    }
    unquoted_text(alloc, word, script)
}

/// The text of a word without its quoting (XCU 2.2), or nothing if the word holds an expansion or a
/// tilde-prefix.
///
/// # Errors
///
/// `AllocError` if a growth was refused, which requires text before the first expansion.
#[tactic(auto, using(crate::proofs::TextLemmas::both_texts_none))]
pub fn unquoted_text(
    alloc: Global,
    word: &Word,
    script: &[u8],
) -> Result<Option<Vec<u8>>, AllocError>
    ensures text { IfOk result (λ found. option_map (λ v. v.items) found ≡ words.parts_text script.now word.now.parts) }
    ensures memory { OnErr result (0 < length (fronts.parts_front script.now word.now.parts)) }
{
    let mut text = Vec::new(alloc);
    let is_static = push_parts(word.parts.as_slice(), script, &mut text)?;
    Ok(if is_static { Some(text) } else { None })
}

/// Adds the text of the parts, as far as they are static, and says whether they all are.
#[cycle(text)]
fn push_parts(parts: &[Part], script: &[u8], text: &mut Vec<u8>) -> Result<bool, AllocError>
    ensures text { IfOk result (λ all. (if all then Some text.new.items else None) ≡ both_texts (Some text.old.items) (words.parts_text script.now parts.now)) }
    ensures memory { OnErr result (0 < length (fronts.parts_front script.now parts.now)) }
{
    for part in parts {
        let is_static = push_part(part, script, &mut *text)?;
        if !is_static {
            return Ok(false);
        }
    }
    Ok(true)
}

/// Adds the text of a part, and says whether it is static.
#[cycle(text)]
#[tactic(auto, unfolding(crate::specs::standard::Words::part_text, crate::specs::Fronts::part_front))]
fn push_part(part: &Part, script: &[u8], text: &mut Vec<u8>) -> Result<bool, AllocError>
    ensures text { IfOk result (λ all. (if all then Some text.new.items else None) ≡ both_texts (Some text.old.items) (words.part_text script.now part.now)) }
    ensures memory { OnErr result (0 < length (fronts.part_front script.now part.now)) }
{
    match part {
        Part::Plain(span) => {
            text.extend_from_slice(span.text(script))?;
            Ok(true)
        }
        Part::Escaped(span) => {
            text.extend_from_slice(behind_first(span.text(script)))?;
            Ok(true)
        }
        Part::Single(SingleStyle::Plain, span) => {
            text.extend_from_slice(between_ends(span.text(script)))?;
            Ok(true)
        }
        Part::Single(SingleStyle::Dollar, span) => {
            push_escaped(between_ends(behind_first(span.text(script))), text)?;
            Ok(true)
        }
        Part::Double(_, parts) => push_parts(parts.as_slice(), script, text),
        Part::Joined(_) => Ok(true),
        Part::Param(_) | Part::Arith(_, _) | Part::Command(_, _, _) | Part::Tilde(_) => Ok(false),
    }
}

/// Adds what is between `$'` and `'`, with one byte for each escape.
fn push_escaped(inner: &[u8], text: &mut Vec<u8>) -> Result<(), AllocError>
    ensures text { IfOk result (λ done. text.new.items ≡ text.old.items ++ words.escaped inner.now) }
    ensures memory { OnErr result (0 < length inner.now) }
{
    let mut rest = inner;
    while let [first, behind @ ..] = rest {
        match behind {
            [second, others @ ..] if *first == b'\\' => {
                text.push(escape_of(*second))?;
                rest = others;
            }
            _ => {
                text.push(*first)?;
                rest = behind;
            }
        }
    }
    Ok(())
}

/// What a backslash in `$'` and the byte after it are (XCU 2.2.4).
#[tactic(auto, unfolding(crate::specs::standard::Words::escape_of))]
fn escape_of(letter: u8) -> u8
    ensures { result ≡ words.escape_of letter }
{
    match letter {
        b'a' => 0x07,
        b'b' => 0x08,
        b'e' => 0x1b,
        b'f' => 0x0c,
        b'n' => b'\n',
        b'r' => b'\r',
        b't' => b'\t',
        b'v' => 0x0b,
        _ => letter,
    }
}

/// The text without its first byte.
pub fn behind_first(text: &[u8]) -> &[u8]
    ensures { result.now ≡ words.behind_first text.entry.now }
{
    match text {
        [] => text,
        [_, rest @ ..] => rest,
    }
}

/// The text without its first and its last byte.
pub fn between_ends(text: &[u8]) -> &[u8]
    ensures { result.now ≡ words.between_ends text.entry.now }
{
    match text {
        [_, inner @ .., _] => inner,
        _ => &[],
    }
}

/// Whether the parts hold a `*` or a `?` outside quotes, or a `[` that is not all of them.
#[tactic(auto, unfolding(crate::specs::standard::Words::is_pattern))]
fn is_pattern(parts: &[Part], script: &[u8]) -> bool
    ensures { result ≡ words.is_pattern script.now parts.now }
{
    let wildcard = parts_have_wildcard(parts, script);
    let bracket = parts_have_bracket(parts, script);
    let alone = parts_are_bracket(parts, script);
    wildcard || bracket && !alone
}

/// Whether the parts hold a `*` or a `?` outside quotes.
pub fn parts_have_wildcard(parts: &[Part], script: &[u8]) -> bool
    ensures { result ≡ list_any (words.has_wildcard script.now) parts.now }
{
    parts.iter().any(|part| part_has_wildcard(part, script))
}

#[tactic(auto, unfolding(crate::specs::standard::Words::has_wildcard))]
fn part_has_wildcard(part: &Part, script: &[u8]) -> bool
    ensures { result ≡ words.has_wildcard script.now part.now }
{
    match part {
        Part::Plain(span) => text_has_wildcard(span.text(script)),
        _ => false,
    }
}

/// Whether the text holds a `*` or a `?`.
pub fn text_has_wildcard(text: &[u8]) -> bool
    ensures { result ≡ list_any words.is_wildcard text.now }
{
    text.iter().any(|byte| is_wildcard(*byte))
}

/// Whether the byte matches others in a pattern (XCU 2.14).
fn is_wildcard(byte: u8) -> bool
    ensures { result ≡ words.is_wildcard byte }
{
    matches!(byte, b'*' | b'?')
}

/// Whether the parts hold a `[` outside quotes.
pub fn parts_have_bracket(parts: &[Part], script: &[u8]) -> bool
    ensures { result ≡ list_any (words.has_bracket script.now) parts.now }
{
    parts.iter().any(|part| part_has_bracket(part, script))
}

#[tactic(auto, unfolding(crate::specs::standard::Words::has_bracket))]
fn part_has_bracket(part: &Part, script: &[u8]) -> bool
    ensures { result ≡ words.has_bracket script.now part.now }
{
    match part {
        Part::Plain(span) => span.text(script).contains(&b'['),
        _ => false,
    }
}

/// Whether the text is `[`.
pub fn text_is_bracket(text: &[u8]) -> bool
    ensures { result ≡ bytes_eq text.now (91 ∷ []) }
{
    matches!(text, b"[")
}

/// Whether the parts are `[` alone.
#[tactic(auto, unfolding(crate::specs::standard::Words::is_bracket))]
pub fn parts_are_bracket(parts: &[Part], script: &[u8]) -> bool
    ensures { result ≡ words.is_bracket script.now parts.now }
{
    match parts {
        [Part::Plain(span)] => text_is_bracket(span.text(script)),
        _ => false,
    }
}
