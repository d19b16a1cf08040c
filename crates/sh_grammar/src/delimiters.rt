//! The words after the operators of here-documents (XCU 2.7.4).
ghost use Rattle.std.specs.Prelude.{◌≡◌, ◌<◌, length, IfErr, IfOk, option_map};
ghost use Rattle.std.specs.List.{list_any};
ghost use Rattle.sh_grammar.specs.Delimiters.{Awaits, TellsDelimiter, delimiter_in};
ghost use Rattle.sh_tree.specs.standard.language.HereDocuments as documents;
ghost use Rattle.sh_tree.specs.standard.language.Parts as parts;
ghost use Rattle.sh_tree.specs.standard.language.States.{no_document};
ghost use Rattle.sh_tree.specs.standard.language.Trees.{here_doc};

use super::mark::Mark;
use sh_tree::{Form, HereDoc, Items, Part, Refusal, SingleStyle, Span, Word, unquoted_text};
use std::alloc::{AllocError, Global};

/// Whether the part is `$'` and what it quotes.
#[tactic(auto, unfolding(sh_tree::specs::standard::language::HereDocuments::is_dollar_quoted))]
fn is_dollar_quoted(part: &Part) -> bool
    ensures { result ≡ documents.is_dollar_quoted part.now }
{
    matches!(part, Part::Single(SingleStyle::Dollar, _))
}

/// Whether a part of the word is `$'` and what it quotes.
fn has_dollar_quoted(word: &Word) -> bool
    ensures { result ≡ list_any documents.is_dollar_quoted word.now.parts }
{
    word.parts
        .as_slice()
        .iter()
        .any(|part| is_dollar_quoted(part))
}

/// The delimiter that the word is: its text without its quoting, or nothing if it holds an
/// expansion, a tilde-prefix, `$'` or a newline.
///
/// # Errors
///
/// `AllocError` if a growth was refused.
#[tactic(auto, using(crate::proofs::DelimiterLemmas::delimiter_split, crate::proofs::DelimiterLemmas::delimiter_dollar, crate::proofs::DelimiterLemmas::delimiter_whole))]
fn delimiter_of(alloc: Global, script: &[u8], word: &Word) -> Result<Option<Vec<u8>>, AllocError>
    ensures { IfOk result (λ found. option_map (λ v. v.items) found ≡ delimiter_in script.now word.now) }
{
    if word.span.text(script).contains(&b'\n') {
        return Ok(None);
    }
    if has_dollar_quoted(word) {
        return Ok(None);
    }
    unquoted_text(alloc, word, script)
}

/// Whether a part of the word is quoted.
#[tactic(auto, unfolding(sh_tree::specs::standard::language::Parts::is_quoted_word))]
fn is_quoted(word: &Word) -> bool
    ensures { result ≡ parts.is_quoted_word word.now }
{
    word.parts.as_slice().iter().any(|part| part.is_quotation())
}

/// The here-document with the operator at `at`, with so many levels open. Its body ends with the
/// word.
///
/// # Errors
///
/// `LeftOut` at the word if it is no delimiter.
#[tactic(auto, using(crate::proofs::DelimiterLemmas::not_delimiter))]
pub fn mark_at(
    alloc: Global,
    script: &[u8],
    at: u32,
    strip: bool,
    word: &Word,
    depth: u8,
) -> Result<Mark, Refusal>
    requires begins { word.now.span.start < length script.now }
    ensures marks { Awaits script.now at strip word.now depth result }
    ensures told { IfErr result (TellsDelimiter word.now) }
{
    let delimiter = delimiter_of(alloc, script, word)?;
    match delimiter {
        Some(delimiter) => Ok(Mark {
            at,
            strip,
            quoted: is_quoted(word),
            delimiter,
            depth,
        }),
        None => Err(Refusal::LeftOut(Form::HereWord, word.span.start)),
    }
}

/// A here-document whose body has not come.
pub fn awaited(alloc: Global, strip: bool, delimiter: Word) -> HereDoc
    ensures { result ≡ here_doc strip delimiter no_document.text no_document.end }
{
    let none = Span { start: 0, end: 0 };
    HereDoc {
        strip,
        delimiter,
        body: Word {
            span: none,
            parts: Items::new(alloc),
        },
        end: none,
    }
}
