//! The static texts of words, each made once.
ghost use Rattle.std.specs.Prelude.{◌≡◌, ◌++◌, ◌∷◌, [], ℕ, List, map, IfOk, IfSome, OnOk, Some, option_map};
ghost use Rattle.std.specs.List.{list_any, flat_map};
ghost use Rattle.std.specs.Option.{option_copied};
ghost use Rattle.sh_tree.specs.standard.Tree.{text_of};
ghost use Rattle.sh_tree.specs.standard.Words as words;
ghost use Rattle.sh_tree.specs.standard.Words.{static_text};
ghost use Rattle.sh_tree.specs.Lists.{elements_from};
ghost use Rattle.sh_runs.specs.Sites as sites;
ghost use Rattle.sh_tree.specs.standard.program.Words.{operands_in};
ghost use Rattle.sh_table.specs.WordTexts as spec;

use sh_tree::text::text_is_bracket;
use sh_tree::{Boxed, Element, Part, SingleStyle, Span, Word, static_text};
use std::alloc::{AllocError, Global};

/// The text of a word without its quoting, if it is static (XCU 2.2).
#[derive(Drop)]
pub enum WordText {
    /// The word holds an expansion, a tilde-prefix or an unquoted byte of a pattern.
    Computed,
    /// The script has the text in one piece.
    Verbatim(Span),
    /// What quoting leaves of the word.
    Made(Boxed<Vec<u8>>),
}

/// Whether some byte may be one of a pattern (XCU 2.14): a `*`, a `?` or a `[`.
#[tactic(auto, unfolding(crate::specs::WordTexts::may_match))]
fn has_special(text: &[u8]) -> bool
    ensures { result ≡ list_any spec.may_match text.now }
{
    text.iter().any(|byte| matches!(*byte, b'*' | b'?' | b'['))
}

/// Whether plain bytes hold a byte of a pattern (XCU 2.14): a `*`, a `?`, or a `[` that is not all
/// of them.
#[tactic(auto, unfolding(crate::specs::WordTexts::has_pattern))]
fn has_pattern(text: &[u8]) -> bool
    ensures { result ≡ spec.has_pattern text.now }
{
    has_special(text) && !text_is_bracket(text)
}

/// The bytes of parts that are plain bytes alone.
#[tactic(auto, unfolding(crate::specs::WordTexts::plain_span))]
fn plain_span(parts: &[Part]) -> Option<Span>
    ensures { result ≡ spec.plain_span parts.now }
{
    match parts {
        [Part::Plain(span)] => Some(*span),
        _ => None,
    }
}

/// The bytes after a backslash.
fn behind_first(span: Span) -> Option<Span>
    ensures { (b : List ℕ) → IfSome result (λ inner. text_of b inner ≡ words.behind_first (text_of b span)) }
{
    let start = span.start.checked_add(1)?;
    Some(Span {
        start,
        end: span.end,
    })
}

/// The bytes between single quotes.
fn between_ends(span: Span, script: &[u8]) -> Option<Span>
    ensures { IfSome result (λ inner. text_of script.now inner ≡ words.between_ends (text_of script.now span)) }
{
    if span.end as usize > script.len() {
        return None;
    }
    let start = span.start.checked_add(1)?;
    let end = span.end.checked_sub(1)?;
    Some(Span { start, end })
}

/// Where the script has the bytes of a quotation in single quotes. What `$'` quotes may hold
/// escapes, and is no such piece.
fn single_span(style: SingleStyle, span: Span, script: &[u8]) -> Option<Span>
    ensures { IfSome result (λ inner. text_of script.now inner ≡ words.single_text style (text_of script.now span)) }
{
    match style {
        SingleStyle::Plain => between_ends(span, script),
        SingleStyle::Dollar => None,
    }
}

/// Where the script has what a quotation leaves, if it is in one piece there.
fn part_span(part: &Part, script: &[u8]) -> Option<Span>
    ensures { IfSome result (λ span. static_text script.now (part.now ∷ []) ≡ Some (text_of script.now span)) }
{
    match part {
        Part::Double(_, parts) => plain_span(parts.as_slice()),
        Part::Escaped(span) => behind_first(*span),
        Part::Single(style, span) => single_span(*style, *span, script),
        _ => None,
    }
}

/// The part of a word that has one.
#[tactic(auto, unfolding(crate::specs::WordTexts::lone_part))]
pub fn lone_part(parts: &[Part]) -> Option<&Part>
    ensures { option_copied result ≡ spec.lone_part parts.entry.now }
{
    match parts {
        [part] => Some(part),
        _ => None,
    }
}

/// Where the script has the text of a word that is one quotation.
fn quoted_span(word: &Word, script: &[u8]) -> Option<Span>
    ensures { IfSome result (λ span. static_text script.now word.now.parts ≡ Some (text_of script.now span)) }
{
    part_span(lone_part(word.parts.as_slice())?, script)
}

impl WordText {
    /// The text of a word.
    ///
    /// # Errors
    ///
    /// `AllocError` if a growth was refused.
    #[tactic(auto, unfolding(crate::specs::WordTexts::text_in))]
    fn new(alloc: Global, word: &Word, script: &[u8]) -> Result<WordText, AllocError>
        ensures { IfOk result (λ text. spec.text_in script.now text ≡ static_text script.now word.now.parts) }
    {
        if let Some(span) = plain_span(word.parts.as_slice()) {
            return Ok(WordText::plain(span, script));
        }
        match quoted_span(word, script) {
            Some(span) => Ok(WordText::Verbatim(span)),
            None => WordText::made(alloc, word, script),
        }
    }

    #[tactic(auto, unfolding(crate::specs::WordTexts::text_in))]
    fn plain(span: Span, script: &[u8]) -> WordText
        ensures { spec.text_in script.now result ≡ spec.plain_text script.now span }
    {
        if has_pattern(span.text(script)) {
            WordText::Computed
        } else {
            WordText::Verbatim(span)
        }
    }

    #[tactic(auto, unfolding(crate::specs::WordTexts::text_in))]
    fn made(alloc: Global, word: &Word, script: &[u8]) -> Result<WordText, AllocError>
        ensures { IfOk result (λ text. spec.text_in script.now text ≡ static_text script.now word.now.parts) }
    {
        match static_text(alloc, word, script)? {
            Some(text) => Ok(WordText::Made(Boxed::new(alloc, text)?)),
            None => Ok(WordText::Computed),
        }
    }

    /// The text, if the word has one.
    #[tactic(auto, unfolding(crate::specs::WordTexts::text_in))]
    pub fn get<'a>(&'a self, script: &'a [u8]) -> Option<&'a [u8]>
        ensures { option_map (λ t. t.now) result ≡ spec.text_in script.entry.now self.entry.now }
    {
        match self {
            WordText::Computed => None,
            WordText::Verbatim(span) => Some(span.text(script)),
            WordText::Made(text) => Some(text.get().as_slice()),
        }
    }
}

fn add_text(
    alloc: Global,
    element: &Element,
    script: &[u8],
    texts: &mut Vec<WordText>,
) -> Result<(), AllocError>
    ensures { OnOk result (map (spec.text_in script.now) texts.new.items ≡ map (spec.text_in script.now) texts.old.items ++ spec.texts_of script.now element.now) }
{
    match element {
        Element::Assignment { .. } => Ok(()),
        Element::Word(word) => {
            texts.push(WordText::new(alloc, word, script)?)?;
            Ok(())
        }
        Element::Redirection(_) => Ok(()),
    }
}

/// The texts of the words of a simple command.
///
/// # Errors
///
/// `AllocError` if a growth was refused.
pub fn texts_of(
    alloc: Global,
    elements: &[Element],
    script: &[u8],
) -> Result<Vec<WordText>, AllocError>
    ensures { IfOk result (λ texts. map (spec.text_in script.now) texts.items ≡ sites.statics (sites.Simple (operands_in (elements_from script.now elements.now)))) }
{
    let mut texts = Vec::with_capacity(alloc, elements.len())?;
    for element in elements {
        add_text(alloc, element, script, &mut texts)?;
    }
    Ok(texts)
}
