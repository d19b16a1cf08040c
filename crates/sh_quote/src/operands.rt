//! Operands by which a utility could set IFS (XCU 2.15, 3).
ghost use Rattle.std.specs.Prelude.{◌≡◌, map, option_map};
ghost use Rattle.std.specs.List.{list_any, list_all};
ghost use Rattle.sh_tree.specs.standard.Words.{words_of};
ghost use Rattle.sh_table.specs.WordTexts.{text_in};
ghost use Rattle.sh_quote.specs.Steady as steady;
ghost use Rattle.sh_quote.specs.Operands as spec;

use crate::elements::split_word;
use crate::quotations::are_quotations;
use crate::values::{is_steady, value_is_steady};
use sh_operands::{Look, is_ifs, read_operands, word_has};
use sh_table::{Kind, WordText, are_static, definition_in};
use sh_tree::{Element, KnownName, Part, Word, command_name};

// `export` and `readonly`

// A static operand, which may give IFS a value.
#[tactic(auto, unfolding(crate::specs::Steady::steady_text, crate::specs::Steady::steady_definition))]
fn text_is_steady(text: Option<&[u8]>) -> bool
    ensures { result ≡ steady.steady_text (option_map (λ t. t.now) text.entry) }
{
    match text {
        None => false,
        Some(text) => match definition_in(text) {
            Some((name, value)) => !is_ifs(name) || is_steady(value),
            None => true,
        },
    }
}

// An operand with these plain bytes at its front.
#[tactic(auto, unfolding(crate::specs::Operands::front_steady, sh_runs::specs::standard::runs::Operands::definition_in))]
fn front_is_steady(front: &[u8], rest: &[Part], text: Option<&[u8]>, script: &[u8]) -> bool
    ensures { result ≡ spec.front_steady script.now front.now rest.now (option_map (λ t. t.now) text.entry) }
{
    match definition_in(front) {
        Some((name, value)) => !is_ifs(name) || value_is_steady(value, rest, script),
        None => text_is_steady(text),
    }
}

// An operand of `export` or `readonly` with this static text.
#[tactic(auto, unfolding(crate::specs::Operands::parts_declared))]
fn is_declared(word: &Word, text: Option<&[u8]>, script: &[u8]) -> bool
    ensures { result ≡ spec.parts_declared script.now word.now.parts (option_map (λ t. t.now) text.entry) }
{
    match word.parts.as_slice() {
        [Part::Plain(span), rest @ ..] => front_is_steady(span.text(script), rest, text, script),
        _ => text_is_steady(text),
    }
}

/// Whether no operand of `export` or `readonly` gives IFS a value that separates numbers, or could.
/// This is by the words of these elements, with their static texts.
#[tactic(auto, using(crate::proofs::OperandLemmas::split_some, crate::proofs::OperandLemmas::split_none), unfolding(crate::specs::Operands::all_declared))]
fn are_declared(elements: &[Element], texts: &[WordText], script: &[u8]) -> bool
    ensures { result ≡ spec.all_declared script.now (words_of elements.now) (map (text_in script.now) texts.now) }
{
    let mut left = elements;
    let mut later = texts;
    while let Some((word, rest)) = split_word(left) {
        let [text, others @ ..] = later else {
            return true;
        };
        if !is_declared(word, text.get(script), script) {
            return false;
        }
        left = rest;
        later = others;
    }
    true
}

// `getopts`

// A static operand that is not IFS.
#[tactic(auto, unfolding(crate::specs::Operands::names_other))]
fn names_other(text: &WordText, script: &[u8]) -> bool
    ensures { result ≡ spec.names_other (text_in script.now text.now) }
{
    match text.get(script) {
        None => false,
        Some(text) => !is_ifs(text),
    }
}

fn all_name_other(texts: &[WordText], script: &[u8]) -> bool
    ensures { result ≡ list_all (λ t. spec.names_other (text_in script.now t)) texts.now }
{
    texts.iter().all(|text| names_other(text, script))
}

// The operand with the options: one field that is not IFS.
#[tactic(auto, unfolding(crate::specs::Operands::is_one_field, sh_operands::specs::Looks::in_word))]
fn is_one_field(word: &Word, text: Option<&[u8]>, script: &[u8]) -> bool
    ensures { result ≡ spec.is_one_field script.now word.now (option_map (λ t. t.now) text.entry) }
{
    match text {
        Some(text) => !is_ifs(text),
        None => are_quotations(word.parts.as_slice()) && !word_has(Look::At, word, script),
    }
}

/// Whether the operands of `getopts` do not let it set IFS: by the words of these elements, with
/// their static texts.
#[tactic(auto, using(crate::proofs::OperandLemmas::getopts_first, crate::proofs::OperandLemmas::getopts_none), unfolding(crate::specs::Operands::all_options))]
fn are_options(elements: &[Element], texts: &[WordText], script: &[u8]) -> bool
    ensures { result ≡ spec.all_options script.now (words_of elements.now) (map (text_in script.now) texts.now) }
{
    match command_name(elements) {
        None => true,
        Some(word) => first_is_options(word, texts, script),
    }
}

#[tactic(auto, using(crate::proofs::OperandLemmas::others_named), unfolding(crate::specs::Operands::first_options))]
fn first_is_options(word: &Word, texts: &[WordText], script: &[u8]) -> bool
    ensures { result ≡ spec.first_options script.now word.now (map (text_in script.now) texts.now) }
{
    match texts {
        [] => true,
        [first, rest @ ..] => {
            is_one_field(word, first.get(script), script) && all_name_other(rest, script)
        }
    }
}

// `read`

#[tactic(auto, unfolding(crate::specs::Operands::is_ifs_static))]
fn is_ifs_text(text: &WordText, script: &[u8]) -> bool
    ensures { result ≡ spec.is_ifs_static (text_in script.now text.now) }
{
    match text.get(script) {
        None => false,
        Some(text) => is_ifs(text),
    }
}

fn has_ifs(texts: &[WordText], script: &[u8]) -> bool
    ensures { result ≡ list_any (λ t. spec.is_ifs_static (text_in script.now t)) texts.now }
{
    texts.iter().any(|text| is_ifs_text(text, script))
}

// Whether IFS is among the operands after the options.
#[tactic(auto, using(crate::proofs::OperandLemmas::any_listed), unfolding(crate::specs::Operands::names_ifs))]
fn reads_ifs(texts: &[WordText], script: &[u8]) -> bool
    ensures { result ≡ spec.reads_ifs (map (text_in script.now) texts.now) }
{
    match read_operands(texts, script) {
        None => false,
        Some(left) => has_ifs(left, script),
    }
}

/// Whether the operands of `read` do not let it set IFS, by their static texts.
#[tactic(auto, unfolding(crate::specs::Operands::all_read))]
fn are_read(texts: &[WordText], script: &[u8]) -> bool
    ensures { result ≡ spec.all_read (map (text_in script.now) texts.now) }
{
    are_static(texts, script) && !reads_ifs(texts, script)
}

// Commands

/// Whether the operands of a utility of this kind do not let it set IFS to what separates numbers.
/// This is by the words of the elements after its name, with their static texts.
#[tactic(auto, unfolding(crate::specs::Operands::operands_steady))]
pub fn operands_are_steady(
    kind: Kind,
    elements: &[Element],
    texts: &[WordText],
    script: &[u8],
) -> bool
    ensures { result ≡ spec.operands_steady kind script.now (words_of elements.now) (map (text_in script.now) texts.now) }
{
    match kind {
        Kind::Special(KnownName::Export) => are_declared(elements, texts, script),
        Kind::Special(KnownName::Readonly) => are_declared(elements, texts, script),
        Kind::Read => are_read(texts, script),
        Kind::Getopts => are_options(elements, texts, script),
        _ => true,
    }
}
