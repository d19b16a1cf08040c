//! The places of expansions outside quotes, word by word (XCU 2.6.5, 2.6.6, 2.9.1.1).
ghost use Rattle.std.specs.Prelude.{◌≡◌, ◌++◌, ◌<◌, ℕ, List, length, flat_map, option_map, Some, OnOk, OnErr};
ghost use Rattle.sh_tree.specs.standard.Words.{words_of};
ghost use Rattle.sh_tree.specs.declared.tree.Command.{out-Command};
ghost use Rattle.sh_runs.specs.standard.Kinds as kinds;
ghost use Rattle.sh_quote.specs.Unquoted as spec;

use crate::elements::{begins_assignment, split_word};
use crate::patterns::is_pattern;
use crate::quotations::reported_at;
use sh_table::{Kind as Meaning, kind_of};
use sh_tree::{Code, Command, Element, Items, Kind, KnownName, Part, Place, Word};
use std::alloc::AllocError;

#[tactic(auto, unfolding(crate::specs::Quotations::told))]
fn add_part(part: &Part, numbers: bool, places: &mut Vec<Place>) -> Result<(), AllocError>
    ensures kept { (b : List ℕ) → OnOk result (places.new.items ≡ places.old.items ++ spec.part_told b numbers part.now) }
    ensures some { (b : List ℕ) → OnErr result (0 < length (spec.part_told b numbers part.now)) }
{
    match reported_at(part, numbers) {
        None => Ok(()),
        Some(at) => add_place(at, places),
    }
}

#[tactic(auto, unfolding(crate::specs::Quotations::told, crate::specs::Places::told_at))]
fn add_place(at: u32, places: &mut Vec<Place>) -> Result<(), AllocError>
    ensures kept { OnOk result (places.new.items ≡ places.old.items ++ spec.told (Some at)) }
    ensures some { OnErr result (0 < length (spec.told (Some at))) }
{
    let subject = Items::new(*places.allocator());
    places.push(Place {
        at,
        code: Code::Q1,
        subject,
    })?;
    Ok(())
}

fn add_parts(
    parts: &[Part],
    numbers: bool,
    script: &[u8],
    places: &mut Vec<Place>,
) -> Result<(), AllocError>
    ensures kept { OnOk result (places.new.items ≡ places.old.items ++ flat_map (spec.part_told script.now numbers) parts.now) }
    ensures some { OnErr result (0 < length (flat_map (spec.part_told script.now numbers) parts.now)) }
{
    for part in parts {
        add_part(part, numbers, places)?;
    }
    Ok(())
}

// Of a word whose fields are split: numbers stay whole if it is no pattern.
#[tactic(auto, using(crate::proofs::UnquotedLemmas::word_parts))]
fn add_word(
    word: &Word,
    steady: bool,
    script: &[u8],
    places: &mut Vec<Place>,
) -> Result<(), AllocError>
    ensures kept { OnOk result (places.new.items ≡ places.old.items ++ spec.word_told script.now steady word.now) }
    ensures some { OnErr result (0 < length (spec.word_told script.now steady word.now)) }
{
    let numbers = steady && !is_pattern(word, script);
    add_parts(word.parts.as_slice(), numbers, script, places)
}

fn add_words(
    words: &[Word],
    steady: bool,
    script: &[u8],
    places: &mut Vec<Place>,
) -> Result<(), AllocError>
    ensures kept { OnOk result (places.new.items ≡ places.old.items ++ flat_map (spec.word_told script.now steady) words.now) }
    ensures some { OnErr result (0 < length (flat_map (spec.word_told script.now steady) words.now)) }
{
    for word in words {
        add_word(word, steady, script, places)?;
    }
    Ok(())
}

// An assignment in form that a declaration utility takes is not split.
#[tactic(auto, unfolding(crate::specs::Unquoted::operand_told))]
fn add_operand(
    word: &Word,
    declares: bool,
    steady: bool,
    script: &[u8],
    places: &mut Vec<Place>,
) -> Result<(), AllocError>
    ensures kept { OnOk result (places.new.items ≡ places.old.items ++ spec.operand_told script.now declares steady word.now) }
    ensures some { OnErr result (0 < length (spec.operand_told script.now declares steady word.now)) }
{
    if declares && begins_assignment(word, script) {
        Ok(())
    } else {
        add_word(word, steady, script, places)
    }
}

#[tactic(auto, using(crate::proofs::OperandLemmas::split_some, crate::proofs::OperandLemmas::split_none))]
fn add_operands(
    elements: &[Element],
    declares: bool,
    steady: bool,
    script: &[u8],
    places: &mut Vec<Place>,
) -> Result<(), AllocError>
    ensures kept { OnOk result (places.new.items ≡ places.old.items ++ flat_map (spec.operand_told script.now declares steady) (words_of elements.now)) }
    ensures some { OnErr result (0 < length (flat_map (spec.operand_told script.now declares steady) (words_of elements.now))) }
{
    let mut left = elements;
    while let Some((word, rest)) = split_word(left) {
        add_operand(word, declares, steady, script, places)?;
        left = rest;
    }
    Ok(())
}

/// Whether the utility is a declaration utility (XCU 2.9.1.1).
#[tactic(auto, unfolding(sh_runs::specs::standard::Kinds::is_declaration))]
fn is_declaration(kind: Meaning) -> bool
    ensures { result ≡ kinds.is_declaration kind }
{
    match kind {
        Meaning::Special(KnownName::Export) => true,
        Meaning::Special(KnownName::Readonly) => true,
        _ => false,
    }
}

#[tactic(auto, unfolding(crate::specs::Unquoted::declares))]
fn declares(name: Option<&[u8]>) -> bool
    ensures { result ≡ spec.declares (option_map (λ t. t.now) name.entry) }
{
    match name {
        None => false,
        Some(text) => is_declaration(kind_of(text)),
    }
}

#[tactic(auto, using(crate::proofs::OperandLemmas::split_some, crate::proofs::OperandLemmas::split_none, crate::proofs::UnquotedLemmas::no_words, crate::proofs::UnquotedLemmas::first_word))]
fn add_simple(
    elements: &[Element],
    name: Option<&[u8]>,
    steady: bool,
    script: &[u8],
    places: &mut Vec<Place>,
) -> Result<(), AllocError>
    ensures kept { OnOk result (places.new.items ≡ places.old.items ++ spec.words_told script.now (option_map (λ t. t.now) name.entry) steady (words_of elements.now)) }
    ensures some { OnErr result (0 < length (spec.words_told script.now (option_map (λ t. t.now) name.entry) steady (words_of elements.now))) }
{
    match split_word(elements) {
        None => Ok(()),
        Some((word, rest)) => {
            add_word(word, steady, script, places)?;
            add_operands(rest, declares(name), steady, script, places)
        }
    }
}

#[tactic(auto, using(crate::proofs::UnquotedLemmas::kinds))]
fn add_kind(
    kind: &Kind,
    name: Option<&[u8]>,
    steady: bool,
    script: &[u8],
    places: &mut Vec<Place>,
) -> Result<(), AllocError>
    ensures kept { OnOk result (places.new.items ≡ places.old.items ++ spec.kind_told script.now (option_map (λ t. t.now) name.entry) steady kind.now) }
    ensures some { OnErr result (0 < length (spec.kind_told script.now (option_map (λ t. t.now) name.entry) steady kind.now)) }
{
    match kind {
        Kind::Simple(elements) => add_simple(elements.as_slice(), name, steady, script, places),
        Kind::For { words, .. } => match words {
            Some(words) => add_words(words.as_slice(), steady, script, places),
            None => Ok(()),
        },
        Kind::Group(_) => Ok(()),
        Kind::Subshell(_) => Ok(()),
        Kind::Cond { .. } => Ok(()),
        Kind::Loop { .. } => Ok(()),
        Kind::Branches { .. } => Ok(()),
        Kind::Define { .. } => Ok(()),
    }
}

/// Adds the places of what is unquoted in the words of a command whose fields are split. Its name
/// is this text, and numbers stay whole or do not.
///
/// # Errors
///
/// If there is one and no memory for it.
pub fn add_command(
    command: &Command,
    name: Option<&[u8]>,
    steady: bool,
    script: &[u8],
    places: &mut Vec<Place>,
) -> Result<(), AllocError>
    ensures kept { OnOk result (places.new.items ≡ places.old.items ++ spec.kind_told script.now (option_map (λ t. t.now) name.entry) steady (out-Command command.now).kind) }
    ensures some { OnErr result (0 < length (spec.kind_told script.now (option_map (λ t. t.now) name.entry) steady (out-Command command.now).kind)) }
{
    add_kind(&command.kind, name, steady, script, places)
}
