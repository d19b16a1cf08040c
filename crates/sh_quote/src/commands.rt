//! Commands that leave IFS to what separates no numbers (XCU 2.6.5).
ghost use Rattle.std.specs.Prelude.{◌≡◌, map};
ghost use Rattle.std.specs.List.{list_any, list_all};
ghost use Rattle.sh_tree.specs.standard.Words.{words_of};
ghost use Rattle.sh_table.specs.WordTexts.{text_in};
ghost use Rattle.sh_quote.specs.Commands as spec;

use crate::elements::split_word;
use crate::operands::operands_are_steady;
use crate::values::value_is_steady;
use sh_operands::{Look, is_ifs, word_has};
use sh_table::{Kind as Meaning, WordText, kind_of};
use sh_tree::{Clause, Command, Element, Kind, Redirect, Target, Word};

#[tactic(auto, using(crate::proofs::CommandLemmas::steady_elements))]
fn element_is_steady(element: &Element, script: &[u8]) -> bool
    ensures { result ≡ spec.element_steady script.now element.now }
{
    match element {
        Element::Assignment { name, value } => {
            !is_ifs(name.text(script)) || value_is_steady(&[], value.parts.as_slice(), script)
        }
        Element::Word(_) => true,
        Element::Redirection(_) => true,
    }
}

fn assignments_are_steady(elements: &[Element], script: &[u8]) -> bool
    ensures { result ≡ list_all (spec.element_steady script.now) elements.now }
{
    elements
        .iter()
        .all(|element| element_is_steady(element, script))
}

#[tactic(auto, using(crate::proofs::OperandLemmas::split_some, crate::proofs::OperandLemmas::split_none, crate::proofs::CommandLemmas::no_operands, crate::proofs::CommandLemmas::behind_name))]
fn named_is_steady(kind: Meaning, elements: &[Element], texts: &[WordText], script: &[u8]) -> bool
    ensures { result ≡ spec.named_steady kind script.now (words_of elements.now) (map (text_in script.now) texts.now) }
{
    match split_word(elements) {
        None => true,
        Some((_, operands)) => operands_are_steady(kind, operands, texts, script),
    }
}

#[tactic(auto, unfolding(crate::specs::Commands::words_steady))]
fn words_are_steady(elements: &[Element], texts: &[WordText], script: &[u8]) -> bool
    ensures { result ≡ spec.words_steady script.now (words_of elements.now) (map (text_in script.now) texts.now) }
{
    match texts {
        [] => true,
        [name, operands @ ..] => match name.get(script) {
            None => true,
            Some(text) => named_is_steady(kind_of(text), elements, operands, script),
        },
    }
}

#[tactic(auto, using(crate::proofs::CommandLemmas::steady_kinds))]
fn kind_is_steady(kind: &Kind, texts: &[WordText], script: &[u8]) -> bool
    ensures { result ≡ spec.kind_steady script.now kind.now (map (text_in script.now) texts.now) }
{
    match kind {
        Kind::Simple(elements) => {
            assignments_are_steady(elements.as_slice(), script)
                && words_are_steady(elements.as_slice(), texts, script)
        }
        Kind::For { name, .. } => !is_ifs(name.text(script)),
        Kind::Group(_) => true,
        Kind::Subshell(_) => true,
        Kind::Cond { .. } => true,
        Kind::Loop { .. } => true,
        Kind::Branches { .. } => true,
        Kind::Define { .. } => true,
    }
}

// Assignments in words

#[tactic(auto, unfolding(sh_operands::specs::Looks::in_word))]
fn word_sets(word: &Word, script: &[u8]) -> bool
    ensures { result ≡ spec.word_sets script.now word.now }
{
    word_has(Look::SetsIfs, word, script)
}

fn words_set(words: &[Word], script: &[u8]) -> bool
    ensures { result ≡ list_any (spec.word_sets script.now) words.now }
{
    words.iter().any(|word| word_sets(word, script))
}

#[tactic(auto, using(crate::proofs::CommandLemmas::setting_targets))]
fn target_sets(target: &Target, script: &[u8]) -> bool
    ensures { result ≡ spec.target_sets script.now target.now }
{
    match target {
        Target::File(_, word) => word_sets(word, script),
        Target::Here(here) => word_sets(&here.body, script),
    }
}

fn redirects_set(redirects: &[Redirect], script: &[u8]) -> bool
    ensures { result ≡ list_any (λ r. spec.target_sets script.now r.target) redirects.now }
{
    redirects
        .iter()
        .any(|redirect| target_sets(&redirect.target, script))
}

#[tactic(auto, using(crate::proofs::CommandLemmas::setting_elements))]
fn element_sets(element: &Element, script: &[u8]) -> bool
    ensures { result ≡ spec.element_sets script.now element.now }
{
    match element {
        Element::Assignment { value, .. } => word_sets(value, script),
        Element::Word(word) => word_sets(word, script),
        Element::Redirection(redirect) => target_sets(&redirect.target, script),
    }
}

fn elements_set(elements: &[Element], script: &[u8]) -> bool
    ensures { result ≡ list_any (spec.element_sets script.now) elements.now }
{
    elements.iter().any(|element| element_sets(element, script))
}

fn clause_sets(clause: &Clause, script: &[u8]) -> bool
    ensures { result ≡ spec.clause_sets script.now clause.now }
{
    words_set(clause.patterns.as_slice(), script)
}

fn clauses_set(clauses: &[Clause], script: &[u8]) -> bool
    ensures { result ≡ list_any (spec.clause_sets script.now) clauses.now }
{
    clauses.iter().any(|clause| clause_sets(clause, script))
}

#[tactic(auto, using(crate::proofs::CommandLemmas::setting_kinds))]
fn kind_sets(kind: &Kind, script: &[u8]) -> bool
    ensures { result ≡ spec.kind_sets script.now kind.now }
{
    match kind {
        Kind::Simple(elements) => elements_set(elements.as_slice(), script),
        Kind::For { words, .. } => match words {
            Some(words) => words_set(words.as_slice(), script),
            None => false,
        },
        Kind::Branches { word, clauses } => {
            word_sets(word, script) || clauses_set(clauses.as_slice(), script)
        }
        Kind::Group(_) => false,
        Kind::Subshell(_) => false,
        Kind::Cond { .. } => false,
        Kind::Loop { .. } => false,
        Kind::Define { .. } => false,
    }
}

/// Whether a command, with these static texts of its words, leaves IFS to what separates no
/// numbers. The commands in its words are commands of their own.
#[tactic(auto, using(crate::proofs::CommandLemmas::command_out))]
pub fn command_is_steady(command: &Command, texts: &[WordText], script: &[u8]) -> bool
    ensures { result ≡ spec.command_steady script.now command.now (map (text_in script.now) texts.now) }
{
    let sets = redirects_set(command.redirects.as_slice(), script)
        || kind_sets(&command.kind, script);
    kind_is_steady(&command.kind, texts, script) && !sets
}
