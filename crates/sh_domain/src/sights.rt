//! The names in a script's text, each with its offset.
ghost use Rattle.std.specs.Prelude.{◌≡◌, ◌≤◌, ◌++◌, ◌∷◌, [], length, map, flat_map, false, nat_lt, if◌then◌else◌, OnOk, IfOk};
ghost use Rattle.std.specs.List.Sorted.{IsPermutation, IsNonDecreasingBy};
ghost use Rattle.sh_tree.specs.standard.language.Bytes as bytes;
ghost use Rattle.sh_tree.specs.standard.Words.{words_of};
ghost use Rattle.sh_domain.specs.Sights as spec;
ghost use Rattle.sh_domain.specs.SightWalks.{as_sight, seen_in, listed_word};

use crate::operands::{behind_options, read_behind};
use sh_runs::definition_in;
use sh_tree::{
    Binary, Clause, Command, Element, Expr, Kind, ParameterOperator, Part, Redirect, Span, Subject,
    Target, Word, is_name, static_text,
};
use std::alloc::{AllocError, Global};

/// A name, and its offset.
#[derive(Debug, Drop)]
pub struct Seen {
    pub at: u32,
    pub name: Vec<u8>,
}

/// The names in these commands, by their offsets. What is in a command that is not one of these is
/// omitted.
///
/// # Errors
///
/// If a growth was refused.
pub fn names_seen(
    alloc: Global,
    commands: &[&Command],
    script: &[u8],
) -> Result<Vec<Seen>, AllocError>
    ensures all { IfOk result (λ seen. IsPermutation (flat_map (λ c. spec.in_command script.now c.now) commands.now) (seen_in seen.items)) }
    ensures ordered { IfOk result (λ seen. IsNonDecreasingBy (λ x. x.at) seen.items) }
{
    let mut found = Vec::new(alloc);
    add_commands(commands, script, &mut found)?;
    in_order(found)
}

fn in_order(mut found: Vec<Seen>) -> Result<Vec<Seen>, AllocError>
    ensures same { IfOk result (λ sorted. IsPermutation found.items sorted.items) }
    ensures ordered { IfOk result (λ sorted. IsNonDecreasingBy (λ x. x.at) sorted.items) }
{
    found.sort_by_key(|seen| seen.at)?;
    Ok(found)
}

fn add_commands(
    commands: &[&Command],
    script: &[u8],
    found: &mut Vec<Seen>,
) -> Result<(), AllocError>
    ensures { OnOk result (seen_in found.new.items ≡ seen_in found.old.items ++ flat_map (λ c. spec.in_command script.now c.now) commands.now) }
{
    for command in commands {
        add_command(command, script, found)?;
    }
    Ok(())
}

fn add_command(command: &Command, script: &[u8], found: &mut Vec<Seen>) -> Result<(), AllocError>
    ensures { OnOk result (seen_in found.new.items ≡ seen_in found.old.items ++ spec.in_command script.now command.now) }
{
    add_kind(&command.kind, script, found)?;
    add_redirects(command.redirects.as_slice(), script, found)
}

#[tactic(auto, using(crate::proofs::SightLemmas::kinds))]
fn add_kind(kind: &Kind, script: &[u8], found: &mut Vec<Seen>) -> Result<(), AllocError>
    ensures { OnOk result (seen_in found.new.items ≡ seen_in found.old.items ++ spec.in_kind script.now kind.now) }
{
    match kind {
        Kind::Simple(elements) => add_simple(elements.as_slice(), script, found),
        Kind::For { name, words, .. } => {
            add(*name, script, found)?;
            match words {
                Some(words) => add_words(words.as_slice(), script, found),
                None => Ok(()),
            }
        }
        Kind::Branches { word, clauses } => {
            add_word(word, script, found)?;
            add_clauses(clauses.as_slice(), script, found)
        }
        Kind::Define { name, .. } => add(*name, script, found),
        Kind::Group(_) => Ok(()),
        Kind::Subshell(_) => Ok(()),
        Kind::Cond { .. } => Ok(()),
        Kind::Loop { .. } => Ok(()),
    }
}

fn add_simple(elements: &[Element], script: &[u8], found: &mut Vec<Seen>) -> Result<(), AllocError>
    ensures { OnOk result (seen_in found.new.items ≡ seen_in found.old.items ++ spec.in_simple script.now elements.now) }
{
    add_elements(elements, script, found)?;
    let words = words_of(*found.allocator(), elements)?;
    add_operands(&words, script, found)
}

// The command name and the operands.
fn words_of(alloc: Global, elements: &[Element]) -> Result<Vec<&Word>, AllocError>
    ensures { IfOk result (λ words. map (λ w. w.now) words.items ≡ words_of elements.entry.now) }
{
    let mut words = Vec::new(alloc);
    add_words_of(elements, &mut words)?;
    Ok(words)
}

fn add_words_of<'a>(elements: &'a [Element], words: &mut Vec<&'a Word>) -> Result<(), AllocError>
    ensures { OnOk result (map (λ w. w.now) words.new.items ≡ map (λ w. w.now) words.old.items ++ flat_map listed_word elements.now) }
{
    for element in elements {
        add_word_of(element, words)?;
    }
    Ok(())
}

fn add_word_of<'a>(element: &'a Element, words: &mut Vec<&'a Word>) -> Result<(), AllocError>
    ensures { OnOk result (map (λ w. w.now) words.new.items ≡ map (λ w. w.now) words.old.items ++ listed_word element.now) }
{
    match element {
        Element::Word(word) => {
            words.push(word)?;
            Ok(())
        }
        Element::Assignment { .. } => Ok(()),
        Element::Redirection(_) => Ok(()),
    }
}

fn add_elements(
    elements: &[Element],
    script: &[u8],
    found: &mut Vec<Seen>,
) -> Result<(), AllocError>
    ensures { OnOk result (seen_in found.new.items ≡ seen_in found.old.items ++ flat_map (spec.in_element script.now) elements.now) }
{
    for element in elements {
        add_element(element, script, found)?;
    }
    Ok(())
}

#[tactic(auto, using(crate::proofs::SightLemmas::elements))]
fn add_element(element: &Element, script: &[u8], found: &mut Vec<Seen>) -> Result<(), AllocError>
    ensures { OnOk result (seen_in found.new.items ≡ seen_in found.old.items ++ spec.in_element script.now element.now) }
{
    match element {
        Element::Assignment { name, value } => {
            add(*name, script, found)?;
            add_word(value, script, found)
        }
        Element::Word(word) => add_word(word, script, found),
        Element::Redirection(redirect) => add_target(&redirect.target, script, found),
    }
}

fn add_redirects(
    redirects: &[Redirect],
    script: &[u8],
    found: &mut Vec<Seen>,
) -> Result<(), AllocError>
    ensures { OnOk result (seen_in found.new.items ≡ seen_in found.old.items ++ flat_map (spec.in_redirect script.now) redirects.now) }
{
    for redirect in redirects {
        add_target(&redirect.target, script, found)?;
    }
    Ok(())
}

#[tactic(auto, using(crate::proofs::SightLemmas::targets))]
fn add_target(target: &Target, script: &[u8], found: &mut Vec<Seen>) -> Result<(), AllocError>
    ensures { OnOk result (seen_in found.new.items ≡ seen_in found.old.items ++ spec.in_target script.now target.now) }
{
    match target {
        Target::File(_, word) => add_word(word, script, found),
        Target::Here(here) => add_word(&here.body, script, found),
    }
}

fn add_words(words: &[Word], script: &[u8], found: &mut Vec<Seen>) -> Result<(), AllocError>
    ensures { OnOk result (seen_in found.new.items ≡ seen_in found.old.items ++ flat_map (spec.in_word script.now) words.now) }
{
    for word in words {
        add_word(word, script, found)?;
    }
    Ok(())
}

fn add_clauses(clauses: &[Clause], script: &[u8], found: &mut Vec<Seen>) -> Result<(), AllocError>
    ensures { OnOk result (seen_in found.new.items ≡ seen_in found.old.items ++ flat_map (spec.in_clause script.now) clauses.now) }
{
    for clause in clauses {
        add_words(clause.patterns.as_slice(), script, found)?;
    }
    Ok(())
}

#[cycle(walk)]
fn add_word(word: &Word, script: &[u8], found: &mut Vec<Seen>) -> Result<(), AllocError>
    ensures { OnOk result (seen_in found.new.items ≡ seen_in found.old.items ++ spec.in_word script.now word.now) }
{
    add_parts(word.parts.as_slice(), script, found)
}

#[cycle(walk)]
fn add_parts(parts: &[Part], script: &[u8], found: &mut Vec<Seen>) -> Result<(), AllocError>
    ensures { OnOk result (seen_in found.new.items ≡ seen_in found.old.items ++ flat_map (spec.in_part script.now) parts.now) }
{
    for part in parts {
        add_part(part, script, found)?;
    }
    Ok(())
}

#[cycle(walk)]
#[tactic(auto, using(crate::proofs::SightLemmas::parts))]
fn add_part(part: &Part, script: &[u8], found: &mut Vec<Seen>) -> Result<(), AllocError>
    ensures { OnOk result (seen_in found.new.items ≡ seen_in found.old.items ++ spec.in_part script.now part.now) }
{
    match part {
        Part::Double(_, parts) => add_parts(parts.as_slice(), script, found),
        Part::Param(param) => {
            add_subject(param.subject, script, found)?;
            add_operator(&param.operator, script, found)
        }
        Part::Arith(_, expression) => add_expression(expression.get(), script, found),
        Part::Plain(_) => Ok(()),
        Part::Escaped(_) => Ok(()),
        Part::Single(_, _) => Ok(()),
        Part::Command(_, _, _) => Ok(()),
        Part::Tilde(_) => Ok(()),
        Part::Joined(_) => Ok(()),
    }
}

#[tactic(auto, unfolding(crate::specs::Sights::subject_sights))]
fn add_subject(subject: Subject, script: &[u8], found: &mut Vec<Seen>) -> Result<(), AllocError>
    ensures { OnOk result (seen_in found.new.items ≡ seen_in found.old.items ++ spec.subject_sights script.now subject) }
{
    match subject {
        Subject::Name(span) => add(span, script, found),
        Subject::Positional(_, _) => Ok(()),
        Subject::Special(_, _) => Ok(()),
    }
}

#[cycle(walk)]
#[tactic(auto, using(crate::proofs::SightLemmas::operators))]
fn add_operator(
    operator: &ParameterOperator,
    script: &[u8],
    found: &mut Vec<Seen>,
) -> Result<(), AllocError>
    ensures { OnOk result (seen_in found.new.items ≡ seen_in found.old.items ++ spec.in_operator script.now operator.now) }
{
    match operator {
        ParameterOperator::Value => Ok(()),
        ParameterOperator::Length => Ok(()),
        ParameterOperator::Use { word, .. } => add_word(word, script, found),
        ParameterOperator::Remove { pattern, .. } => add_word(pattern, script, found),
    }
}

#[cycle(walk)]
fn add_chain(
    rest: &[(Binary, Expr)],
    script: &[u8],
    found: &mut Vec<Seen>,
) -> Result<(), AllocError>
    ensures { OnOk result (seen_in found.new.items ≡ seen_in found.old.items ++ flat_map (spec.in_step script.now) rest.now) }
{
    for link in rest {
        add_expression(&link.1, script, found)?;
    }
    Ok(())
}

#[cycle(walk)]
#[tactic(auto, using(crate::proofs::SightLemmas::expressions))]
fn add_expression(expression: &Expr, script: &[u8], found: &mut Vec<Seen>) -> Result<(), AllocError>
    ensures { OnOk result (seen_in found.new.items ≡ seen_in found.old.items ++ spec.in_expression script.now expression.now) }
{
    match expression {
        Expr::Constant(_) => Ok(()),
        Expr::Variable(name) => add(*name, script, found),
        Expr::Expansion(part) => add_part(part, script, found),
        Expr::Parenthesis(inner) => add_expression(inner.get(), script, found),
        Expr::Unary { operand, .. } => add_expression(operand.get(), script, found),
        Expr::Chain { first, rest } => {
            add_expression(first.get(), script, found)?;
            add_chain(rest.as_slice(), script, found)
        }
        Expr::Choice { condition, yes, no } => {
            add_expression(condition.get(), script, found)?;
            add_expression(yes.get(), script, found)?;
            add_expression(no.get(), script, found)
        }
        Expr::Assign { name, value, .. } => {
            add(*name, script, found)?;
            add_expression(value.get(), script, found)
        }
    }
}

fn add(name: Span, script: &[u8], found: &mut Vec<Seen>) -> Result<(), AllocError>
    ensures { OnOk result (seen_in found.new.items ≡ seen_in found.old.items ++ spec.sight script.now name ∷ []) }
{
    push(name.start, name.text(script), found)
}

fn push(at: u32, name: &[u8], found: &mut Vec<Seen>) -> Result<(), AllocError>
    ensures { OnOk result (seen_in found.new.items ≡ seen_in found.old.items ++ record { at = at; name = name.now } ∷ []) }
{
    let name = Vec::from_slice(*found.allocator(), name)?;
    found.push(Seen { at, name })?;
    Ok(())
}

// Operands that are names, by the command's own name.
#[tactic(auto, unfolding(crate::specs::Sights::operand_sights, crate::specs::Sights::by_name))]
fn add_operands(words: &[&Word], script: &[u8], found: &mut Vec<Seen>) -> Result<(), AllocError>
    ensures { OnOk result (seen_in found.new.items ≡ seen_in found.old.items ++ spec.operand_sights script.now (map (λ w. w.now) words.now)) }
{
    match words {
        [] => Ok(()),
        [name, operands @ ..] => match static_text(*found.allocator(), name, script)? {
            None => Ok(()),
            Some(name) => add_named(&name, operands, script, found),
        },
    }
}

#[tactic(auto, unfolding(crate::specs::Sights::named_sights))]
fn add_named(
    name: &[u8],
    operands: &[&Word],
    script: &[u8],
    found: &mut Vec<Seen>,
) -> Result<(), AllocError>
    ensures { OnOk result (seen_in found.new.items ≡ seen_in found.old.items ++ spec.named_sights script.now name.now (map (λ w. w.now) operands.now)) }
{
    if b"unset".as_slice() == name {
        add_unset(operands, script, found)
    } else if b"read".as_slice() == name {
        add_read(operands, script, found)
    } else if b"getopts".as_slice() == name {
        add_getopts(operands, script, found)
    } else if b"export".as_slice() == name || b"readonly".as_slice() == name {
        add_assigned(operands, script, found)
    } else {
        Ok(())
    }
}

// The static words, and the offsets at which they start.
fn static_words(alloc: Global, words: &[&Word], script: &[u8]) -> Result<Vec<Seen>, AllocError>
    ensures { IfOk result (λ seen. seen_in seen.items ≡ flat_map (λ w. spec.static_sight script.now w.now) words.now) }
{
    let mut seen = Vec::new(alloc);
    for word in words {
        add_static(word, script, &mut seen)?;
    }
    Ok(seen)
}

#[tactic(auto, unfolding(crate::specs::Sights::placed))]
fn add_static(word: &Word, script: &[u8], seen: &mut Vec<Seen>) -> Result<(), AllocError>
    ensures { OnOk result (seen_in seen.new.items ≡ seen_in seen.old.items ++ spec.static_sight script.now word.now) }
{
    match static_text(*seen.allocator(), word, script)? {
        None => Ok(()),
        Some(text) => push(word.span.start, &text, seen),
    }
}

#[tactic(auto, using(crate::proofs::SightLemmas::mapped))]
fn add_unset(operands: &[&Word], script: &[u8], found: &mut Vec<Seen>) -> Result<(), AllocError>
    ensures { OnOk result (seen_in found.new.items ≡ seen_in found.old.items ++ spec.unset_sights script.now (map (λ w. w.now) operands.now)) }
{
    let seen = static_words(*found.allocator(), operands, script)?;
    add_names(behind_options(&seen), found)
}

fn add_read(operands: &[&Word], script: &[u8], found: &mut Vec<Seen>) -> Result<(), AllocError>
    ensures { OnOk result (seen_in found.new.items ≡ seen_in found.old.items ++ spec.read_sights script.now (map (λ w. w.now) operands.now)) }
{
    let seen = static_words(*found.allocator(), operands, script)?;
    add_read_names(&seen, operands.len(), found)
}

// The names among the operands of `read`, unless one of them is computed.
#[tactic(auto, unfolding(crate::specs::Sights::names_behind))]
fn add_read_names(seen: &[Seen], count: usize, found: &mut Vec<Seen>) -> Result<(), AllocError>
    ensures { OnOk result (seen_in found.new.items ≡ seen_in found.old.items ++ (if nat_lt (length seen.now) count then [] else spec.names_behind (spec.read_behind false (seen_in seen.now)))) }
{
    if seen.len() < count {
        return Ok(());
    }
    match read_behind(seen) {
        None => Ok(()),
        Some(left) => add_names(left, found),
    }
}

// Those that are names.
fn add_names(seen: &[Seen], found: &mut Vec<Seen>) -> Result<(), AllocError>
    ensures { OnOk result (seen_in found.new.items ≡ seen_in found.old.items ++ spec.that_are_names (seen_in seen.now)) }
{
    add_each_name(seen, found)
}

fn add_each_name(seen: &[Seen], found: &mut Vec<Seen>) -> Result<(), AllocError>
    ensures { OnOk result (seen_in found.new.items ≡ seen_in found.old.items ++ flat_map (λ x. spec.if_name (as_sight x)) seen.now) }
{
    for word in seen {
        add_if_name(word, found)?;
    }
    Ok(())
}

fn add_if_name(word: &Seen, found: &mut Vec<Seen>) -> Result<(), AllocError>
    ensures { OnOk result (seen_in found.new.items ≡ seen_in found.old.items ++ spec.if_name (as_sight word.now)) }
{
    if is_name(&word.name) {
        push(word.at, &word.name, found)
    } else {
        Ok(())
    }
}

#[tactic(auto, unfolding(crate::specs::Sights::getopts_sights, crate::specs::Sights::named_by))]
fn add_getopts(operands: &[&Word], script: &[u8], found: &mut Vec<Seen>) -> Result<(), AllocError>
    ensures { OnOk result (seen_in found.new.items ≡ seen_in found.old.items ++ spec.getopts_sights script.now (map (λ w. w.now) operands.now)) }
{
    match operands {
        [letters, name, ..] => {
            let letters = static_text(*found.allocator(), letters, script)?;
            let text = static_text(*found.allocator(), name, script)?;
            match (letters, text) {
                (Some(letters), Some(text)) => add_second(&letters, name.span.start, &text, found),
                _ => Ok(()),
            }
        }
        _ => Ok(()),
    }
}

#[tactic(auto, unfolding(crate::specs::Sights::second_sights, sh_tree::specs::standard::language::Bytes::is_first))]
fn add_second(letters: &[u8], at: u32, name: &[u8], found: &mut Vec<Seen>) -> Result<(), AllocError>
    ensures { OnOk result (seen_in found.new.items ≡ seen_in found.old.items ++ spec.second_sights letters.now (record { at = at; name = name.now })) }
{
    if is_name(name) && !letters.starts_with(b"-") {
        push(at, name, found)
    } else {
        Ok(())
    }
}

// Operands that are assignments in form.
fn add_assigned(operands: &[&Word], script: &[u8], found: &mut Vec<Seen>) -> Result<(), AllocError>
    ensures { OnOk result (seen_in found.new.items ≡ seen_in found.old.items ++ spec.assigned_sights script.now (map (λ w. w.now) operands.now)) }
{
    add_each_assigned(operands, script, found)
}

fn add_each_assigned(
    operands: &[&Word],
    script: &[u8],
    found: &mut Vec<Seen>,
) -> Result<(), AllocError>
    ensures { OnOk result (seen_in found.new.items ≡ seen_in found.old.items ++ flat_map (λ w. spec.assigned_sight script.now w.now) operands.now) }
{
    for word in operands {
        add_assigned_one(word, script, found)?;
    }
    Ok(())
}

#[tactic(auto, unfolding(crate::specs::Sights::assigned_in))]
fn add_assigned_one(word: &Word, script: &[u8], found: &mut Vec<Seen>) -> Result<(), AllocError>
    ensures { OnOk result (seen_in found.new.items ≡ seen_in found.old.items ++ spec.assigned_sight script.now word.now) }
{
    match word.parts.as_slice() {
        [Part::Plain(span), ..] => add_front(word.span.start, span.text(script), found),
        _ => Ok(()),
    }
}

#[tactic(auto, unfolding(crate::specs::Sights::front_sights, sh_runs::specs::standard::runs::Operands::definition_in))]
fn add_front(at: u32, text: &[u8], found: &mut Vec<Seen>) -> Result<(), AllocError>
    ensures { OnOk result (seen_in found.new.items ≡ seen_in found.old.items ++ spec.front_sights at text.now) }
{
    match definition_in(text) {
        Some((name, _)) => push(at, name, found),
        None => Ok(()),
    }
}
