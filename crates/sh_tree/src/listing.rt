//! The commands of a script, those in its words included.
#![tactic(auto)]

ghost use Rattle.std.specs.Prelude.{◌≡◌, ◌<◌, ◌++◌, [], length, map, flat_map, OnOk, OnErr, IfOk};
ghost use Rattle.std.specs.Option.{option_map_or};
ghost use Rattle.std.specs.List.Sorted.{IsPermutation, IsNonDecreasingBy};
ghost use Rattle.sh_tree.specs.declared.tree.Command.{out-Command};
ghost use Rattle.sh_tree.specs.declared.tree.Script.{out-Script};
ghost use Rattle.sh_tree.specs.Commands as spec;

use crate::tree::{
    AndOr, Binary, Branch, Clause, Command, Element, Expr, Kind, ParameterOperator, Part, Pipe,
    Script, Target, Word,
};
use std::alloc::{AllocError, Global};

#[cycle(walk)]
fn add_script<'a>(script: &'a Script, found: &mut Vec<&'a Command>) -> Result<(), AllocError>
    ensures { OnOk result (map (λ c. c.now) found.new.items ≡ map (λ c. c.now) found.old.items ++ spec.of_script script.now) }
{
    for item in script.items.as_slice() {
        add_and_or(&item.list, found)?;
    }
    Ok(())
}

#[cycle(walk)]
fn add_and_or<'a>(list: &'a AndOr, found: &mut Vec<&'a Command>) -> Result<(), AllocError>
    ensures { OnOk result (map (λ c. c.now) found.new.items ≡ map (λ c. c.now) found.old.items ++ spec.of_and_or list.now) }
{
    add_pipe(&list.first, found)?;
    for link in list.rest.as_slice() {
        add_pipe(&link.1, found)?;
    }
    Ok(())
}

#[cycle(walk)]
fn add_pipe<'a>(pipe: &'a Pipe, found: &mut Vec<&'a Command>) -> Result<(), AllocError>
    ensures { OnOk result (map (λ c. c.now) found.new.items ≡ map (λ c. c.now) found.old.items ++ spec.of_pipe pipe.now) }
{
    for command in pipe.parts.as_slice() {
        add_command(command, found)?;
    }
    Ok(())
}

#[cycle(walk)]
fn add_command<'a>(command: &'a Command, found: &mut Vec<&'a Command>) -> Result<(), AllocError>
    ensures { OnOk result (map (λ c. c.now) found.new.items ≡ map (λ c. c.now) found.old.items ++ spec.of_command command.now) }
{
    found.push(command)?;
    add_kind(&command.kind, found)?;
    for redirect in command.redirects.as_slice() {
        add_target(&redirect.target, found)?;
    }
    Ok(())
}

#[cycle(walk)]
#[tactic(auto, using(crate::proofs::CommandLemmas::kinds))]
fn add_kind<'a>(kind: &'a Kind, found: &mut Vec<&'a Command>) -> Result<(), AllocError>
    ensures { OnOk result (map (λ c. c.now) found.new.items ≡ map (λ c. c.now) found.old.items ++ spec.of_kind kind.now) }
{
    match kind {
        Kind::Simple(elements) => add_elements(elements.as_slice(), found),
        Kind::Group(list) => add_script(list, found),
        Kind::Subshell(list) => add_script(list, found),
        Kind::Cond {
            branches,
            otherwise,
        } => {
            add_branches(branches.as_slice(), found)?;
            add_otherwise(otherwise, found)
        }
        Kind::Loop {
            condition,
            body,
            ..
        } => {
            add_script(condition, found)?;
            add_script(body, found)
        }
        Kind::For { words, body, .. } => match words {
            Some(words) => {
                add_words(words.as_slice(), found)?;
                add_script(body, found)
            }
            None => add_script(body, found),
        },
        Kind::Branches { word, clauses } => {
            add_word(word, found)?;
            add_clauses(clauses.as_slice(), found)
        }
        Kind::Define { body, .. } => add_command(body.get(), found),
    }
}

#[cycle(walk)]
fn add_otherwise<'a>(
    otherwise: &'a Option<Script>,
    found: &mut Vec<&'a Command>,
) -> Result<(), AllocError>
    ensures { OnOk result (map (λ c. c.now) found.new.items ≡ map (λ c. c.now) found.old.items ++ option_map_or spec.of_script otherwise.now []) }
{
    match otherwise {
        Some(list) => add_script(list, found),
        None => Ok(()),
    }
}

#[cycle(walk)]
fn add_elements<'a>(elements: &'a [Element], found: &mut Vec<&'a Command>) -> Result<(), AllocError>
    ensures { OnOk result (map (λ c. c.now) found.new.items ≡ map (λ c. c.now) found.old.items ++ flat_map spec.of_element elements.now) }
{
    for element in elements {
        add_element(element, found)?;
    }
    Ok(())
}

#[cycle(walk)]
#[tactic(auto, using(crate::proofs::CommandLemmas::elements))]
fn add_element<'a>(element: &'a Element, found: &mut Vec<&'a Command>) -> Result<(), AllocError>
    ensures { OnOk result (map (λ c. c.now) found.new.items ≡ map (λ c. c.now) found.old.items ++ spec.of_element element.now) }
{
    match element {
        Element::Assignment { value, .. } => add_word(value, found),
        Element::Word(word) => add_word(word, found),
        Element::Redirection(redirect) => add_target(&redirect.target, found),
    }
}

#[cycle(walk)]
fn add_branches<'a>(branches: &'a [Branch], found: &mut Vec<&'a Command>) -> Result<(), AllocError>
    ensures { OnOk result (map (λ c. c.now) found.new.items ≡ map (λ c. c.now) found.old.items ++ flat_map spec.of_branch branches.now) }
{
    for branch in branches {
        add_script(&branch.condition, found)?;
        add_script(&branch.body, found)?;
    }
    Ok(())
}

#[cycle(walk)]
fn add_words<'a>(words: &'a [Word], found: &mut Vec<&'a Command>) -> Result<(), AllocError>
    ensures { OnOk result (map (λ c. c.now) found.new.items ≡ map (λ c. c.now) found.old.items ++ flat_map spec.of_word words.now) }
{
    for word in words {
        add_word(word, found)?;
    }
    Ok(())
}

#[cycle(walk)]
fn add_word<'a>(word: &'a Word, found: &mut Vec<&'a Command>) -> Result<(), AllocError>
    ensures { OnOk result (map (λ c. c.now) found.new.items ≡ map (λ c. c.now) found.old.items ++ spec.of_word word.now) }
{
    add_parts(word.parts.as_slice(), found)
}

#[cycle(walk)]
fn add_clauses<'a>(clauses: &'a [Clause], found: &mut Vec<&'a Command>) -> Result<(), AllocError>
    ensures { OnOk result (map (λ c. c.now) found.new.items ≡ map (λ c. c.now) found.old.items ++ flat_map spec.of_clause clauses.now) }
{
    for clause in clauses {
        add_words(clause.patterns.as_slice(), found)?;
        add_script(&clause.body, found)?;
    }
    Ok(())
}

#[cycle(walk)]
#[tactic(auto, using(crate::proofs::CommandLemmas::targets))]
fn add_target<'a>(target: &'a Target, found: &mut Vec<&'a Command>) -> Result<(), AllocError>
    ensures { OnOk result (map (λ c. c.now) found.new.items ≡ map (λ c. c.now) found.old.items ++ spec.of_target target.now) }
{
    match target {
        Target::File(_, word) => add_word(word, found),
        Target::Here(here) => {
            add_word(&here.delimiter, found)?;
            add_word(&here.body, found)
        }
    }
}

#[cycle(walk)]
fn add_parts<'a>(parts: &'a [Part], found: &mut Vec<&'a Command>) -> Result<(), AllocError>
    ensures { OnOk result (map (λ c. c.now) found.new.items ≡ map (λ c. c.now) found.old.items ++ flat_map spec.of_part parts.now) }
{
    for part in parts {
        add_part(part, found)?;
    }
    Ok(())
}

#[cycle(walk)]
#[tactic(auto, using(crate::proofs::CommandLemmas::parts))]
fn add_part<'a>(part: &'a Part, found: &mut Vec<&'a Command>) -> Result<(), AllocError>
    ensures { OnOk result (map (λ c. c.now) found.new.items ≡ map (λ c. c.now) found.old.items ++ spec.of_part part.now) }
{
    match part {
        Part::Double(_, parts) => add_parts(parts.as_slice(), found),
        Part::Param(param) => add_operator(&param.operator, found),
        Part::Arith(_, expression) => add_expression(expression.get(), found),
        Part::Command(_, _, list) => add_script(list, found),
        Part::Plain(_) => Ok(()),
        Part::Escaped(_) => Ok(()),
        Part::Single(_, _) => Ok(()),
        Part::Tilde(_) => Ok(()),
        Part::Joined(_) => Ok(()),
    }
}

#[cycle(walk)]
#[tactic(auto, using(crate::proofs::CommandLemmas::operators))]
fn add_operator<'a>(
    operator: &'a ParameterOperator,
    found: &mut Vec<&'a Command>,
) -> Result<(), AllocError>
    ensures { OnOk result (map (λ c. c.now) found.new.items ≡ map (λ c. c.now) found.old.items ++ spec.of_operator operator.now) }
{
    match operator {
        ParameterOperator::Value => Ok(()),
        ParameterOperator::Length => Ok(()),
        ParameterOperator::Use { word, .. } => add_word(word, found),
        ParameterOperator::Remove { pattern, .. } => add_word(pattern, found),
    }
}

#[cycle(walk)]
fn add_chain<'a>(rest: &'a [(Binary, Expr)], found: &mut Vec<&'a Command>) -> Result<(), AllocError>
    ensures { OnOk result (map (λ c. c.now) found.new.items ≡ map (λ c. c.now) found.old.items ++ flat_map spec.of_step rest.now) }
{
    for link in rest {
        add_expression(&link.1, found)?;
    }
    Ok(())
}

#[cycle(walk)]
#[tactic(auto, using(crate::proofs::CommandLemmas::expressions))]
fn add_expression<'a>(expression: &'a Expr, found: &mut Vec<&'a Command>) -> Result<(), AllocError>
    ensures { OnOk result (map (λ c. c.now) found.new.items ≡ map (λ c. c.now) found.old.items ++ spec.of_expression expression.now) }
{
    match expression {
        Expr::Constant(_) => Ok(()),
        Expr::Variable(_) => Ok(()),
        Expr::Expansion(part) => add_part(part, found),
        Expr::Parenthesis(inner) => add_expression(inner.get(), found),
        Expr::Unary { operand, .. } => add_expression(operand.get(), found),
        Expr::Chain { first, rest } => {
            add_expression(first.get(), found)?;
            add_chain(rest.as_slice(), found)
        }
        Expr::Choice { condition, yes, no } => {
            add_expression(condition.get(), found)?;
            add_expression(yes.get(), found)?;
            add_expression(no.get(), found)
        }
        Expr::Assign { value, .. } => add_expression(value.get(), found),
    }
}

/// The commands by their numbers.
fn in_order(mut found: Vec<&Command>) -> Result<Vec<&Command>, AllocError>
    ensures same { IfOk result (λ sorted. IsPermutation found.entry.items sorted.items) }
    ensures ordered { IfOk result (λ sorted. IsNonDecreasingBy (λ c. (out-Command c.now).number) sorted.items) }
{
    found.sort_by_key(|command| command.number)?;
    Ok(found)
}

/// All commands of a script, those in its words included, each once, in the order of their numbers.
/// As a script is read, a command is before those in it. Those of a here-document are after the
/// rest of its operator's line.
///
/// # Errors
///
/// `AllocError` if a growth was refused, which requires a script with an item.
pub fn commands(alloc: Global, script: &Script) -> Result<Vec<&Command>, AllocError>
    ensures same { IfOk result (λ found. IsPermutation (spec.commands_of script.now) (map (λ c. c.now) found.items)) }
    ensures ordered { IfOk result (λ found. IsNonDecreasingBy (λ c. (out-Command c.now).number) found.items) }
    ensures memory { OnErr result (0 < length (out-Script script.now).items) }
{
    let mut found = Vec::new(alloc);
    if script.items.is_empty() {
        return Ok(found);
    }
    add_script(script, &mut found)?;
    in_order(found)
}
