//! The sweep goes into words: each command is lowered where its substitution is expanded (XCU 2.6).
ghost use Rattle.std.specs.Prelude.{◌∷◌, ℕ, List, IfOk};
ghost use Rattle.sh_tree.specs.declared.tree.Element as tree;
ghost use Rattle.sh_tree.specs.Lists.{elements_from, for_words_from, operands_from, parts_from, redirects_from, words_from};
ghost use Rattle.sh_tree.specs.standard.program.Syntax as p;
ghost use Rattle.sh_tree.specs.standard.program.Trees.{expression_of, operator_of, parameter_of, part_of, script_of, target_of};
ghost use Rattle.sh_domain.specs.Entries.{elements_entered, expression_entered, for_words_entered, operand_seen, operands_entered, operator_entered, part_entered, patterns_entered, redirect_entered, redirects_entered, word_entered, words_entered};
ghost use Rattle.sh_domain.specs.Gains.{and_gains, assigned_in, expanded_gains, named, operands_gains, operator_gains, part_gains, redirect_gains, word_gains};
ghost use Rattle.sh_domain.specs.Knowledge.{knowledge_facts};
ghost use Rattle.sh_domain.specs.Table.{behind_words};
ghost use Rattle.sh_domain.specs.Views.{Before, at};
ghost use Rattle.sh_gains.specs.Knowing.{action_gains};
ghost use Rattle.sh_sweeps.specs.Sweeps.{AreElements, Gained, IsIn, IsPart, IsWord};
ghost use Rattle.sh_drafts.specs.Ready.{IsReady, IsSwept};

use crate::sweep::sweep_list;
use sh_domain::{FlowRule, Knowledge};
use sh_drafts::inner::{is_in_redirects, is_in_word};
use sh_drafts::{Draft, Subject};
use sh_rules::alone;
use sh_sweeps::known::{
    behind_action, behind_assigned, behind_operands, behind_word, operand_of, started_in,
};
use sh_sweeps::nowhere::before_if;
use sh_sweeps::texts::{goes_by_one, place_of_redirect, place_of_text};
use sh_sweeps::waits::{does_list_wait, may_wait_in};
use sh_tree::{
    Action, Binary, Element, Expr, Items, ParameterOperator, Part, Redirect, Script,
    Subject as Parameter, Target, Word,
};
use std::alloc::AllocError;

/// Lowers the certificate at the commands in the words of a simple command. Each word is expanded
/// after those before it, and values and redirections after all of them.
///
/// # Errors
///
/// If a growth was refused.
#[cycle(sweep)]
pub fn sweep_elements(
    subject: &Subject<'_>,
    draft: &mut Draft,
    levels: u32,
    known: &Knowledge,
    elements: &[Element],
) -> Result<(), AllocError>
    requires ready { IsReady subject.now draft.old.certificate draft.old.probe.count }
    requires placed { IsIn subject.now (λ q. elements_entered q (behind_words (elements_from subject.now.script.now elements.now) q) (elements_from subject.now.script.now elements.now)) (knowledge_facts subject.now.names.now known.now) }
    ensures swept { IfOk result (λ unit. IsSwept subject.now draft.old.certificate draft.new.certificate draft.new.probe.count) }
{
    let behind = behind_operands(subject, &draft.certificate, elements, known);
    let mut inside = *known;
    let mut place = 0;
    while place < elements.len() {
        let by_one = goes_by_one(&inside, &behind);
        let next = place_of_redirect(subject, &draft.waiting, by_one, elements, place);
        if next == elements.len() {
            return Ok(());
        }
        let element = &elements[next];
        sweep_element(subject, draft, levels, &mut inside, &behind, element)?;
        place = next + 1;
    }
    Ok(())
}

#[cycle(sweep)]
fn sweep_element(
    subject: &Subject<'_>,
    draft: &mut Draft,
    levels: u32,
    known: &mut Knowledge,
    behind: &Knowledge,
    element: &Element,
) -> Result<(), AllocError>
    requires ready { IsReady subject.now draft.old.certificate draft.old.probe.count }
    requires placed { (others : List tree.Element) × AreElements subject.now (knowledge_facts subject.now.names.now known.old) (knowledge_facts subject.now.names.now behind.now) (elements_from subject.now.script.now (element.now ∷ others)) }
    ensures swept { IfOk result (λ unit. IsSwept subject.now draft.old.certificate draft.new.certificate draft.new.probe.count) }
    ensures passed { IfOk result (λ unit. (others : List tree.Element)
        → AreElements subject.now (knowledge_facts subject.now.names.now known.old) (knowledge_facts subject.now.names.now behind.now) (elements_from subject.now.script.now (element.now ∷ others))
        → AreElements subject.now (knowledge_facts subject.now.names.now known.new) (knowledge_facts subject.now.names.now behind.now) (elements_from subject.now.script.now others)) }
{
    match element {
        Element::Assignment { value, .. } => sweep_word(subject, draft, levels, behind, value),
        Element::Word(word) => pass_word(subject, draft, levels, known, word),
        Element::Redirection(redirect) => {
            sweep_target(subject, draft, levels, behind, &redirect.target)
        }
    }
}

// Lowers the certificate at the commands in the word of a redirection.
#[cycle(sweep)]
fn sweep_target(
    subject: &Subject<'_>,
    draft: &mut Draft,
    levels: u32,
    known: &Knowledge,
    target: &Target,
) -> Result<(), AllocError>
    requires ready { IsReady subject.now draft.old.certificate draft.old.probe.count }
    requires placed { IsIn subject.now (λ q. redirect_entered q (target_of subject.now.script.now target.now)) (knowledge_facts subject.now.names.now known.now) }
    ensures swept { IfOk result (λ unit. IsSwept subject.now draft.old.certificate draft.new.certificate draft.new.probe.count) }
{
    let mut aside = *known;
    pass_target(subject, draft, levels, &mut aside, target)
}

/// Lowers the certificate at the commands in the redirections of a command: each is made after
/// those before it.
///
/// # Errors
///
/// If a growth was refused.
#[cycle(sweep)]
pub fn sweep_redirections(
    subject: &Subject<'_>,
    draft: &mut Draft,
    levels: u32,
    number: u32,
    redirects: &[Redirect],
    is_new: bool,
) -> Result<(), AllocError>
    requires ready { IsReady subject.now draft.old.certificate draft.old.probe.count }
    requires placed { IsPart subject.now (redirects_entered (at (Before number)) (redirects_from subject.now.script.now redirects.now)) }
    ensures swept { IfOk result (λ unit. IsSwept subject.now draft.old.certificate draft.new.certificate draft.new.probe.count) }
{
    if is_new && !is_in_redirects(redirects) {
        return Ok(());
    }
    let before = before_if(subject, &draft.certificate, number, is_new);
    sweep_redirects(subject, draft, levels, &before, redirects)
}

#[cycle(sweep)]
fn sweep_redirects(
    subject: &Subject<'_>,
    draft: &mut Draft,
    levels: u32,
    known: &Knowledge,
    redirects: &[Redirect],
) -> Result<(), AllocError>
    requires ready { IsReady subject.now draft.old.certificate draft.old.probe.count }
    requires placed { IsIn subject.now (λ q. redirects_entered q (redirects_from subject.now.script.now redirects.now)) (knowledge_facts subject.now.names.now known.now) }
    ensures swept { IfOk result (λ unit. IsSwept subject.now draft.old.certificate draft.new.certificate draft.new.probe.count) }
{
    let mut inside = *known;
    let mut place = 0;
    while place < redirects.len() {
        let by_one = inside.is_reached();
        let next = place_of_redirect(subject, &draft.waiting, by_one, redirects, place);
        if next == redirects.len() {
            return Ok(());
        }
        let redirect = &redirects[next];
        pass_target(subject, draft, levels, &mut inside, &redirect.target)?;
        place = next + 1;
    }
    Ok(())
}

#[cycle(sweep)]
fn pass_target(
    subject: &Subject<'_>,
    draft: &mut Draft,
    levels: u32,
    known: &mut Knowledge,
    target: &Target,
) -> Result<(), AllocError>
    requires ready { IsReady subject.now draft.old.certificate draft.old.probe.count }
    requires placed { IsIn subject.now (λ q. redirect_entered q (target_of subject.now.script.now target.now)) (knowledge_facts subject.now.names.now known.old) }
    ensures swept { IfOk result (λ unit. IsSwept subject.now draft.old.certificate draft.new.certificate draft.new.probe.count) }
    ensures gained { IfOk result (λ unit. Gained subject.now (redirect_gains (target_of subject.now.script.now target.now)) (knowledge_facts subject.now.names.now known.old) (knowledge_facts subject.now.names.now known.new)) }
{
    match target {
        Target::File(_, word) => pass_word(subject, draft, levels, known, word),
        Target::Here(here) => pass_word(subject, draft, levels, known, &here.body),
    }
}

/// Lowers the certificate at the commands in the words of `for`, if it has any.
///
/// # Errors
///
/// If a growth was refused.
#[cycle(sweep)]
pub fn sweep_for_words(
    subject: &Subject<'_>,
    draft: &mut Draft,
    levels: u32,
    known: &Knowledge,
    words: &Option<Items<Word>>,
) -> Result<(), AllocError>
    requires ready { IsReady subject.now draft.old.certificate draft.old.probe.count }
    requires placed { IsIn subject.now (λ q. for_words_entered q (for_words_from subject.now.script.now words.now)) (knowledge_facts subject.now.names.now known.now) }
    ensures swept { IfOk result (λ unit. IsSwept subject.now draft.old.certificate draft.new.certificate draft.new.probe.count) }
{
    match words {
        None => Ok(()),
        Some(words) => sweep_words(subject, draft, levels, known, words.as_slice()),
    }
}

#[cycle(sweep)]
fn sweep_words(
    subject: &Subject<'_>,
    draft: &mut Draft,
    levels: u32,
    known: &Knowledge,
    words: &[Word],
) -> Result<(), AllocError>
    requires ready { IsReady subject.now draft.old.certificate draft.old.probe.count }
    requires placed { IsIn subject.now (λ q. words_entered q (words_from subject.now.script.now words.now)) (knowledge_facts subject.now.names.now known.now) }
    ensures swept { IfOk result (λ unit. IsSwept subject.now draft.old.certificate draft.new.certificate draft.new.probe.count) }
{
    let mut inside = *known;
    let mut place = 0;
    while place < words.len() {
        let by_one = inside.is_reached();
        let next = place_of_text(subject, &draft.waiting, by_one, words, place);
        if next == words.len() {
            return Ok(());
        }
        pass_word(subject, draft, levels, &mut inside, &words[next])?;
        place = next + 1;
    }
    Ok(())
}

/// Lowers the certificate at the commands in the patterns of a clause, each by itself.
///
/// # Errors
///
/// If a growth was refused.
#[cycle(sweep)]
pub fn sweep_patterns(
    subject: &Subject<'_>,
    draft: &mut Draft,
    levels: u32,
    known: &Knowledge,
    patterns: &[Word],
) -> Result<(), AllocError>
    requires ready { IsReady subject.now draft.old.certificate draft.old.probe.count }
    requires placed { IsIn subject.now (λ q. patterns_entered q (words_from subject.now.script.now patterns.now)) (knowledge_facts subject.now.names.now known.now) }
    ensures swept { IfOk result (λ unit. IsSwept subject.now draft.old.certificate draft.new.certificate draft.new.probe.count) }
{
    let mut place = 0;
    while place < patterns.len() {
        let by_one = known.is_reached();
        let next = place_of_text(subject, &draft.waiting, by_one, patterns, place);
        if next == patterns.len() {
            return Ok(());
        }
        sweep_word(subject, draft, levels, known, &patterns[next])?;
        place = next + 1;
    }
    Ok(())
}

/// Lowers the certificate at the commands in a word, and goes on after it.
///
/// # Errors
///
/// If a growth was refused.
#[cycle(sweep)]
pub fn pass_word(
    subject: &Subject<'_>,
    draft: &mut Draft,
    levels: u32,
    known: &mut Knowledge,
    word: &Word,
) -> Result<(), AllocError>
    requires ready { IsReady subject.now draft.old.certificate draft.old.probe.count }
    requires placed { IsWord subject.now (knowledge_facts subject.now.names.now known.old) (parts_from subject.now.script.now word.now.parts) }
    ensures swept { IfOk result (λ unit. IsSwept subject.now draft.old.certificate draft.new.certificate draft.new.probe.count) }
    ensures gained { IfOk result (λ unit. Gained subject.now (word_gains (parts_from subject.now.script.now word.now.parts)) (knowledge_facts subject.now.names.now known.old) (knowledge_facts subject.now.names.now known.new)) }
{
    if !known.is_reached() && !may_wait_in(subject, &draft.waiting, word) {
        return Ok(());
    }
    sweep_word(subject, draft, levels, &*known, word)?;
    *known = behind_word(subject, &draft.certificate, word, &*known);
    Ok(())
}

#[cycle(sweep)]
fn sweep_word(
    subject: &Subject<'_>,
    draft: &mut Draft,
    levels: u32,
    known: &Knowledge,
    word: &Word,
) -> Result<(), AllocError>
    requires ready { IsReady subject.now draft.old.certificate draft.old.probe.count }
    requires placed { IsWord subject.now (knowledge_facts subject.now.names.now known.now) (parts_from subject.now.script.now word.now.parts) }
    ensures swept { IfOk result (λ unit. IsSwept subject.now draft.old.certificate draft.new.certificate draft.new.probe.count) }
{
    let may_go_in = if known.is_reached() {
        is_in_word(word)
    } else {
        may_wait_in(subject, &draft.waiting, word)
    };
    if !may_go_in {
        return Ok(());
    }
    let mut inside = *known;
    pass_parts(subject, draft, levels, &mut inside, word.parts.as_slice())
}

#[cycle(sweep)]
fn pass_parts(
    subject: &Subject<'_>,
    draft: &mut Draft,
    levels: u32,
    known: &mut Knowledge,
    parts: &[Part],
) -> Result<(), AllocError>
    requires ready { IsReady subject.now draft.old.certificate draft.old.probe.count }
    requires placed { IsWord subject.now (knowledge_facts subject.now.names.now known.old) (parts_from subject.now.script.now parts.now) }
    ensures swept { IfOk result (λ unit. IsSwept subject.now draft.old.certificate draft.new.certificate draft.new.probe.count) }
    ensures gained { IfOk result (λ unit. Gained subject.now (word_gains (parts_from subject.now.script.now parts.now)) (knowledge_facts subject.now.names.now known.old) (knowledge_facts subject.now.names.now known.new)) }
{
    let mut place = 0;
    while place < parts.len() {
        let is_known = known.is_reached();
        let next = place_of_text(subject, &draft.waiting, is_known, parts, place);
        if next == parts.len() {
            return Ok(());
        }
        pass_part(subject, draft, levels, known, &parts[next])?;
        place = next + 1;
    }
    Ok(())
}

#[cycle(sweep)]
fn pass_part(
    subject: &Subject<'_>,
    draft: &mut Draft,
    levels: u32,
    known: &mut Knowledge,
    part: &Part,
) -> Result<(), AllocError>
    requires ready { IsReady subject.now draft.old.certificate draft.old.probe.count }
    requires placed { IsIn subject.now (λ q. part_entered q (part_of subject.now.script.now part.now)) (knowledge_facts subject.now.names.now known.old) }
    ensures swept { IfOk result (λ unit. IsSwept subject.now draft.old.certificate draft.new.certificate draft.new.probe.count) }
    ensures gained { IfOk result (λ unit. Gained subject.now (part_gains (part_of subject.now.script.now part.now)) (knowledge_facts subject.now.names.now known.old) (knowledge_facts subject.now.names.now known.new)) }
{
    if levels == 0 {
        *known = Knowledge::NotReached;
        return Ok(());
    }
    open_part(subject, draft, levels - 1, known, part)
}

#[cycle(sweep)]
fn open_part(
    subject: &Subject<'_>,
    draft: &mut Draft,
    levels: u32,
    known: &mut Knowledge,
    part: &Part,
) -> Result<(), AllocError>
    requires ready { IsReady subject.now draft.old.certificate draft.old.probe.count }
    requires placed { IsIn subject.now (λ q. part_entered q (part_of subject.now.script.now part.now)) (knowledge_facts subject.now.names.now known.old) }
    ensures swept { IfOk result (λ unit. IsSwept subject.now draft.old.certificate draft.new.certificate draft.new.probe.count) }
    ensures gained { IfOk result (λ unit. Gained subject.now (part_gains (part_of subject.now.script.now part.now)) (knowledge_facts subject.now.names.now known.old) (knowledge_facts subject.now.names.now known.new)) }
{
    match part {
        Part::Plain(_) => Ok(()),
        Part::Escaped(_) => Ok(()),
        Part::Single(_, _) => Ok(()),
        Part::Tilde(_) => Ok(()),
        Part::Joined(_) => Ok(()),
        Part::Double(_, parts) => pass_parts(subject, draft, levels, known, parts.as_slice()),
        Part::Param(param) => {
            pass_operator(
                subject,
                draft,
                levels,
                known,
                param.subject,
                &param.operator,
            )
        }
        Part::Arith(_, expression) => {
            pass_arithmetic(subject, draft, levels, known, expression.get())
        }
        Part::Command(_, _, list) => sweep_substitution(subject, draft, levels, &*known, list),
    }
}

#[cycle(sweep)]
fn sweep_substitution(
    subject: &Subject<'_>,
    draft: &mut Draft,
    levels: u32,
    known: &Knowledge,
    list: &Script,
) -> Result<(), AllocError>
    requires ready { IsReady subject.now draft.old.certificate draft.old.probe.count }
    requires placed { (offset : ℕ) × IsIn subject.now (λ q. part_entered q (p.Substitution offset (script_of subject.now.script.now list.now))) (knowledge_facts subject.now.names.now known.now) }
    ensures swept { IfOk result (λ unit. IsSwept subject.now draft.old.certificate draft.new.certificate draft.new.probe.count) }
{
    if !known.is_reached() && !does_list_wait(subject, &draft.waiting, list) {
        return Ok(());
    }
    enter_substitution(subject, draft, levels, known, list)
}

#[cycle(sweep)]
fn enter_substitution(
    subject: &Subject<'_>,
    draft: &mut Draft,
    levels: u32,
    known: &Knowledge,
    list: &Script,
) -> Result<(), AllocError>
    requires ready { IsReady subject.now draft.old.certificate draft.old.probe.count }
    requires placed { (offset : ℕ) × IsIn subject.now (λ q. part_entered q (p.Substitution offset (script_of subject.now.script.now list.now))) (knowledge_facts subject.now.names.now known.now) }
    ensures swept { IfOk result (λ unit. IsSwept subject.now draft.old.certificate draft.new.certificate draft.new.probe.count) }
{
    let outside = alone();
    let seen = started_in(subject, &draft.certificate, known);
    let traces = draft.traces;
    sweep_list(subject, draft, levels, &outside, FlowRule::F11, &seen, list)?;
    draft.traces = traces;
    Ok(())
}

#[cycle(sweep)]
fn pass_operator(
    subject: &Subject<'_>,
    draft: &mut Draft,
    levels: u32,
    known: &mut Knowledge,
    parameter: Parameter,
    operator: &ParameterOperator,
) -> Result<(), AllocError>
    requires ready { IsReady subject.now draft.old.certificate draft.old.probe.count }
    requires placed { IsIn subject.now (λ q. operator_entered q (parameter_of subject.now.script.now parameter) (operator_of subject.now.script.now operator.now)) (knowledge_facts subject.now.names.now known.old) }
    ensures swept { IfOk result (λ unit. IsSwept subject.now draft.old.certificate draft.new.certificate draft.new.probe.count) }
    ensures gained { IfOk result (λ unit. Gained subject.now (operator_gains (parameter_of subject.now.script.now parameter) (operator_of subject.now.script.now operator.now)) (knowledge_facts subject.now.names.now known.old) (knowledge_facts subject.now.names.now known.new)) }
{
    match operator {
        ParameterOperator::Value => Ok(()),
        ParameterOperator::Length => Ok(()),
        ParameterOperator::Use { action, word, .. } => {
            pass_action(subject, draft, levels, known, parameter, *action, word)
        }
        ParameterOperator::Remove { pattern, .. } => {
            sweep_word(subject, draft, levels, &*known, pattern)
        }
    }
}

// The word is judged where it is expanded; after the expansion it is not counted.
#[cycle(sweep)]
fn pass_action(
    subject: &Subject<'_>,
    draft: &mut Draft,
    levels: u32,
    known: &mut Knowledge,
    parameter: Parameter,
    action: Action,
    word: &Word,
) -> Result<(), AllocError>
    requires ready { IsReady subject.now draft.old.certificate draft.old.probe.count }
    requires placed { IsIn subject.now (λ q. word_entered (operand_seen action (parameter_of subject.now.script.now parameter) q) (parts_from subject.now.script.now word.now.parts)) (knowledge_facts subject.now.names.now known.old) }
    ensures swept { IfOk result (λ unit. IsSwept subject.now draft.old.certificate draft.new.certificate draft.new.probe.count) }
    ensures gained { IfOk result (λ unit. Gained subject.now (action_gains (parameter_of subject.now.script.now parameter) action) (knowledge_facts subject.now.names.now known.old) (knowledge_facts subject.now.names.now known.new)) }
{
    let inside = operand_of(subject, &draft.certificate, parameter, action, &*known);
    sweep_word(subject, draft, levels, &inside, word)?;
    *known = behind_action(subject, &draft.certificate, parameter, action, &*known);
    Ok(())
}

// What is assigned is known after all expansions.
#[cycle(sweep)]
fn pass_arithmetic(
    subject: &Subject<'_>,
    draft: &mut Draft,
    levels: u32,
    known: &mut Knowledge,
    expression: &Expr,
) -> Result<(), AllocError>
    requires ready { IsReady subject.now draft.old.certificate draft.old.probe.count }
    requires placed { IsIn subject.now (λ q. expression_entered q (expression_of subject.now.script.now expression.now)) (knowledge_facts subject.now.names.now known.old) }
    ensures swept { IfOk result (λ unit. IsSwept subject.now draft.old.certificate draft.new.certificate draft.new.probe.count) }
    ensures gained { IfOk result (λ unit. Gained subject.now (and_gains (expanded_gains (expression_of subject.now.script.now expression.now)) (named (assigned_in (expression_of subject.now.script.now expression.now)))) (knowledge_facts subject.now.names.now known.old) (knowledge_facts subject.now.names.now known.new)) }
{
    pass_expression(subject, draft, levels, known, expression)?;
    *known = behind_assigned(subject, &draft.certificate, expression, &*known);
    Ok(())
}

#[cycle(sweep)]
fn pass_expression(
    subject: &Subject<'_>,
    draft: &mut Draft,
    levels: u32,
    known: &mut Knowledge,
    expression: &Expr,
) -> Result<(), AllocError>
    requires ready { IsReady subject.now draft.old.certificate draft.old.probe.count }
    requires placed { IsIn subject.now (λ q. expression_entered q (expression_of subject.now.script.now expression.now)) (knowledge_facts subject.now.names.now known.old) }
    ensures swept { IfOk result (λ unit. IsSwept subject.now draft.old.certificate draft.new.certificate draft.new.probe.count) }
    ensures gained { IfOk result (λ unit. Gained subject.now (expanded_gains (expression_of subject.now.script.now expression.now)) (knowledge_facts subject.now.names.now known.old) (knowledge_facts subject.now.names.now known.new)) }
{
    if levels == 0 {
        *known = Knowledge::NotReached;
        return Ok(());
    }
    open_expression(subject, draft, levels - 1, known, expression)
}

#[cycle(sweep)]
fn open_expression(
    subject: &Subject<'_>,
    draft: &mut Draft,
    levels: u32,
    known: &mut Knowledge,
    expression: &Expr,
) -> Result<(), AllocError>
    requires ready { IsReady subject.now draft.old.certificate draft.old.probe.count }
    requires placed { IsIn subject.now (λ q. expression_entered q (expression_of subject.now.script.now expression.now)) (knowledge_facts subject.now.names.now known.old) }
    ensures swept { IfOk result (λ unit. IsSwept subject.now draft.old.certificate draft.new.certificate draft.new.probe.count) }
    ensures gained { IfOk result (λ unit. Gained subject.now (expanded_gains (expression_of subject.now.script.now expression.now)) (knowledge_facts subject.now.names.now known.old) (knowledge_facts subject.now.names.now known.new)) }
{
    match expression {
        Expr::Constant(_) => Ok(()),
        Expr::Variable(_) => Ok(()),
        Expr::Expansion(part) => pass_part(subject, draft, levels, known, part),
        Expr::Parenthesis(inner) => pass_expression(subject, draft, levels, known, inner.get()),
        Expr::Unary { operand, .. } => {
            pass_expression(subject, draft, levels, known, operand.get())
        }
        Expr::Chain { first, rest } => {
            pass_chain(subject, draft, levels, known, first.get(), rest.as_slice())
        }
        Expr::Choice { condition, yes, no } => {
            pass_choice(
                subject,
                draft,
                levels,
                known,
                condition.get(),
                yes.get(),
                no.get(),
            )
        }
        Expr::Assign { value, .. } => pass_expression(subject, draft, levels, known, value.get()),
    }
}

#[cycle(sweep)]
fn pass_chain(
    subject: &Subject<'_>,
    draft: &mut Draft,
    levels: u32,
    known: &mut Knowledge,
    first: &Expr,
    rest: &[(Binary, Expr)],
) -> Result<(), AllocError>
    requires ready { IsReady subject.now draft.old.certificate draft.old.probe.count }
    requires placed { IsIn subject.now (λ q. expression_entered q (p.Chain (expression_of subject.now.script.now first.now) (operands_from subject.now.script.now rest.now))) (knowledge_facts subject.now.names.now known.old) }
    ensures swept { IfOk result (λ unit. IsSwept subject.now draft.old.certificate draft.new.certificate draft.new.probe.count) }
    ensures gained { IfOk result (λ unit. Gained subject.now (expanded_gains (p.Chain (expression_of subject.now.script.now first.now) (operands_from subject.now.script.now rest.now))) (knowledge_facts subject.now.names.now known.old) (knowledge_facts subject.now.names.now known.new)) }
{
    pass_expression(subject, draft, levels, known, first)?;
    pass_operands(subject, draft, levels, known, rest)?;
    Ok(())
}

#[cycle(sweep)]
fn pass_operands(
    subject: &Subject<'_>,
    draft: &mut Draft,
    levels: u32,
    known: &mut Knowledge,
    rest: &[(Binary, Expr)],
) -> Result<(), AllocError>
    requires ready { IsReady subject.now draft.old.certificate draft.old.probe.count }
    requires placed { IsIn subject.now (λ q. operands_entered q (operands_from subject.now.script.now rest.now)) (knowledge_facts subject.now.names.now known.old) }
    ensures swept { IfOk result (λ unit. IsSwept subject.now draft.old.certificate draft.new.certificate draft.new.probe.count) }
    ensures gained { IfOk result (λ unit. Gained subject.now (operands_gains (operands_from subject.now.script.now rest.now)) (knowledge_facts subject.now.names.now known.old) (knowledge_facts subject.now.names.now known.new)) }
{
    let mut place = 0;
    while place < rest.len() {
        let is_known = known.is_reached();
        let next = place_of_text(subject, &draft.waiting, is_known, rest, place);
        if next == rest.len() {
            return Ok(());
        }
        let link = &rest[next];
        pass_expression(subject, draft, levels, known, &link.1)?;
        place = next + 1;
    }
    Ok(())
}

#[cycle(sweep)]
fn pass_choice(
    subject: &Subject<'_>,
    draft: &mut Draft,
    levels: u32,
    known: &mut Knowledge,
    condition: &Expr,
    yes: &Expr,
    no: &Expr,
) -> Result<(), AllocError>
    requires ready { IsReady subject.now draft.old.certificate draft.old.probe.count }
    requires placed { IsIn subject.now (λ q. expression_entered q (p.Choice (expression_of subject.now.script.now condition.now) (expression_of subject.now.script.now yes.now) (expression_of subject.now.script.now no.now))) (knowledge_facts subject.now.names.now known.old) }
    ensures swept { IfOk result (λ unit. IsSwept subject.now draft.old.certificate draft.new.certificate draft.new.probe.count) }
    ensures gained { IfOk result (λ unit. Gained subject.now (expanded_gains (p.Choice (expression_of subject.now.script.now condition.now) (expression_of subject.now.script.now yes.now) (expression_of subject.now.script.now no.now))) (knowledge_facts subject.now.names.now known.old) (knowledge_facts subject.now.names.now known.new)) }
{
    pass_expression(subject, draft, levels, known, condition)?;
    pass_expression(subject, draft, levels, known, yes)?;
    pass_expression(subject, draft, levels, known, no)?;
    Ok(())
}
