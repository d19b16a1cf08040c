//! The parameters that words expand and that are not surely set, as their places (XCU 2.6.1, 2.6.2,
//! 2.6.4).
ghost use Rattle.std.specs.Prelude.{◌++◌, ◌∷◌, [], fold};
ghost use Rattle.sh_runs.specs.standard.runs.Numbers.{digits};
ghost use Rattle.sh_domain.specs.Needs.{wanted};
ghost use Rattle.sh_tree.specs.declared.place.Code.TheVariants.{U1};
ghost use Rattle.sh_tree.specs.standard.program.Syntax as p;
ghost use Rattle.sh_tree.specs.Lists.{parts_from};
ghost use Rattle.sh_demands.specs.Judged.{judged, word_judged};
ghost use Rattle.sh_demands.specs.Walks as walks;
ghost use Rattle.sh_gains.specs.Knowing.{knowing};
ghost use Rattle.sh_demands.specs.Reported.{Adds, Judges, place};

use crate::reports::Reports;
use sh_gains::Known;
use sh_gains::gains::{enter_operator, gain_action, gain_assigned};
use sh_tree::{Action, Binary, Code, Expr, ParameterOperator, Part, Span, Special, Subject, Word};

// A place, unless what it needs is known.
#[tactic(auto, unfolding(sh_domain::specs::Needs::wanted))]
fn want(is_known: bool, at: u32, code: Code, subject: &[u8], reports: &mut Reports)
    ensures { Adds reports.old reports.new (λ ps. ps ++ wanted is_known at code subject.now) }
{
    if !is_known {
        reports.report(at, code, subject);
    }
}

#[tactic(auto, unfolding(crate::specs::Walks::name_noted, sh_domain::specs::Needs::name_needed))]
fn want_variable(name: &[u8], code: Code, at: u32, known: &Known<'_>, reports: &mut Reports)
    ensures { Adds reports.old reports.new (λ ps. walks.name_noted (knowing known.now).facts code at name.now ps) }
{
    want(known.has_variable(name), at, code, name, reports)
}

// The place of a positional parameter, by its decimal numeral.
#[tactic(auto, using(crate::proofs::DigitLemmas::numeral))]
fn report_number(number: u16, at: u32, reports: &mut Reports)
    ensures { Adds reports.old reports.new (λ ps. ps ++ place at U1 (digits number) ∷ []) }
{
    match format!(in *reports.allocator(); "{number}") {
        Ok(numeral) => reports.report(at, Code::U1, numeral.as_bytes()),
        Err(_) => reports.report_lost(),
    }
}

// The place of a positional parameter, unless it is known.
#[tactic(auto, unfolding(sh_domain::specs::Needs::wanted))]
fn want_number(is_known: bool, number: u16, at: u32, reports: &mut Reports)
    ensures { Adds reports.old reports.new (λ ps. ps ++ wanted is_known at U1 (digits number)) }
{
    if !is_known {
        report_number(number, at, reports);
    }
}

#[tactic(auto, using(crate::proofs::NeedLemmas::positionals))]
fn want_positional(number: u16, at: u32, known: &Known<'_>, reports: &mut Reports)
    ensures { Adds reports.old reports.new (λ ps. walks.parameter_noted (knowing known.now).facts at (p.Positional number) ps) }
{
    want_number(known.has_parameters(number), number, at, reports)
}

#[tactic(auto, using(crate::proofs::NeedLemmas::specials))]
fn want_special(special: Special, at: u32, known: &Known<'_>, reports: &mut Reports)
    ensures { Adds reports.old reports.new (λ ps. walks.parameter_noted (knowing known.now).facts at (p.Special special) ps) }
{
    match special {
        Special::Exclamation => want_variable(b"!", Code::U1, at, known, reports),
        Special::At => (),
        Special::Asterisk => (),
        Special::NumberSign => (),
        Special::QuestionMark => (),
        Special::Hyphen => (),
        Special::Dollar => (),
        Special::Zero => (),
    }
}

#[tactic(auto, using(crate::proofs::NeedLemmas::parameters))]
fn want_subject(subject: Subject, at: u32, script: &[u8], known: &Known<'_>, reports: &mut Reports)
    ensures { Adds reports.old reports.new (λ ps. walks.subject_noted script.now (knowing known.now).facts at subject ps) }
{
    match subject {
        Subject::Name(span) => want_variable(span.text(script), Code::U1, at, known, reports),
        Subject::Positional(number, _) => want_positional(number, at, known, reports),
        Subject::Special(special, _) => want_special(special, at, known, reports),
    }
}

// `op=` reads the name at its left, and `=` does not.
#[tactic(auto, using(crate::proofs::NeedLemmas::assignments))]
fn want_assigned(
    operator: Option<Binary>,
    name: Span,
    script: &[u8],
    known: &Known<'_>,
    reports: &mut Reports,
)
    ensures { Adds reports.old reports.new (λ ps. walks.target_noted script.now (knowing known.now).facts operator name ps) }
{
    match operator {
        Some(_) => want_variable(name.text(script), Code::U3, name.start, known, reports),
        None => (),
    }
}

#[cycle(reads)]
fn want_steps(rest: &[(Binary, Expr)], script: &[u8], known: &Known<'_>, reports: &mut Reports)
    ensures { Adds reports.old reports.new (λ ps. fold (walks.step_noted script.now (knowing known.now).facts) ps rest.now) }
{
    for link in rest {
        want_reads(&link.1, script, known, reports);
    }
}

// The names that arithmetic reads.
#[cycle(reads)]
#[tactic(auto, using(crate::proofs::NeedLemmas::reads))]
fn want_reads(expression: &Expr, script: &[u8], known: &Known<'_>, reports: &mut Reports)
    ensures { Adds reports.old reports.new (λ ps. walks.reads_noted script.now (knowing known.now).facts ps expression.now) }
{
    match expression {
        Expr::Constant(_) => (),
        Expr::Variable(name) => {
            want_variable(name.text(script), Code::U3, name.start, known, reports)
        }
        Expr::Expansion(_) => (),
        Expr::Parenthesis(inner) => want_reads(inner.get(), script, known, reports),
        Expr::Unary { operand, .. } => want_reads(operand.get(), script, known, reports),
        Expr::Chain { first, rest } => {
            want_reads(first.get(), script, known, reports);
            want_steps(rest.as_slice(), script, known, reports)
        }
        Expr::Choice { condition, yes, no } => {
            want_reads(condition.get(), script, known, reports);
            want_reads(yes.get(), script, known, reports);
            want_reads(no.get(), script, known, reports)
        }
        Expr::Assign {
            name,
            operator,
            value,
        } => {
            want_assigned(*operator, *name, script, known, reports);
            want_reads(value.get(), script, known, reports)
        }
    }
}

#[cycle(judge)]
fn judge_parts(parts: &[Part], script: &[u8], known: &mut Known<'_>, reports: &mut Reports)
    ensures { Judges (knowing known.old) reports.old (knowing known.new) reports.new (λ s. fold (walks.part_step script.now) s parts.now) }
{
    for part in parts {
        judge_part(part, script, known, reports);
    }
}

#[cycle(judge)]
#[tactic(auto, using(crate::proofs::JudgeLemmas::parts))]
fn judge_part(part: &Part, script: &[u8], known: &mut Known<'_>, reports: &mut Reports)
    ensures { Judges (knowing known.old) reports.old (knowing known.new) reports.new (λ s. walks.part_step script.now s part.now) }
{
    match part {
        Part::Double(_, parts) => judge_parts(parts.as_slice(), script, known, reports),
        Part::Param(param) => judge_operator(
            param.span.start,
            param.subject,
            &param.operator,
            script,
            known,
            reports,
        ),
        Part::Arith(_, expression) => {
            judge_expanded(expression.get(), script, known, reports);
            want_reads(expression.get(), script, &*known, reports);
            gain_assigned(expression.get(), script, known.names, &mut known.knowledge);
        }
        Part::Tilde(span) => judge_tilde(*span, script, &*known, reports),
        Part::Plain(_) => (),
        Part::Escaped(_) => (),
        Part::Single(_, _) => (),
        Part::Command(_, _, _) => (),
        Part::Joined(_) => (),
    }
}

// A tilde without a login name is HOME.
#[tactic(auto, using(crate::proofs::JudgeLemmas::tildes))]
fn judge_tilde(span: Span, script: &[u8], known: &Known<'_>, reports: &mut Reports)
    ensures { Adds reports.old reports.new (λ ps. walks.tilde_noted script.now (knowing known.now).facts span ps) }
{
    if span.text(script).len() < 2 {
        want_variable(b"HOME", Code::U2, span.start, known, reports);
    }
}

#[cycle(judge)]
#[tactic(auto, using(crate::proofs::JudgeLemmas::operators))]
fn judge_operator(
    at: u32,
    subject: Subject,
    operator: &ParameterOperator,
    script: &[u8],
    known: &mut Known<'_>,
    reports: &mut Reports,
)
    ensures { Judges (knowing known.old) reports.old (knowing known.new) reports.new (λ s. walks.operator_step script.now s at subject operator.now) }
{
    match operator {
        ParameterOperator::Value => want_subject(subject, at, script, &*known, reports),
        ParameterOperator::Length => want_subject(subject, at, script, &*known, reports),
        ParameterOperator::Remove { pattern, .. } => {
            want_subject(subject, at, script, &*known, reports);
            judge_aside(pattern, script, *known, reports)
        }
        ParameterOperator::Use { action, word, .. } => {
            let mut inside = *known;
            enter_operator(
                *action,
                subject,
                script,
                inside.names,
                &mut inside.knowledge,
            );
            judge_aside(word, script, inside, reports);
            gain_action(*action, subject, script, known.names, &mut known.knowledge);
        }
    }
}

// A word after an operator: what it would set is not counted.
#[cycle(judge)]
fn judge_aside(word: &Word, script: &[u8], known: Known<'_>, reports: &mut Reports)
    ensures { Adds reports.old reports.new (λ ps. (fold (walks.part_step script.now) (judged (knowing known.entry) ps) word.now.parts).places) }
{
    let mut inside = known;
    judge_parts(word.parts.as_slice(), script, &mut inside, reports)
}

#[cycle(judge)]
fn judge_operands(
    rest: &[(Binary, Expr)],
    script: &[u8],
    known: &mut Known<'_>,
    reports: &mut Reports,
)
    ensures { Judges (knowing known.old) reports.old (knowing known.new) reports.new (λ s. fold (walks.operand_step script.now) s rest.now) }
{
    for link in rest {
        judge_expanded(&link.1, script, known, reports);
    }
}

// The expansions in arithmetic.
#[cycle(judge)]
#[tactic(auto, using(crate::proofs::JudgeLemmas::expressions))]
fn judge_expanded(expression: &Expr, script: &[u8], known: &mut Known<'_>, reports: &mut Reports)
    ensures { Judges (knowing known.old) reports.old (knowing known.new) reports.new (λ s. walks.expression_step script.now s expression.now) }
{
    match expression {
        Expr::Constant(_) => (),
        Expr::Variable(_) => (),
        Expr::Expansion(part) => judge_part(part, script, known, reports),
        Expr::Parenthesis(inner) => judge_expanded(inner.get(), script, known, reports),
        Expr::Unary { operand, .. } => judge_expanded(operand.get(), script, known, reports),
        Expr::Chain { first, rest } => {
            judge_expanded(first.get(), script, known, reports);
            judge_operands(rest.as_slice(), script, known, reports)
        }
        Expr::Choice { condition, yes, no } => {
            judge_expanded(condition.get(), script, known, reports);
            judge_expanded(yes.get(), script, known, reports);
            judge_expanded(no.get(), script, known, reports)
        }
        Expr::Assign { value, .. } => judge_expanded(value.get(), script, known, reports),
    }
}

/// The places in a word whose parameter is not surely set, and what is known after it.
#[tactic(auto, using(crate::proofs::JudgeLemmas::word_folded))]
pub fn judge_word(word: &Word, script: &[u8], known: &mut Known<'_>, reports: &mut Reports)
    ensures { Judges (knowing known.old) reports.old (knowing known.new) reports.new (λ s. word_judged s (parts_from script.now word.now.parts)) }
{
    judge_parts(word.parts.as_slice(), script, known, reports)
}
