//! What is looked for in words. The commands in their substitutions are commands of their own.
ghost use Rattle.std.specs.Prelude.{◌≡◌, ℕ, List, false};
ghost use Rattle.std.specs.List.{list_any};
ghost use Rattle.sh_tree.specs.standard.Tree.{text_of};
ghost use Rattle.sh_tree.specs.Lists.{parts_from};
ghost use Rattle.sh_runs.specs.Quoting.{is_ifs};
ghost use Rattle.sh_operands.specs.Looks as spec;

use sh_tree::{Action, Binary, Expr, Param, ParameterOperator, Part, Span, Special, Subject, Word};

/// What is looked for.
#[derive(Clone, Copy, Debug, PartialEq, Eq)]
pub enum Look {
    /// An assignment to IFS: `${IFS=word}`, and in arithmetic.
    SetsIfs,
    /// `$@`
    At,
    /// All positional parameters: `$@`, or `$*` outside quotes.
    Parameters,
}

/// Whether the text is `IFS`.
pub fn is_ifs(text: &[u8]) -> bool
    ensures { result ≡ is_ifs text.now }
{
    text == b"IFS".as_slice()
}

fn is_ifs_at(name: Span, script: &[u8]) -> bool
    ensures { result ≡ is_ifs (text_of script.now name) }
{
    is_ifs(name.text(script))
}

#[tactic(auto, unfolding(crate::specs::Looks::at_name))]
fn name_is(look: Look, name: Span, script: &[u8]) -> bool
    ensures { result ≡ spec.at_name look (text_of script.now name) }
{
    match look {
        Look::SetsIfs => is_ifs_at(name, script),
        Look::At => false,
        Look::Parameters => false,
    }
}

#[tactic(auto, unfolding(crate::specs::Looks::subject_is_ifs, crate::specs::Looks::is_variable_ifs, sh_tree::specs::standard::program::Trees::parameter_of))]
fn subject_is_ifs(subject: Subject, script: &[u8]) -> bool
    ensures { result ≡ spec.subject_is_ifs script.now subject }
{
    match subject {
        Subject::Name(name) => is_ifs_at(name, script),
        Subject::Positional(_, _) => false,
        Subject::Special(_, _) => false,
    }
}

// `$@`, or `$*` outside quotes.
#[tactic(auto, unfolding(crate::specs::Looks::special_is_all))]
fn special_is_all(quoted: bool, special: Special) -> bool
    ensures { result ≡ spec.special_is_all quoted special }
{
    match special {
        Special::At => true,
        Special::Asterisk => !quoted,
        Special::NumberSign => false,
        Special::QuestionMark => false,
        Special::Hyphen => false,
        Special::Dollar => false,
        Special::Exclamation => false,
        Special::Zero => false,
    }
}

/// Whether the parameter is all positional parameters: `$@`, or `$*` outside quotes (XCU 2.5.2).
#[tactic(auto, unfolding(crate::specs::Looks::subject_is_all))]
pub fn subject_is_all(quoted: bool, subject: Subject) -> bool
    ensures { result ≡ spec.subject_is_all quoted subject }
{
    match subject {
        Subject::Name(_) => false,
        Subject::Positional(_, _) => false,
        Subject::Special(special, _) => special_is_all(quoted, special),
    }
}

#[tactic(auto, unfolding(crate::specs::Looks::is_assign))]
fn is_assign(action: Action) -> bool
    ensures { result ≡ spec.is_assign action }
{
    match action {
        Action::Assign => true,
        Action::Default => false,
        Action::Fault => false,
        Action::Alternative => false,
    }
}

#[tactic(auto, using(crate::proofs::LookLemmas::assigning))]
fn assigns(operator: &ParameterOperator) -> bool
    ensures { (b : List ℕ) → result ≡ spec.assigns b operator.now }
{
    match operator {
        ParameterOperator::Use { action, .. } => is_assign(*action),
        ParameterOperator::Value => false,
        ParameterOperator::Length => false,
        ParameterOperator::Remove { .. } => false,
    }
}

#[tactic(auto, unfolding(crate::specs::Looks::at_expansion))]
fn expansion_is(look: Look, quoted: bool, param: &Param, script: &[u8]) -> bool
    ensures { result ≡ spec.at_expansion look quoted script.now param.now.subject param.now.operator }
{
    match look {
        Look::SetsIfs => assigns(&param.operator) && subject_is_ifs(param.subject, script),
        Look::At => subject_is_all(true, param.subject),
        Look::Parameters => subject_is_all(quoted, param.subject),
    }
}

/// Whether a word has it, in its quotations, in the words of its expansions, or in arithmetic.
#[tactic(auto, using(crate::proofs::LookLemmas::parts_listed))]
pub fn word_has(look: Look, word: &Word, script: &[u8]) -> bool
    ensures { result ≡ spec.in_word look false (parts_from script.now word.now.parts) }
{
    parts_have(look, false, word.parts.as_slice(), script)
}

#[cycle(look)]
fn parts_have(look: Look, quoted: bool, parts: &[Part], script: &[u8]) -> bool
    ensures { result ≡ spec.has_in_parts look quoted script.now parts.now }
{
    for part in parts {
        if part_has(look, quoted, part, script) {
            return true;
        }
    }
    false
}

#[cycle(look)]
#[tactic(auto, using(crate::proofs::LookLemmas::parts))]
fn part_has(look: Look, quoted: bool, part: &Part, script: &[u8]) -> bool
    ensures { result ≡ spec.has_in_part look quoted script.now part.now }
{
    match part {
        Part::Double(_, parts) => parts_have(look, true, parts.as_slice(), script),
        Part::Param(param) => {
            expansion_is(look, quoted, param, script)
                || operator_has(look, quoted, &param.operator, script)
        }
        Part::Arith(_, expression) => expression_has(look, expression.get(), script),
        Part::Plain(_) => false,
        Part::Escaped(_) => false,
        Part::Single(_, _) => false,
        Part::Command(_, _, _) => false,
        Part::Tilde(_) => false,
        Part::Joined(_) => false,
    }
}

#[cycle(look)]
#[tactic(auto, using(crate::proofs::LookLemmas::operators))]
fn operator_has(look: Look, quoted: bool, operator: &ParameterOperator, script: &[u8]) -> bool
    ensures { result ≡ spec.has_in_operator look quoted script.now operator.now }
{
    match operator {
        ParameterOperator::Value => false,
        ParameterOperator::Length => false,
        ParameterOperator::Use { word, .. } => parts_have(
            look,
            quoted,
            word.parts.as_slice(),
            script,
        ),
        ParameterOperator::Remove { pattern, .. } => {
            parts_have(look, false, pattern.parts.as_slice(), script)
        }
    }
}

#[cycle(look)]
fn chain_has(look: Look, rest: &[(Binary, Expr)], script: &[u8]) -> bool
    ensures { result ≡ list_any (spec.has_in_step look script.now) rest.now }
{
    for link in rest {
        if expression_has(look, &link.1, script) {
            return true;
        }
    }
    false
}

#[cycle(look)]
#[tactic(auto, using(crate::proofs::LookLemmas::expressions))]
fn expression_has(look: Look, expression: &Expr, script: &[u8]) -> bool
    ensures { result ≡ spec.has_in_expression look script.now expression.now }
{
    match expression {
        Expr::Constant(_) => false,
        Expr::Variable(_) => false,
        Expr::Expansion(part) => part_has(look, true, part, script),
        Expr::Parenthesis(inner) => expression_has(look, inner.get(), script),
        Expr::Unary { operand, .. } => expression_has(look, operand.get(), script),
        Expr::Chain { first, rest } => {
            expression_has(look, first.get(), script) || chain_has(look, rest.as_slice(), script)
        }
        Expr::Choice { condition, yes, no } => {
            expression_has(look, condition.get(), script)
                || expression_has(look, yes.get(), script)
                || expression_has(look, no.get(), script)
        }
        Expr::Assign { name, value, .. } => {
            name_is(look, *name, script) || expression_has(look, value.get(), script)
        }
    }
}
