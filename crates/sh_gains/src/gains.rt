//! What words leave known (XCU 2.6.2, 2.6.4): an expansion that assigns, or one that ends the shell
//! if its parameter is not set.
ghost use Rattle.std.specs.Prelude.{◌≡◌, [], ◌∷◌, fold};
ghost use Rattle.sh_tree.specs.Lists.{parts_from, words_from, redirects_from};
ghost use Rattle.sh_tree.specs.standard.program.Trees.{target_of};
ghost use Rattle.sh_domain.specs.Gains.{named, sure, word_gains, words_gains, redirect_gains, redirects_gains};
ghost use Rattle.sh_gains.specs.Knowing.{gained, known_of};
ghost use Rattle.sh_gains.specs.Knowing as knowing;
ghost use Rattle.sh_gains.specs.Walks as walks;

use sh_domain::{Knowledge, Names};
use sh_tree::{
    Action, Binary, Expr, ParameterOperator, Part, Redirect, Special, Subject, Target, Word,
};

// The variable is set from here on.
#[tactic(auto, using(crate::proofs::KnowingLemmas::name_gained))]
fn gain_variable(name: &[u8], names: &Names, known: &mut Knowledge)
    ensures { known_of names.now known.new ≡ gained (named (name.now ∷ [])) (known_of names.now known.old) }
{
    known.gain(names, name);
}

// There are so many positional parameters from here on, at least.
#[tactic(auto, using(crate::proofs::KnowingLemmas::parameters_gained))]
fn gain_parameters(count: u16, names: &Names, known: &mut Knowledge)
    ensures { known_of names.now known.new ≡ gained (record { names = []; args = count }) (known_of names.now known.old) }
{
    known.gain_args(count);
}

#[tactic(auto, using(crate::proofs::GainLemmas::specials))]
fn gain_special(special: Special, names: &Names, known: &mut Knowledge)
    ensures { known_of names.now known.new ≡ walks.special_gained (known_of names.now known.old) special }
{
    match special {
        Special::Exclamation => gain_variable(b"!", names, known),
        Special::At => (),
        Special::Asterisk => (),
        Special::NumberSign => (),
        Special::QuestionMark => (),
        Special::Hyphen => (),
        Special::Dollar => (),
        Special::Zero => (),
    }
}

/// The parameter is set.
#[tactic(auto, using(crate::proofs::GainLemmas::subjects))]
pub fn gain_subject(subject: Subject, script: &[u8], names: &Names, known: &mut Knowledge)
    ensures { known_of names.now known.new ≡ walks.subject_gained script.now (known_of names.now known.old) subject }
{
    match subject {
        Subject::Name(span) => gain_variable(span.text(script), names, known),
        Subject::Positional(number, _) => gain_parameters(number, names, known),
        Subject::Special(special, _) => gain_special(special, names, known),
    }
}

/// What an expansion with an operator and a word leaves set.
#[tactic(auto, using(crate::proofs::GainLemmas::actions))]
pub fn gain_action(
    action: Action,
    subject: Subject,
    script: &[u8],
    names: &Names,
    known: &mut Knowledge,
)
    ensures { known_of names.now known.new ≡ walks.action_gained script.now (known_of names.now known.old) subject action }
{
    match action {
        Action::Default => (),
        Action::Assign => gain_subject(subject, script, names, known),
        Action::Fault => gain_subject(subject, script, names, known),
        Action::Alternative => (),
    }
}

/// If the word of `+` is expanded, its parameter is set.
#[tactic(auto, using(crate::proofs::GainLemmas::entered))]
pub fn enter_operator(
    action: Action,
    subject: Subject,
    script: &[u8],
    names: &Names,
    known: &mut Knowledge,
)
    ensures { known_of names.now known.new ≡ walks.inner_gained script.now (known_of names.now known.old) subject action }
{
    match action {
        Action::Default => (),
        Action::Assign => (),
        Action::Fault => (),
        Action::Alternative => gain_subject(subject, script, names, known),
    }
}

#[tactic(auto, using(crate::proofs::GainLemmas::operators))]
fn gain_operator(
    subject: Subject,
    operator: &ParameterOperator,
    script: &[u8],
    names: &Names,
    known: &mut Knowledge,
)
    ensures { known_of names.now known.new ≡ walks.operator_gained script.now (known_of names.now known.old) subject operator.now }
{
    match operator {
        ParameterOperator::Value => (),
        ParameterOperator::Length => (),
        ParameterOperator::Use { action, .. } => gain_action(
            *action, subject, script, names, known,
        ),
        ParameterOperator::Remove { .. } => (),
    }
}

/// Whether the shell may skip the operand after the operator.
#[tactic(auto, unfolding(crate::specs::Knowing::may_stop))]
fn may_stop(operator: Binary) -> bool
    ensures { result ≡ knowing.may_stop operator }
{
    matches!(operator, Binary::And | Binary::Or)
}

#[cycle(assigned)]
fn gain_steps(rest: &[(Binary, Expr)], script: &[u8], names: &Names, known: &mut Knowledge)
    ensures { known_of names.now known.new ≡ fold (walks.step_assigned script.now) (known_of names.now known.old) rest.now }
{
    for link in rest {
        gain_step(link.0, &link.1, script, names, known);
    }
}

#[cycle(assigned)]
#[tactic(auto, using(crate::proofs::GainLemmas::steps))]
fn gain_step(operator: Binary, operand: &Expr, script: &[u8], names: &Names, known: &mut Knowledge)
    ensures { known_of names.now known.new ≡ walks.step_assigned script.now (known_of names.now known.old) (operator, operand.now) }
{
    if !may_stop(operator) {
        gain_assigned(operand, script, names, known);
    }
}

/// The names that arithmetic is sure to assign are set.
#[cycle(assigned)]
#[tactic(auto, using(crate::proofs::GainLemmas::assigned))]
pub fn gain_assigned(expression: &Expr, script: &[u8], names: &Names, known: &mut Knowledge)
    ensures { known_of names.now known.new ≡ walks.expression_assigned script.now (known_of names.now known.old) expression.now }
{
    match expression {
        Expr::Constant(_) => (),
        Expr::Variable(_) => (),
        Expr::Expansion(_) => (),
        Expr::Parenthesis(inner) => gain_assigned(inner.get(), script, names, known),
        Expr::Unary { operand, .. } => gain_assigned(operand.get(), script, names, known),
        Expr::Chain { first, rest } => {
            gain_assigned(first.get(), script, names, known);
            gain_steps(rest.as_slice(), script, names, known);
        }
        Expr::Choice { condition, .. } => gain_assigned(condition.get(), script, names, known),
        Expr::Assign { name, value, .. } => {
            gain_variable(name.text(script), names, known);
            gain_assigned(value.get(), script, names, known);
        }
    }
}

#[cycle(gains)]
fn gain_parts(parts: &[Part], script: &[u8], names: &Names, known: &mut Knowledge)
    ensures { known_of names.now known.new ≡ fold (walks.part_gained script.now) (known_of names.now known.old) parts.now }
{
    for part in parts {
        gain_part(part, script, names, known);
    }
}

#[cycle(gains)]
#[tactic(auto, using(crate::proofs::GainLemmas::parts))]
fn gain_part(part: &Part, script: &[u8], names: &Names, known: &mut Knowledge)
    ensures { known_of names.now known.new ≡ walks.part_gained script.now (known_of names.now known.old) part.now }
{
    match part {
        Part::Double(_, parts) => gain_parts(parts.as_slice(), script, names, known),
        Part::Param(param) => gain_operator(param.subject, &param.operator, script, names, known),
        Part::Arith(_, expression) => {
            gain_expanded(expression.get(), script, names, known);
            gain_assigned(expression.get(), script, names, known);
        }
        Part::Plain(_) => (),
        Part::Escaped(_) => (),
        Part::Single(_, _) => (),
        Part::Command(_, _, _) => (),
        Part::Tilde(_) => (),
        Part::Joined(_) => (),
    }
}

#[cycle(gains)]
fn gain_operands(rest: &[(Binary, Expr)], script: &[u8], names: &Names, known: &mut Knowledge)
    ensures { known_of names.now known.new ≡ fold (walks.step_gained script.now) (known_of names.now known.old) rest.now }
{
    for link in rest {
        gain_expanded(&link.1, script, names, known);
    }
}

#[cycle(gains)]
#[tactic(auto, using(crate::proofs::GainLemmas::expressions))]
fn gain_expanded(expression: &Expr, script: &[u8], names: &Names, known: &mut Knowledge)
    ensures { known_of names.now known.new ≡ walks.expression_gained script.now (known_of names.now known.old) expression.now }
{
    match expression {
        Expr::Constant(_) => (),
        Expr::Variable(_) => (),
        Expr::Expansion(part) => gain_part(part, script, names, known),
        Expr::Parenthesis(inner) => gain_expanded(inner.get(), script, names, known),
        Expr::Unary { operand, .. } => gain_expanded(operand.get(), script, names, known),
        Expr::Chain { first, rest } => {
            gain_expanded(first.get(), script, names, known);
            gain_operands(rest.as_slice(), script, names, known);
        }
        Expr::Choice { condition, yes, no } => {
            gain_expanded(condition.get(), script, names, known);
            gain_expanded(yes.get(), script, names, known);
            gain_expanded(no.get(), script, names, known);
        }
        Expr::Assign { value, .. } => gain_expanded(value.get(), script, names, known),
    }
}

/// What is known after a word.
#[tactic(auto, using(crate::proofs::GainLemmas::parts_folded))]
pub fn gain_word(word: &Word, script: &[u8], names: &Names, known: &mut Knowledge)
    ensures { known_of names.now known.new ≡ gained (word_gains (parts_from script.now word.now.parts)) (known_of names.now known.old) }
{
    gain_parts(word.parts.as_slice(), script, names, known);
}

fn gain_each_word(words: &[Word], script: &[u8], names: &Names, known: &mut Knowledge)
    ensures { known_of names.now known.new ≡ fold (walks.word_gained script.now) (known_of names.now known.old) words.now }
{
    for word in words {
        gain_word(word, script, names, known);
    }
}

/// What is known after words, one after the other.
#[tactic(auto, using(crate::proofs::GainLemmas::words_folded))]
pub fn gain_words(words: &[Word], script: &[u8], names: &Names, known: &mut Knowledge)
    ensures { known_of names.now known.new ≡ gained (words_gains (words_from script.now words.now)) (known_of names.now known.old) }
{
    gain_each_word(words, script, names, known);
}

/// What is known after the word that a redirection opens, or the body of a here-document.
#[tactic(auto, using(crate::proofs::GainLemmas::targets))]
pub fn gain_target(target: &Target, script: &[u8], names: &Names, known: &mut Knowledge)
    ensures { known_of names.now known.new ≡ gained (redirect_gains (target_of script.now target.now)) (known_of names.now known.old) }
{
    match target {
        Target::File(_, word) => gain_word(word, script, names, known),
        Target::Here(here) => gain_word(&here.body, script, names, known),
    }
}

fn gain_each_redirect(redirects: &[Redirect], script: &[u8], names: &Names, known: &mut Knowledge)
    ensures { known_of names.now known.new ≡ fold (walks.redirect_gained script.now) (known_of names.now known.old) redirects.now }
{
    for redirect in redirects {
        gain_target(&redirect.target, script, names, known);
    }
}

/// What is known after redirections, one after the other.
#[tactic(auto, using(crate::proofs::GainLemmas::redirects_folded))]
pub fn gain_redirects(redirects: &[Redirect], script: &[u8], names: &Names, known: &mut Knowledge)
    ensures { known_of names.now known.new ≡ gained (redirects_gains (redirects_from script.now redirects.now)) (known_of names.now known.old) }
{
    gain_each_redirect(redirects, script, names, known);
}
