//! Whether commands are in words. The search passes over words without any.
ghost use Rattle.std.specs.Prelude.{◌≡◌, ℕ, List};
ghost use Rattle.std.specs.List.{list_any};
ghost use Rattle.sh_tree.specs.Lists.{elements_from, parts_from, redirects_from};
ghost use Rattle.sh_drafts.specs.Inner as spec;

use sh_tree::{Binary, Element, Expr, ParameterOperator, Part, Redirect, Target, Word};

#[cycle(has)]
#[tactic(auto, using(crate::proofs::InnerLemmas::parts))]
fn part_has(part: &Part) -> bool
    ensures { (b : List ℕ) → result ≡ spec.part_has b part.now }
{
    match part {
        Part::Double(_, parts) => parts_have(parts.as_slice()),
        Part::Param(param) => operator_has(&param.operator),
        Part::Arith(_, expression) => expression_has(expression.get()),
        Part::Command(_, _, _) => true,
        Part::Plain(_) => false,
        Part::Escaped(_) => false,
        Part::Single(_, _) => false,
        Part::Tilde(_) => false,
        Part::Joined(_) => false,
    }
}

#[cycle(has)]
fn parts_have(parts: &[Part]) -> bool
    ensures { (b : List ℕ) → result ≡ list_any (spec.part_has b) parts.now }
{
    for part in parts {
        if part_has(part) {
            return true;
        }
    }
    false
}

#[cycle(has)]
#[tactic(auto, using(crate::proofs::InnerLemmas::operators))]
fn operator_has(operator: &ParameterOperator) -> bool
    ensures { (b : List ℕ) → result ≡ spec.operator_has b operator.now }
{
    match operator {
        ParameterOperator::Value => false,
        ParameterOperator::Length => false,
        ParameterOperator::Use { word, .. } => parts_have(word.parts.as_slice()),
        ParameterOperator::Remove { pattern, .. } => parts_have(pattern.parts.as_slice()),
    }
}

#[cycle(has)]
#[tactic(auto, using(crate::proofs::InnerLemmas::expressions))]
fn expression_has(expression: &Expr) -> bool
    ensures { (b : List ℕ) → result ≡ spec.expression_has b expression.now }
{
    match expression {
        Expr::Constant(_) => false,
        Expr::Variable(_) => false,
        Expr::Expansion(part) => part_has(part),
        Expr::Parenthesis(inner) => expression_has(inner.get()),
        Expr::Unary { operand, .. } => expression_has(operand.get()),
        Expr::Chain { first, rest } => expression_has(first.get()) || chain_has(rest.as_slice()),
        Expr::Choice { condition, yes, no } => {
            expression_has(condition.get()) || expression_has(yes.get()) || expression_has(no.get())
        }
        Expr::Assign { value, .. } => expression_has(value.get()),
    }
}

#[cycle(has)]
fn chain_has(rest: &[(Binary, Expr)]) -> bool
    ensures { (b : List ℕ) → result ≡ list_any (spec.step_has b) rest.now }
{
    for link in rest {
        if expression_has(&link.1) {
            return true;
        }
    }
    false
}

/// Whether a command substitution is in a word, or in a word or an expression in it (XCU 2.6.3).
#[tactic(auto, using(crate::proofs::InnerLemmas::word_listed))]
pub fn is_in_word(word: &Word) -> bool
    ensures { (b : List ℕ) → result ≡ spec.word_substitutes (parts_from b word.now.parts) }
{
    parts_have(word.parts.as_slice())
}

#[tactic(auto, using(crate::proofs::InnerLemmas::targets))]
fn is_in_target(target: &Target) -> bool
    ensures { (b : List ℕ) → result ≡ spec.target_has b target.now }
{
    match target {
        Target::File(_, word) => is_in_word(word),
        Target::Here(document) => is_in_word(&document.body),
    }
}

fn is_in_redirect(redirect: &Redirect) -> bool
    ensures { (b : List ℕ) → result ≡ spec.target_has b redirect.now.target }
{
    is_in_target(&redirect.target)
}

#[tactic(auto, using(crate::proofs::InnerLemmas::elements))]
fn is_in_element(element: &Element) -> bool
    ensures { (b : List ℕ) → result ≡ spec.element_has b element.now }
{
    match element {
        Element::Assignment { value, .. } => is_in_word(value),
        Element::Word(word) => is_in_word(word),
        Element::Redirection(redirect) => is_in_redirect(redirect),
    }
}

fn redirects_have(redirects: &[Redirect]) -> bool
    ensures { (b : List ℕ) → result ≡ list_any (λ r. spec.target_has b r.target) redirects.now }
{
    for redirect in redirects {
        if is_in_redirect(redirect) {
            return true;
        }
    }
    false
}

fn elements_have(elements: &[Element]) -> bool
    ensures { (b : List ℕ) → result ≡ list_any (spec.element_has b) elements.now }
{
    for element in elements {
        if is_in_element(element) {
            return true;
        }
    }
    false
}

/// Whether one is in the words of redirections, or in the bodies of here-documents (XCU 2.7).
#[tactic(auto, using(crate::proofs::InnerLemmas::redirects_listed))]
pub fn is_in_redirects(redirects: &[Redirect]) -> bool
    ensures { (b : List ℕ) → result ≡ spec.redirects_substitute (redirects_from b redirects.now) }
{
    redirects_have(redirects)
}

/// Whether one is in the words of a simple command.
#[tactic(auto, using(crate::proofs::InnerLemmas::elements_listed))]
pub fn is_in_elements(elements: &[Element]) -> bool
    ensures { (b : List ℕ) → result ≡ spec.elements_substitute (elements_from b elements.now) }
{
    elements_have(elements)
}
