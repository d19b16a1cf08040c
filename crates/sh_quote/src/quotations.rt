//! Quotations, and the parts of a word whose values are not split (XCU 2.2, 2.6.5).
ghost use Rattle.std.specs.Prelude.{◌≡◌, ◌||◌, ◌&&◌, ℕ, List, not};
ghost use Rattle.std.specs.List.{list_all};
ghost use Rattle.sh_tree.specs.standard.language.Parts.{is_quotation};
ghost use Rattle.sh_quote.specs.Quotations as spec;

use sh_tree::{ParameterOperator, Part, Special, Subject};

/// Whether each part is a quotation: a backslash with its byte, single quotes or double quotes.
pub fn are_quotations(parts: &[Part]) -> bool
    ensures { result ≡ list_all is_quotation parts.now }
{
    parts.iter().all(|part| part.is_quotation())
}

#[tactic(auto, unfolding(crate::specs::Quotations::are_some_quotes))]
fn are_some_quotations(parts: &[Part]) -> bool
    ensures { result ≡ spec.are_some_quotes parts.now }
{
    match parts {
        [] => false,
        _ => are_quotations(parts),
    }
}

#[tactic(auto, using(crate::proofs::QuotationLemmas::alternatives))]
fn is_quoted_alternative(operator: &ParameterOperator) -> bool
    ensures { (b : List ℕ) → result ≡ spec.quoted_alternative b operator.now }
{
    match operator {
        ParameterOperator::Use { action, word, .. } => {
            action.is_alternative() && are_some_quotations(word.parts.as_slice())
        }
        ParameterOperator::Value => false,
        ParameterOperator::Length => false,
        ParameterOperator::Remove { .. } => false,
    }
}

#[tactic(auto, unfolding(sh_runs::specs::Quoting::is_numeric))]
fn is_numeric(special: Special) -> bool
    ensures { result ≡ spec.is_numeric special }
{
    match special {
        Special::NumberSign => true,
        Special::QuestionMark => true,
        Special::Dollar => true,
        Special::Exclamation => true,
        Special::At => false,
        Special::Asterisk => false,
        Special::Hyphen => false,
        Special::Zero => false,
    }
}

#[tactic(auto, unfolding(crate::specs::Quotations::subject_is_numeric))]
fn subject_is_numeric(subject: Subject) -> bool
    ensures { result ≡ spec.subject_is_numeric subject }
{
    match subject {
        Subject::Special(special, _) => is_numeric(special),
        Subject::Name(_) => false,
        Subject::Positional(_, _) => false,
    }
}

#[tactic(auto, using(crate::proofs::QuotationLemmas::numbers))]
fn gives_number(subject: Subject, operator: &ParameterOperator) -> bool
    ensures { (b : List ℕ) → result ≡ spec.number_given b subject operator.now }
{
    match operator {
        ParameterOperator::Value => subject_is_numeric(subject),
        ParameterOperator::Length => true,
        ParameterOperator::Use { .. } => false,
        ParameterOperator::Remove { .. } => false,
    }
}

#[tactic(auto, unfolding(crate::specs::Quotations::told, crate::specs::Places::told_at))]
fn at_unless(whole: bool, at: u32) -> Option<u32>
    ensures { spec.told result ≡ spec.told_at whole at }
{
    if whole { None } else { Some(at) }
}

/// The offset at which a part outside quotes is reported, if it is.
#[tactic(auto, using(crate::proofs::QuotationLemmas::told_parts))]
pub fn reported_at(part: &Part, are_numbers_whole: bool) -> Option<u32>
    ensures { (b : List ℕ) → spec.told result ≡ spec.part_told b are_numbers_whole part.now }
{
    match part {
        Part::Param(param) => {
            let number = are_numbers_whole && gives_number(param.subject, &param.operator);
            at_unless(
                number || is_quoted_alternative(&param.operator),
                param.span.start,
            )
        }
        Part::Arith(span, _) => at_unless(are_numbers_whole, span.start),
        Part::Command(_, span, _) => Some(span.start),
        Part::Plain(_) => None,
        Part::Escaped(_) => None,
        Part::Single(_, _) => None,
        Part::Double(_, _) => None,
        Part::Tilde(_) => None,
        Part::Joined(_) => None,
    }
}
