//! How many fields the operands of a simple command give at least (XCU 2.5.2, 2.6.2, 2.6.5).
ghost use Rattle.std.specs.Prelude.{◌≡◌, ℕ, List, drop, false, fold};
ghost use Rattle.std.specs.List.{list_any};
ghost use Rattle.sh_tree.specs.Lists.{parts_from, elements_from};
ghost use Rattle.sh_tree.specs.standard.program.Words.{words_in, operands_in};
ghost use Rattle.sh_runs.specs.Counts.{count_of, is_parameters, some_gives_field};
ghost use Rattle.sh_table.specs.WordTexts.{lone_part};
ghost use Rattle.sh_operands.specs.Fields as spec;

use crate::looks::{Look, subject_is_all, word_has};
use sh_table::lone_part;
use sh_tree::{Action, Element, ParameterOperator, Part, Word};

/// How many fields words give at least: so many, and as many as there are positional parameters for
/// each `"$@"` that is alone. Up to 4,294,967,295 are counted.
#[derive(Clone, Copy, Debug, PartialEq, Eq)]
pub struct Total {
    pub ones: u32,
    pub parameters: u32,
}

// Parts that give a field

#[tactic(auto, unfolding(crate::specs::Fields::action_gives))]
fn action_gives(action: Action) -> bool
    ensures { result ≡ spec.action_gives action }
{
    match action {
        Action::Default => false,
        Action::Assign => true,
        Action::Fault => true,
        Action::Alternative => false,
    }
}

// Whether an expansion with this operator gives a field of its own.
#[tactic(auto, using(crate::proofs::FieldLemmas::giving_operators))]
fn operator_gives(operator: &ParameterOperator) -> bool
    ensures { (b : List ℕ) → result ≡ spec.operator_gives b operator.now }
{
    match operator {
        ParameterOperator::Value => true,
        ParameterOperator::Length => true,
        ParameterOperator::Use { action, .. } => action_gives(*action),
        ParameterOperator::Remove { .. } => true,
    }
}

#[tactic(auto, using(crate::proofs::FieldLemmas::giving_parts))]
fn part_gives(part: &Part, script: &[u8]) -> bool
    ensures { result ≡ spec.part_gives script.now part.now }
{
    match part {
        Part::Plain(span) => !span.text(script).is_empty(),
        Part::Param(param) => operator_gives(&param.operator),
        Part::Joined(_) => false,
        Part::Double(_, _) => true,
        Part::Arith(_, _) => true,
        Part::Escaped(_) => true,
        Part::Single(_, _) => true,
        Part::Command(_, _, _) => true,
        Part::Tilde(_) => true,
    }
}

fn some_part_gives(parts: &[Part], script: &[u8]) -> bool
    ensures { result ≡ list_any (spec.part_gives script.now) parts.now }
{
    parts.iter().any(|part| part_gives(part, script))
}

#[tactic(auto, using(crate::proofs::FieldLemmas::some_listed))]
fn some_gives_field(word: &Word, script: &[u8]) -> bool
    ensures { result ≡ some_gives_field (parts_from script.now word.now.parts) }
{
    some_part_gives(word.parts.as_slice(), script)
}

// `"$@"` alone

#[tactic(auto, unfolding(crate::specs::Fields::is_value))]
fn is_value(operator: &ParameterOperator) -> bool
    ensures { result ≡ spec.is_value operator.now }
{
    match operator {
        ParameterOperator::Value => true,
        ParameterOperator::Length => false,
        ParameterOperator::Use { .. } => false,
        ParameterOperator::Remove { .. } => false,
    }
}

#[tactic(auto, unfolding(crate::specs::Fields::is_at))]
fn is_at(part: &Part) -> bool
    ensures { result ≡ spec.is_at part.now }
{
    match part {
        Part::Param(param) => { subject_is_all(true, param.subject) && is_value(&param.operator) }
        Part::Double(_, _) => false,
        Part::Arith(_, _) => false,
        Part::Plain(_) => false,
        Part::Escaped(_) => false,
        Part::Single(_, _) => false,
        Part::Command(_, _, _) => false,
        Part::Tilde(_) => false,
        Part::Joined(_) => false,
    }
}

#[tactic(auto, unfolding(crate::specs::Fields::are_at))]
fn are_at(parts: &[Part]) -> bool
    ensures { result ≡ spec.are_at (lone_part parts.now) }
{
    match lone_part(parts) {
        Some(part) => is_at(part),
        None => false,
    }
}

#[tactic(auto, using(crate::proofs::FieldLemmas::quoting))]
fn quotes_at(part: &Part) -> bool
    ensures { (b : List ℕ) → result ≡ spec.quotes_at b part.now }
{
    match part {
        Part::Double(_, parts) => are_at(parts.as_slice()),
        Part::Param(_) => false,
        Part::Arith(_, _) => false,
        Part::Plain(_) => false,
        Part::Escaped(_) => false,
        Part::Single(_, _) => false,
        Part::Command(_, _, _) => false,
        Part::Tilde(_) => false,
        Part::Joined(_) => false,
    }
}

#[tactic(auto, unfolding(crate::specs::Fields::are_quoted))]
fn are_quoted(parts: &[Part]) -> bool
    ensures { (b : List ℕ) → result ≡ spec.are_quoted b (lone_part parts.now) }
{
    match lone_part(parts) {
        Some(part) => quotes_at(part),
        None => false,
    }
}

#[tactic(auto, using(crate::proofs::FieldLemmas::parameters_listed))]
fn is_parameters(word: &Word) -> bool
    ensures { (b : List ℕ) → result ≡ is_parameters (parts_from b word.now.parts) }
{
    are_quoted(word.parts.as_slice())
}

// Words

// Whether a word that is no `"$@"` surely gives a field.
#[tactic(auto, unfolding(crate::specs::Looks::in_word))]
fn is_field(word: &Word, script: &[u8]) -> bool
    ensures { result ≡ spec.is_field (parts_from script.now word.now.parts) }
{
    !word_has(Look::Parameters, word, script) && some_gives_field(word, script)
}

impl Total {
    #[tactic(auto, using(crate::proofs::FieldLemmas::one_more))]
    fn add(&mut self, word: &Word, script: &[u8])
        ensures { self.new ≡ spec.counted self.old (count_of (parts_from script.now word.now.parts)) }
    {
        if is_parameters(word) {
            self.parameters = self.parameters.saturating_add(1);
        } else if is_field(word, script) {
            self.ones = self.ones.saturating_add(1);
        }
    }
}

// One more word, unless it is one of the first so many.
#[tactic(auto, using(crate::proofs::FieldLemmas::words))]
fn count_word(word: &Word, script: &[u8], skipped: &mut usize, total: &mut Total)
    ensures { spec.counting skipped.new total.new ≡ spec.word_counted (spec.counting skipped.old total.old) (parts_from script.now word.now.parts) }
{
    if *skipped == 0 {
        total.add(word, script);
    } else {
        *skipped -= 1;
    }
}

#[tactic(auto, using(crate::proofs::FieldLemmas::elements))]
fn count_element(element: &Element, script: &[u8], skipped: &mut usize, total: &mut Total)
    ensures { spec.counting skipped.new total.new ≡ spec.element_counted script.now (spec.counting skipped.old total.old) element.now }
{
    match element {
        Element::Assignment { .. } => (),
        Element::Word(word) => count_word(word, script, skipped, total),
        Element::Redirection(_) => (),
    }
}

fn count_elements(elements: &[Element], script: &[u8], skipped: usize) -> Total
    ensures { result ≡ (fold (spec.element_counted script.now) (spec.counting skipped spec.no_fields) elements.now).total }
{
    let mut left = skipped;
    let mut total = Total {
        ones: 0,
        parameters: 0,
    };
    for element in elements {
        count_element(element, script, &mut left, &mut total);
    }
    total
}

/// How many fields the words of a simple command give at least, after the first so many of them.
#[tactic(auto, using(crate::proofs::FieldLemmas::elements_counted))]
pub fn count_behind(elements: &[Element], script: &[u8], skipped: usize) -> Total
    ensures { result ≡ fold spec.counted_word spec.no_fields (drop skipped (words_in (operands_in (elements_from script.now elements.now)))) }
{
    count_elements(elements, script, skipped)
}
