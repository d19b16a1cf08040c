//! Words that are patterns for pathname expansion (XCU 2.6.6, 2.14).
ghost use Rattle.std.specs.Prelude.{◌≡◌};
ghost use Rattle.std.specs.List.{list_any};
ghost use Rattle.sh_runs.specs.standard.runs.Fields.{begins_pattern};
ghost use Rattle.sh_quote.specs.Patterns as spec;

use sh_tree::{ParameterOperator, Part, Word};

#[tactic(auto, unfolding(sh_runs::specs::standard::runs::Fields::begins_pattern))]
fn begins_pattern(byte: u8) -> bool
    ensures { result ≡ begins_pattern byte }
{
    byte == b'*' || byte == b'?' || byte == b'['
}

fn text_begins_pattern(text: &[u8]) -> bool
    ensures { result ≡ list_any begins_pattern text.now }
{
    text.iter().any(|byte| begins_pattern(*byte))
}

/// Whether an unquoted `*`, `?` or `[` is in the word, or in the word of a braced expansion of it
/// that is unquoted.
pub fn is_pattern(word: &Word, script: &[u8]) -> bool
    ensures { result ≡ spec.parts_begin script.now word.now.parts }
{
    parts_begin(word.parts.as_slice(), script)
}

#[cycle(pattern)]
fn parts_begin(parts: &[Part], script: &[u8]) -> bool
    ensures { result ≡ spec.parts_begin script.now parts.now }
{
    for part in parts {
        if part_begins(part, script) {
            return true;
        }
    }
    false
}

#[cycle(pattern)]
#[tactic(auto, using(crate::proofs::PatternLemmas::parts))]
fn part_begins(part: &Part, script: &[u8]) -> bool
    ensures { result ≡ spec.part_begins script.now part.now }
{
    match part {
        Part::Plain(span) => text_begins_pattern(span.text(script)),
        Part::Param(param) => operator_begins(&param.operator, script),
        Part::Double(_, _) => false,
        Part::Arith(_, _) => false,
        Part::Escaped(_) => false,
        Part::Single(_, _) => false,
        Part::Command(_, _, _) => false,
        Part::Tilde(_) => false,
        Part::Joined(_) => false,
    }
}

#[cycle(pattern)]
#[tactic(auto, using(crate::proofs::PatternLemmas::operators))]
fn operator_begins(operator: &ParameterOperator, script: &[u8]) -> bool
    ensures { result ≡ spec.operator_begins script.now operator.now }
{
    match operator {
        ParameterOperator::Use { word, .. } => parts_begin(word.parts.as_slice(), script),
        ParameterOperator::Value => false,
        ParameterOperator::Length => false,
        ParameterOperator::Remove { .. } => false,
    }
}
