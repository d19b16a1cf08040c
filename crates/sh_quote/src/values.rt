//! Values of IFS that are static and separate no numbers (XCU 2.2, 2.6.5).
ghost use Rattle.std.specs.Prelude.{◌≡◌, ◌==◌, Some};
ghost use Rattle.std.specs.List.{list_any, list_all};
ghost use Rattle.sh_tree.specs.standard.Words as words;
ghost use Rattle.sh_tree.specs.Lists.{parts_from};
ghost use Rattle.sh_tree.specs.standard.program.Words.{before_word};
ghost use Rattle.sh_runs.specs.Quoting as quoting;
ghost use Rattle.sh_quote.specs.Steady as steady;
ghost use Rattle.sh_quote.specs.Values as spec;

use sh_tree::text::{
    behind_first, between_ends, parts_are_bracket, parts_have_bracket, parts_have_wildcard,
    text_has_wildcard, text_is_bracket,
};
use sh_tree::{Part, SingleStyle};

fn separates_numbers(byte: u8) -> bool
    ensures { result ≡ spec.separates_numbers byte }
{
    matches!(byte, b'0'..=b'9') || byte == b'-'
}

fn has_separator(text: &[u8]) -> bool
    ensures { result ≡ list_any spec.separates_numbers text.now }
{
    text.iter().any(|byte| separates_numbers(*byte))
}

/// Whether no number is split if this is the value of IFS.
#[tactic(auto, unfolding(sh_runs::specs::Quoting::is_steady))]
pub fn is_steady(text: &[u8]) -> bool
    ensures { result ≡ quoting.is_steady (Some text.now) }
{
    !has_separator(text)
}

/// Whether no number is split if this quotation is the value of IFS. No escape of `$'` gives or
/// takes a digit or a `-`.
#[tactic(auto, using(crate::proofs::ValueLemmas::escaped_steady))]
fn single_is_steady(style: SingleStyle, text: &[u8]) -> bool
    ensures { result ≡ quoting.is_steady (Some (words.single_text style text.now)) }
{
    match style {
        SingleStyle::Plain => is_steady(between_ends(text)),
        SingleStyle::Dollar => is_steady(between_ends(behind_first(text))),
    }
}

#[cycle(value)]
fn parts_are_steady(parts: &[Part], script: &[u8]) -> bool
    ensures { result ≡ list_all (spec.part_steady script.now) parts.now }
{
    for part in parts {
        if !part_is_steady(part, script) {
            return false;
        }
    }
    true
}

#[cycle(value)]
#[tactic(auto, using(crate::proofs::ValueLemmas::steady_parts))]
fn part_is_steady(part: &Part, script: &[u8]) -> bool
    ensures { result ≡ spec.part_steady script.now part.now }
{
    match part {
        Part::Plain(span) => is_steady(span.text(script)),
        Part::Escaped(span) => is_steady(behind_first(span.text(script))),
        Part::Single(style, span) => single_is_steady(*style, span.text(script)),
        Part::Double(_, parts) => parts_are_steady(parts.as_slice(), script),
        Part::Joined(_) => true,
        Part::Param(_) => false,
        Part::Arith(_, _) => false,
        Part::Command(_, _, _) => false,
        Part::Tilde(_) => false,
    }
}

fn text_has_bracket(text: &[u8]) -> bool
    ensures { result ≡ list_any (λ c. c == 91) text.now }
{
    text.iter().any(|byte| *byte == b'[')
}

// A `[` that is all of the value.
#[tactic(auto, unfolding(crate::specs::Values::value_is_bracket))]
fn value_is_bracket(front: &[u8], parts: &[Part], script: &[u8]) -> bool
    ensures { result ≡ spec.value_is_bracket script.now front.now parts.now }
{
    match front {
        [] => parts_are_bracket(parts, script),
        _ => parts.is_empty() && text_is_bracket(front),
    }
}

#[tactic(auto, unfolding(crate::specs::Values::value_is_pattern))]
fn value_is_pattern(front: &[u8], parts: &[Part], script: &[u8]) -> bool
    ensures { result ≡ spec.value_is_pattern script.now front.now parts.now }
{
    let wildcard = text_has_wildcard(front) || parts_have_wildcard(parts, script);
    let bracket = text_has_bracket(front) || parts_have_bracket(parts, script);
    let alone = value_is_bracket(front, parts, script);
    wildcard || bracket && !alone
}

/// Whether a value of some plain bytes and these parts is static and separates no numbers.
#[tactic(auto, using(crate::proofs::ValueLemmas::value_whole))]
pub fn value_is_steady(front: &[u8], parts: &[Part], script: &[u8]) -> bool
    ensures { result ≡ steady.steady_value (before_word front.now (parts_from script.now parts.now)) }
{
    let pattern = value_is_pattern(front, parts, script);
    let steady = is_steady(front) && parts_are_steady(parts, script);
    !pattern && steady
}
