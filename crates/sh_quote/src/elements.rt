//! The words of a simple command, one after another.
ghost use Rattle.std.specs.Prelude.{◌≡◌, option_map};
ghost use Rattle.sh_tree.specs.standard.Words.{words_of};
ghost use Rattle.sh_quote.specs.Elements.{split};
ghost use Rattle.sh_quote.specs.Unquoted.{is_form, part_form};

use sh_table::definition_in;
use sh_tree::{Element, Part, Word, word_of};

/// The first word, and the elements after it.
pub fn split_word(elements: &[Element]) -> Option<(&Word, &[Element])>
    ensures { option_map (λ p. (p.0.now, words_of p.1.now)) result ≡ split (words_of elements.entry.now) }
{
    let mut left = elements;
    while let [element, rest @ ..] = left {
        if let Some(word) = word_of(element) {
            return Some((word, rest));
        }
        left = rest;
    }
    None
}

#[tactic(auto, unfolding(crate::specs::Unquoted::part_form, sh_runs::specs::standard::runs::Operands::definition_in))]
fn part_begins_assignment(part: &Part, script: &[u8]) -> bool
    ensures { result ≡ part_form script.now part.now }
{
    match part {
        Part::Plain(span) => definition_in(span.text(script)).is_some(),
        _ => false,
    }
}

/// Whether a word is an assignment in form (XCU 2.9.1.1).
#[tactic(auto, using(crate::proofs::UnquotedLemmas::form_of_parts), unfolding(crate::specs::Unquoted::begins_form))]
pub fn begins_assignment(word: &Word, script: &[u8]) -> bool
    ensures { result ≡ is_form script.now word.now }
{
    match word.parts.as_slice() {
        [] => false,
        [first, ..] => part_begins_assignment(first, script),
    }
}
