//! The words of a simple command.
ghost use Rattle.std.specs.Prelude.{◌≡◌, slice_get};
ghost use Rattle.std.specs.Option.{option_copied};
ghost use Rattle.sh_tree.specs.standard.Words.{word_of, words_of};

use crate::tree::{Element, Word};

/// The word that an element is, if it is no assignment and no redirection.
#[tactic(auto, using(crate::proofs::NameLemmas::word_in_element))]
pub fn word_of(element: &Element) -> Option<&Word>
    ensures { option_copied result ≡ word_of element.entry.now }
{
    match element {
        Element::Assignment { .. } => None,
        Element::Word(word) => Some(word),
        Element::Redirection(_) => None,
    }
}

/// The command name of a simple command: its first word that is no assignment, if there is one
/// (XCU 2.9.1).
pub fn command_name(elements: &[Element]) -> Option<&Word>
    ensures { option_copied result ≡ slice_get (words_of elements.entry.now) 0 }
{
    for element in elements {
        if let Some(word) = word_of(element) {
            return Some(word);
        }
    }
    None
}
