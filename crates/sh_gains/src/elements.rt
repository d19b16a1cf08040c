//! What the words of a simple command leave known (XCU 2.9.1).
ghost use Rattle.std.specs.Prelude.{◌≡◌, fold};
ghost use Rattle.sh_tree.specs.Lists.{elements_from};
ghost use Rattle.sh_tree.specs.standard.program.Words.{operands_in};
ghost use Rattle.sh_domain.specs.Gains.{words_gains};
ghost use Rattle.sh_gains.specs.Knowing.{gained, known_of};
ghost use Rattle.sh_gains.specs.Walks as walks;

use crate::gains::gain_word;
use sh_domain::{Knowledge, Names};
use sh_tree::Element;

#[tactic(auto, using(crate::proofs::GainLemmas::elements))]
fn gain_element(element: &Element, script: &[u8], names: &Names, known: &mut Knowledge)
    ensures { known_of names.now known.new ≡ walks.element_gained script.now (known_of names.now known.old) element.now }
{
    match element {
        Element::Assignment { .. } => (),
        Element::Word(word) => gain_word(word, script, names, known),
        Element::Redirection(_) => (),
    }
}

fn gain_each_element(elements: &[Element], script: &[u8], names: &Names, known: &mut Knowledge)
    ensures { known_of names.now known.new ≡ fold (walks.element_gained script.now) (known_of names.now known.old) elements.now }
{
    for element in elements {
        gain_element(element, script, names, known);
    }
}

/// What is known after the command name and the operands of a simple command. Its values and its
/// redirections are judged there.
#[tactic(auto, using(crate::proofs::GainLemmas::operands_gained))]
pub fn gain_operands(elements: &[Element], script: &[u8], names: &Names, known: &mut Knowledge)
    ensures { known_of names.now known.new ≡ gained (words_gains (operands_in (elements_from script.now elements.now))) (known_of names.now known.old) }
{
    gain_each_element(elements, script, names, known);
}
