//! The tally goes over the elements of a simple command for the counts at the commands in their
//! words (XCU 2.9.1).
ghost use Rattle.std.specs.Prelude.{IfOk};
ghost use Rattle.sh_tree.specs.Lists.{element_from, elements_from};
ghost use Rattle.sh_tree.specs.standard.program.Syntax as p;
ghost use Rattle.sh_tally.specs.Walks.{PassesValues, PassesWords};

use crate::bounds::Tally;
use crate::views::Views;
use sh_counts::Equations;
use sh_tree::Element;
use std::alloc::AllocError;

impl Tally<'_> {
    /// Goes over the words of a simple command, one after the other.
    ///
    /// # Errors
    ///
    /// If a growth was refused.
    #[cycle(tally)]
    pub fn operands(
        &self,
        equations: &mut Equations,
        known: Views,
        elements: &[Element],
    ) -> Result<Views, AllocError>
        ensures { IfOk result (λ left. PassesWords self.now (elements_from self.now.script.now elements.now) p.no_elements known left equations.old equations.new) }
    {
        let mut left = known;
        for element in elements {
            left = self.operand(equations, left, element)?;
        }
        Ok(left)
    }

    #[cycle(tally)]
    fn operand(
        &self,
        equations: &mut Equations,
        known: Views,
        element: &Element,
    ) -> Result<Views, AllocError>
        ensures { IfOk result (λ left. (rest : p.Elements) → PassesWords self.now (element_from self.now.script.now element.now rest) rest known left equations.old equations.new) }
    {
        match element {
            Element::Word(word) => self.word(equations, known, word),
            Element::Assignment { .. } => Ok(known),
            Element::Redirection(_) => Ok(known),
        }
    }

    /// Goes over the values and the redirections of a simple command, which are expanded after its
    /// words.
    ///
    /// # Errors
    ///
    /// If a growth was refused.
    #[cycle(tally)]
    pub fn values(
        &self,
        equations: &mut Equations,
        known: Views,
        elements: &[Element],
    ) -> Result<Views, AllocError>
        ensures { IfOk result (λ left. PassesValues self.now (elements_from self.now.script.now elements.now) p.no_elements known left equations.old equations.new) }
    {
        let mut left = known;
        for element in elements {
            left = self.value(equations, left, element)?;
        }
        Ok(left)
    }

    #[cycle(tally)]
    fn value(
        &self,
        equations: &mut Equations,
        known: Views,
        element: &Element,
    ) -> Result<Views, AllocError>
        ensures { IfOk result (λ left. (rest : p.Elements) → PassesValues self.now (element_from self.now.script.now element.now rest) rest known left equations.old equations.new) }
    {
        match element {
            Element::Word(_) => Ok(known),
            Element::Assignment { value, .. } => self.word(equations, known, value),
            Element::Redirection(redirect) => self.target(equations, known, &redirect.target),
        }
    }
}
