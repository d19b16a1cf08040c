//! The tally goes over `for` for the counts of positional parameters at their places (XCU 2.9.4).
ghost use Rattle.std.specs.Prelude.{IfOk};
ghost use Rattle.sh_tree.specs.Lists.{words_from};
ghost use Rattle.sh_tree.specs.standard.program.Trees as trees;
ghost use Rattle.sh_domain.specs.Entries as entries;
ghost use Rattle.sh_domain.specs.Gains as gains;
ghost use Rattle.sh_rules.specs.Walks as walks;
ghost use Rattle.sh_tally.specs.Walks.{AddsKind, AddsTurns, Passes};

use crate::bounds::Tally;
use crate::places::Part;
use crate::views::{After, Views};
use sh_counts::{Change, Equations};
use sh_rules::Around;
use sh_tree::{Kind, Script, Word};
use std::alloc::AllocError;

impl Tally<'_> {
    // Goes over words, one after the other. Returns what is known after them.
    #[cycle(tally)]
    fn words(
        &self,
        equations: &mut Equations,
        known: Views,
        words: &[Word],
    ) -> Result<Views, AllocError>
        ensures { IfOk result (λ left. Passes self.now (λ q. entries.words_entered q (words_from self.now.script.now words.now)) (gains.words_gains (words_from self.now.script.now words.now)) known left equations.old equations.new) }
    {
        let mut left = known;
        for word in words {
            left = self.word(equations, left, word)?;
        }
        Ok(left)
    }

    // Goes over the body of a `for`, if this is known after its words. Its name is a variable, so
    // no parameter is set by it.
    #[cycle(tally)]
    fn each_turn(
        &self,
        equations: &mut Equations,
        around: &Around<'_>,
        number: u32,
        behind: Views,
        body: &Script,
    ) -> Result<(), AllocError>
        ensures { IfOk result (λ unit. AddsTurns self.now (walks.around self.now.script.now around.now) number (trees.script_of self.now.script.now body.now) behind equations.old equations.new) }
    {
        let turn = Part::Head.of(number);
        let head = Views::at(turn);
        let inner = (&*around).in_loop(number);
        let after = self.list(equations, &inner, head, body)?;
        self.bound(equations, turn, behind, Change::NONE)?;
        let again = after.in_any_case(&self.places, &*equations);
        self.bound(equations, turn, again, Change::NONE)?;
        self.leaves(equations, number, After::both(head))?;
        Ok(())
    }

    /// Goes over a `for`, if this is known after its redirections.
    ///
    /// # Errors
    ///
    /// If a growth was refused.
    #[cycle(tally)]
    pub fn for_turns(
        &self,
        equations: &mut Equations,
        around: &Around<'_>,
        number: u32,
        inside: Views,
        of: &Kind,
    ) -> Result<(), AllocError>
        ensures { IfOk result (λ unit. AddsKind self.now (walks.around self.now.script.now around.now) number (trees.kind_of self.now.script.now of.now) inside equations.old equations.new) }
    {
        let Kind::For {
            name: _,
            words,
            body,
        } = of
        else {
            return Ok(());
        };
        match words {
            Some(words) => {
                let behind = self.words(equations, inside, words.as_slice())?;
                self.each_turn(equations, around, number, behind, body)
            }
            None => self.each_turn(equations, around, number, inside, body),
        }
    }
}
