//! The counts at the loop that `break` or `continue` goes to (XCU 2.15, break and continue).
ghost use Rattle.std.specs.Prelude.{◌≡◌, List, Some, IfOk, IfSome, map};
ghost use Rattle.sh_tree.specs.Lists.{elements_from};
ghost use Rattle.sh_tree.specs.standard.program.Syntax.{Word};
ghost use Rattle.sh_tree.specs.standard.program.Words.{static_of};
ghost use Rattle.sh_runs.specs.declared.kind.Kind.TheVariants as kind;
ghost use Rattle.sh_tree.specs.declared.known.KnownName.TheVariants as known;
ghost use Rattle.sh_table.specs.WordTexts.{text_in};
ghost use Rattle.sh_domain.specs.Operands as operands;
ghost use Rattle.sh_domain.specs.Rules as rules;
ghost use Rattle.sh_domain.specs.Table as table;
ghost use Rattle.sh_rules.specs.Walks as walks;
ghost use Rattle.sh_rules.specs.Walks.{loops_of};
ghost use Rattle.sh_tally.specs.Walks as spec;
ghost use Rattle.sh_tally.specs.Walks.{AddsManner};

use crate::bounds::Tally;
use crate::places::Part;
use crate::views::Views;
use sh_counts::{Change, Equations};
use sh_rules::{Around, Loops};
use sh_table::WordText;
use sh_tree::Element;
use sh_visits::{first_number, jump_loop};
use std::alloc::AllocError;

// The outermost loop, if there are no more than so many.
#[tactic(auto, unfolding(sh_rules::specs::Walks::loops_of, crate::specs::Walks::outermost))]
fn outermost(count: u32, loops: &Loops<'_>) -> Option<u32>
    ensures { result ≡ spec.outermost count (loops_of loops.now) }
{
    match loops {
        Loops::Outside => None,
        Loops::Inside(number, outer) => match outer {
            Loops::Outside => Some(*number),
            Loops::Inside(_, _) => {
                if count <= 1 {
                    None
                } else {
                    outermost(count - 1, outer)
                }
            }
        },
    }
}

// The loop that a jump goes to, if its operand is known. The greatest number means each greater
// one too, and then the outermost loop.
fn loop_of(texts: &[WordText], script: &[u8], around: &Around<'_>) -> Option<u32>
    ensures { IfSome result (λ number. (ws : List Word) → map static_of ws ≡ map (text_in script.now) texts.now → rules.jump_loop (operands.first_number ws) (loops_of around.now.loops) ≡ Some number) }
{
    match first_number(texts, script) {
        Some(count) => {
            if count < u32::MAX {
                jump_loop(Some(count), &around.loops)
            } else {
                outermost(count, &around.loops)
            }
        }
        None => None,
    }
}

impl Tally<'_> {
    /// Adds bounds of the count at each turn of the loop that `continue` goes on with, if this is
    /// known after its words, its values and its redirections.
    ///
    /// # Errors
    ///
    /// If a growth was refused.
    pub fn continued(
        &self,
        equations: &mut Equations,
        around: &Around<'_>,
        number: u32,
        texts: &[WordText],
        elements: &[Element],
        left: Views,
    ) -> Result<(), AllocError>
        ensures { IfOk result (λ unit. (ws : List Word) → map static_of ws ≡ map (text_in self.now.script.now) texts.now
            → AddsManner self.now (walks.around self.now.script.now around.now) number (elements_from self.now.script.now elements.now) left (table.Utility (kind.Special known.Continue) ws) equations.old equations.new) }
    {
        match loop_of(texts, self.script, around) {
            Some(turned) => self.bound(equations, Part::Head.of(turned), left, Change::NONE),
            None => Ok(()),
        }
    }

    /// Adds bounds of the counts after the loop that `break` ends, by both statuses, if this is
    /// known after its words, its values and its redirections.
    ///
    /// # Errors
    ///
    /// If a growth was refused.
    pub fn broken(
        &self,
        equations: &mut Equations,
        around: &Around<'_>,
        number: u32,
        texts: &[WordText],
        elements: &[Element],
        left: Views,
    ) -> Result<(), AllocError>
        ensures { IfOk result (λ unit. (ws : List Word) → map static_of ws ≡ map (text_in self.now.script.now) texts.now
            → AddsManner self.now (walks.around self.now.script.now around.now) number (elements_from self.now.script.now elements.now) left (table.Utility (kind.Special known.Break) ws) equations.old equations.new) }
    {
        let Some(ended) = loop_of(texts, self.script, around) else {
            return Ok(());
        };
        self.bound(equations, Part::Zero.of(ended), left, Change::NONE)?;
        self.bound(equations, Part::Nonzero.of(ended), left, Change::NONE)?;
        Ok(())
    }
}
