//! The tally goes over commands for the counts of positional parameters at their places. Each
//! equation is what one constraint of the flow rules says of counts (XCU 2.5.1, 2.9.4, 2.9.5).
ghost use Rattle.std.specs.Prelude.{IfOk};
ghost use Rattle.sh_tree.specs.Lists.{elements_from};
ghost use Rattle.sh_tree.specs.standard.Tree.{text_of};
ghost use Rattle.sh_tree.specs.standard.program.Syntax as p;
ghost use Rattle.sh_tree.specs.standard.program.Trees as trees;
ghost use Rattle.sh_domain.specs.declared.rule.FlowRule.{FlowRule};
ghost use Rattle.sh_domain.specs.Entries as entries;
ghost use Rattle.sh_rules.specs.Walks as walks;
ghost use Rattle.sh_tally.specs.Walks.{AddsCommand, AddsFrom};

use crate::bounds::Tally;
use crate::places::{End, Part};
use crate::views::{After, Views};
use sh_counts::{Change, Equations};
use sh_rules::{Around, in_function};
use sh_tree::{Command, Element, Kind, Span};
use std::alloc::AllocError;

impl Tally<'_> {
    /// Goes over a command at whose entry this is known.
    ///
    /// # Errors
    ///
    /// If a growth was refused.
    #[cycle(tally)]
    pub fn command(
        &self,
        equations: &mut Equations,
        around: &Around<'_>,
        known: Views,
        command: &Command,
    ) -> Result<(), AllocError>
        ensures { IfOk result (λ unit. (by : FlowRule) → AddsFrom self.now (λ q. entries.command_entered by (walks.around self.now.script.now around.now) q (trees.command_of self.now.script.now command.now)) known equations.old equations.new) }
    {
        let place = Part::Before.of(command.number);
        self.bound(equations, place, known, Change::NONE)?;
        let redirects = command.redirects.as_slice();
        self.not_redirected(equations, command.number, redirects)?;
        let inside = self.redirects(equations, Views::at(place), redirects)?;
        self.kind(equations, around, command.number, inside, &command.kind)
    }

    #[cycle(tally)]
    fn kind(
        &self,
        equations: &mut Equations,
        around: &Around<'_>,
        number: u32,
        inside: Views,
        kind: &Kind,
    ) -> Result<(), AllocError>
        ensures { IfOk result (λ unit. AddsCommand self.now (walks.around self.now.script.now around.now) number (trees.kind_of self.now.script.now kind.now) inside equations.old equations.new) }
    {
        match kind {
            Kind::Simple(elements) => {
                let elements = elements.as_slice();
                self.simple(equations, around, number, inside, elements)
            }
            Kind::Group(list) => self.group(equations, around, number, inside, list),
            Kind::Subshell(list) => self.subshell(equations, around, number, inside, list),
            Kind::Cond { .. } => self.conditional(equations, around, number, inside, kind),
            Kind::Loop { .. } => self.turns(equations, around, number, inside, kind),
            Kind::For { .. } => self.for_turns(equations, around, number, inside, kind),
            Kind::Branches { .. } => self.cases(equations, around, number, inside, kind),
            Kind::Define { name, body } => self.define(
                equations,
                around,
                number,
                inside,
                *name,
                body.get(),
            ),
        }
    }

    #[cycle(tally)]
    fn simple(
        &self,
        equations: &mut Equations,
        around: &Around<'_>,
        number: u32,
        inside: Views,
        elements: &[Element],
    ) -> Result<(), AllocError>
        ensures { IfOk result (λ unit. AddsCommand self.now (walks.around self.now.script.now around.now) number (p.Simple (elements_from self.now.script.now elements.now)) inside equations.old equations.new) }
    {
        let words = self.operands(equations, inside, elements)?;
        let left = self.values(equations, words, elements)?;
        self.simple_bounds(equations, around, number, elements, left)
    }

    #[cycle(tally)]
    fn define(
        &self,
        equations: &mut Equations,
        around: &Around<'_>,
        number: u32,
        inside: Views,
        name: Span,
        body: &Command,
    ) -> Result<(), AllocError>
        ensures { IfOk result (λ unit. AddsCommand self.now (walks.around self.now.script.now around.now) number (p.Define (text_of self.now.script.now name) (trees.command_of self.now.script.now body.now)) inside equations.old equations.new) }
    {
        let text = name.text(self.script);
        let known = self.entered(text);
        let outside = in_function(name);
        self.command(equations, &outside, known, body)?;
        let after = After::command(body.number);
        self.bound_function(equations, End::Zero, text, after.zero, Change::NONE)?;
        self.bound_function(equations, End::Nonzero, text, after.nonzero, Change::NONE)?;
        self.bound(equations, Part::Zero.of(number), inside, Change::NONE)?;
        Ok(())
    }
}
