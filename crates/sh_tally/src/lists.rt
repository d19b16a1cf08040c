//! The tally goes over lists for the counts of positional parameters at their places (XCU 2.9.2,
//! 2.9.3).
ghost use Rattle.std.specs.Prelude.{IfOk};
ghost use Rattle.sh_tree.specs.declared.tree.Item.{out-Item};
ghost use Rattle.sh_tree.specs.Lists.{commands_from, items_from, links_from};
ghost use Rattle.sh_tree.specs.standard.program.Trees as trees;
ghost use Rattle.sh_domain.specs.declared.rule.FlowRule.{FlowRule};
ghost use Rattle.sh_domain.specs.declared.rule.FlowRule.TheVariants.{F12};
ghost use Rattle.sh_domain.specs.Entries as entries;
ghost use Rattle.sh_domain.specs.Views as views;
ghost use Rattle.sh_rules.specs.Walks as walks;
ghost use Rattle.sh_tally.specs.Walks.{Adds, AddsFrom, Leaves, LeavesFrom};

use crate::bounds::Tally;
use crate::views::{After, Views};
use sh_counts::Equations;
use sh_rules::{Around, alone};
use sh_tree::{AndOr, Command, Item, Link, Pipe, Script};
use std::alloc::AllocError;

impl Tally<'_> {
    /// Goes over a list at whose entry this is known. Returns what is known after it.
    ///
    /// # Errors
    ///
    /// If a growth was refused.
    #[cycle(tally)]
    pub fn list(
        &self,
        equations: &mut Equations,
        around: &Around<'_>,
        known: Views,
        list: &Script,
    ) -> Result<After, AllocError>
        ensures adds { IfOk result (λ after. (by : FlowRule) → AddsFrom self.now (λ q. entries.items_entered by (walks.around self.now.script.now around.now) (views.Both q) (trees.script_of self.now.script.now list.now)) known equations.old equations.new) }
        ensures leaves { IfOk result (λ after. LeavesFrom self.now (λ q. entries.items_after (views.Both q) (trees.script_of self.now.script.now list.now)) known after) }
    {
        self.items(equations, around, known, list.items.as_slice())
    }

    #[cycle(tally)]
    fn items(
        &self,
        equations: &mut Equations,
        around: &Around<'_>,
        known: Views,
        items: &[Item],
    ) -> Result<After, AllocError>
        ensures adds { IfOk result (λ after. (by : FlowRule) → AddsFrom self.now (λ q. entries.items_entered by (walks.around self.now.script.now around.now) (views.Both q) (items_from self.now.script.now items.now)) known equations.old equations.new) }
        ensures leaves { IfOk result (λ after. LeavesFrom self.now (λ q. entries.items_after (views.Both q) (items_from self.now.script.now items.now)) known after) }
    {
        let mut after = After::both(known);
        for item in items {
            after = self.item(equations, around, after, item)?;
        }
        Ok(after)
    }

    #[cycle(tally)]
    fn item(
        &self,
        equations: &mut Equations,
        around: &Around<'_>,
        before: After,
        item: &Item,
    ) -> Result<After, AllocError>
        ensures adds { IfOk result (λ after. (by : FlowRule) → Adds self.now (λ o. entries.list_entered (entries.item_rule (out-Item item.now).background by) (entries.item_around (out-Item item.now).background (walks.around self.now.script.now around.now)) (entries.item_seen (out-Item item.now).background (views.in_any_case o)) (trees.and_or_of self.now.script.now (out-Item item.now).list)) before equations.old equations.new) }
        ensures leaves { IfOk result (λ after. Leaves self.now (λ o. entries.item_after (views.in_any_case o) (out-Item item.now).background (trees.and_or_of self.now.script.now (out-Item item.now).list)) before after) }
    {
        let known = before.in_any_case(&self.places, &*equations);
        if !item.background {
            return self.and_or(equations, around, known, &item.list);
        }
        let outside = alone();
        self.and_or(equations, &outside, known, &item.list)?;
        Ok(After {
            zero: known,
            nonzero: Views::NONE,
        })
    }

    #[cycle(tally)]
    fn and_or(
        &self,
        equations: &mut Equations,
        around: &Around<'_>,
        known: Views,
        list: &AndOr,
    ) -> Result<After, AllocError>
        ensures adds { IfOk result (λ after. (by : FlowRule) → AddsFrom self.now (λ q. entries.list_entered by (walks.around self.now.script.now around.now) q (trees.and_or_of self.now.script.now list.now)) known equations.old equations.new) }
        ensures leaves { IfOk result (λ after. LeavesFrom self.now (λ q. entries.list_after q (trees.and_or_of self.now.script.now list.now)) known after) }
    {
        let after = self.pipe(equations, around, known, &list.first)?;
        self.links(equations, around, after, list.rest.as_slice())
    }

    #[cycle(tally)]
    fn links(
        &self,
        equations: &mut Equations,
        around: &Around<'_>,
        before: After,
        links: &[(Link, Pipe)],
    ) -> Result<After, AllocError>
        ensures adds { IfOk result (λ after. Adds self.now (λ o. entries.links_entered (walks.around self.now.script.now around.now) o (links_from self.now.script.now links.now)) before equations.old equations.new) }
        ensures leaves { IfOk result (λ after. Leaves self.now (λ o. entries.links_after o (links_from self.now.script.now links.now)) before after) }
    {
        let mut after = before;
        for link in links {
            after = self.link(equations, around, after, link.0, &link.1)?;
        }
        Ok(after)
    }

    #[cycle(tally)]
    fn link(
        &self,
        equations: &mut Equations,
        around: &Around<'_>,
        before: After,
        link: Link,
        pipe: &Pipe,
    ) -> Result<After, AllocError>
        ensures adds { IfOk result (λ after. (by : FlowRule) → Adds self.now (λ o. entries.pipeline_entered by (walks.around self.now.script.now around.now) (entries.link_seen link o) (trees.pipeline_of self.now.script.now pipe.now)) before equations.old equations.new) }
        ensures leaves { IfOk result (λ after. Leaves self.now (λ o. entries.linked link o (entries.pipeline_after (entries.link_seen link o) (trees.pipeline_of self.now.script.now pipe.now))) before after) }
    {
        match link {
            Link::AndThen => {
                let after = self.pipe(equations, around, before.zero, pipe)?;
                Ok(After {
                    zero: after.zero,
                    nonzero: before.nonzero.and(&self.places, &*equations, after.nonzero),
                })
            }
            Link::OrElse => {
                let after = self.pipe(equations, around, before.nonzero, pipe)?;
                Ok(After {
                    zero: before.zero.and(&self.places, &*equations, after.zero),
                    nonzero: after.nonzero,
                })
            }
        }
    }

    #[cycle(tally)]
    fn pipe(
        &self,
        equations: &mut Equations,
        around: &Around<'_>,
        known: Views,
        pipe: &Pipe,
    ) -> Result<After, AllocError>
        ensures adds { IfOk result (λ after. (by : FlowRule) → AddsFrom self.now (λ q. entries.pipeline_entered by (walks.around self.now.script.now around.now) q (trees.pipeline_of self.now.script.now pipe.now)) known equations.old equations.new) }
        ensures leaves { IfOk result (λ after. LeavesFrom self.now (λ q. entries.pipeline_after q (trees.pipeline_of self.now.script.now pipe.now)) known after) }
    {
        match pipe.parts.as_slice() {
            [] => Ok(After::both(known).swapped(pipe.negated)),
            [command] => {
                self.command(equations, around, known, command)?;
                Ok(After::command(command.number).swapped(pipe.negated))
            }
            [_, _, ..] => {
                let inner = (&*around).round_parts();
                self.parts(equations, &inner, known, pipe.parts.as_slice())?;
                Ok(After::both(known).swapped(pipe.negated))
            }
        }
    }

    #[cycle(tally)]
    fn parts(
        &self,
        equations: &mut Equations,
        around: &Around<'_>,
        known: Views,
        parts: &[Command],
    ) -> Result<(), AllocError>
        ensures { IfOk result (λ unit. (by : FlowRule) → AddsFrom self.now (λ q. entries.commands_entered by (walks.around self.now.script.now around.now) q (commands_from self.now.script.now parts.now)) known equations.old equations.new) }
    {
        for command in parts {
            self.command(equations, around, known, command)?;
        }
        Ok(())
    }
}
