//! The tally goes over compound commands for the counts of positional parameters at their places
//! (XCU 2.9.4).
ghost use Rattle.std.specs.Prelude.{IfOk};
ghost use Rattle.sh_tree.specs.standard.program.Syntax as p;
ghost use Rattle.sh_tree.specs.standard.program.Trees as trees;
ghost use Rattle.sh_rules.specs.Walks as walks;
ghost use Rattle.sh_tree.specs.declared.tree.Branch.{out-Branch};
ghost use Rattle.sh_tree.specs.declared.tree.Clause.{out-Clause};
ghost use Rattle.sh_tree.specs.Lists.{branches_from, clauses_from, otherwise_from, words_from};
ghost use Rattle.sh_domain.specs.Entries as entries;
ghost use Rattle.sh_domain.specs.Views.{Both, Seen, if_nonzero};
ghost use Rattle.sh_tally.specs.Walks.{AddsBranch, AddsBranches, AddsClause, AddsClauses, AddsFrom, AddsKind, AddsOtherwise, AddsUnmatched, Sight, SightAfter, falling};

use crate::bounds::Tally;
use crate::places::Part;
use crate::views::{After, Views};
use sh_counts::{Change, Equations};
use sh_rules::{Around, alone};
use sh_tree::{Branch, Clause, ClauseEnd, Kind, Script, Word};
use sh_visits::matches_always;
use std::alloc::AllocError;

impl Tally<'_> {
    /// Goes over a group, if this is known after its redirections.
    ///
    /// # Errors
    ///
    /// If a growth was refused.
    #[cycle(tally)]
    pub fn group(
        &self,
        equations: &mut Equations,
        around: &Around<'_>,
        number: u32,
        inside: Views,
        list: &Script,
    ) -> Result<(), AllocError>
        ensures { IfOk result (λ unit. AddsKind self.now (walks.around self.now.script.now around.now) number (p.Group (trees.script_of self.now.script.now list.now)) inside equations.old equations.new) }
    {
        let after = self.list(equations, around, inside, list)?;
        self.leaves(equations, number, after)?;
        Ok(())
    }

    /// Goes over a list that is a process of its own.
    ///
    /// # Errors
    ///
    /// If a growth was refused.
    #[cycle(tally)]
    pub fn subshell(
        &self,
        equations: &mut Equations,
        around: &Around<'_>,
        number: u32,
        inside: Views,
        list: &Script,
    ) -> Result<(), AllocError>
        ensures { IfOk result (λ unit. AddsKind self.now (walks.around self.now.script.now around.now) number (p.Subshell (trees.script_of self.now.script.now list.now)) inside equations.old equations.new) }
    {
        let before = Views::at(Part::Before.of(number));
        let outside = alone();
        self.list(equations, &outside, before, list)?;
        self.leaves(equations, number, After::both(before))?;
        Ok(())
    }

    /// Goes over a loop, if this is known after its redirections.
    ///
    /// # Errors
    ///
    /// If a growth was refused.
    #[cycle(tally)]
    pub fn turns(
        &self,
        equations: &mut Equations,
        around: &Around<'_>,
        number: u32,
        inside: Views,
        of: &Kind,
    ) -> Result<(), AllocError>
        ensures { IfOk result (λ unit. AddsKind self.now (walks.around self.now.script.now around.now) number (trees.kind_of self.now.script.now of.now) inside equations.old equations.new) }
    {
        let Kind::Loop {
            kind,
            condition,
            body,
        } = of
        else {
            return Ok(());
        };
        let turn = Part::Head.of(number);
        let head = Views::at(turn);
        let inner = (&*around).in_loop(number);
        let tested = self.list(equations, &inner, head, condition)?;
        let left = tested.turned(*kind);
        let after = self.list(equations, &inner, left.zero, body)?;
        self.bound(equations, turn, inside, Change::NONE)?;
        let again = after.in_any_case(&self.places, &*equations);
        self.bound(equations, turn, again, Change::NONE)?;
        self.leaves(equations, number, After::both(left.nonzero))?;
        Ok(())
    }

    // Goes over a branch. Returns what is known if the status of its condition is not zero.
    #[cycle(tally)]
    fn branch(
        &self,
        equations: &mut Equations,
        around: &Around<'_>,
        number: u32,
        known: Views,
        branch: &Branch,
    ) -> Result<Views, AllocError>
        ensures adds { IfOk result (λ left. AddsBranch self.now (walks.around self.now.script.now around.now) number (trees.script_of self.now.script.now (out-Branch branch.now).condition) (trees.script_of self.now.script.now (out-Branch branch.now).body) known equations.old equations.new) }
        ensures left { IfOk result (λ left. (q : Seen) → Sight self.now q known → Sight self.now (if_nonzero (entries.items_after (Both q) (trees.script_of self.now.script.now (out-Branch branch.now).condition))) left) }
    {
        let tested = self.list(equations, around, known, &branch.condition)?;
        let after = self.list(equations, around, tested.zero, &branch.body)?;
        self.leaves(equations, number, after)?;
        Ok(tested.nonzero)
    }

    #[cycle(tally)]
    fn branches(
        &self,
        equations: &mut Equations,
        around: &Around<'_>,
        number: u32,
        known: Views,
        branches: &[Branch],
    ) -> Result<Views, AllocError>
        ensures adds { IfOk result (λ left. AddsBranches self.now (walks.around self.now.script.now around.now) number (branches_from self.now.script.now branches.now) known equations.old equations.new) }
        ensures left { IfOk result (λ left. (q : Seen) → Sight self.now q known → Sight self.now (entries.otherwise_seen q (branches_from self.now.script.now branches.now)) left) }
    {
        let mut left = known;
        for branch in branches {
            left = self.branch(equations, around, number, left, branch)?;
        }
        Ok(left)
    }

    #[cycle(tally)]
    fn otherwise(
        &self,
        equations: &mut Equations,
        around: &Around<'_>,
        number: u32,
        known: Views,
        otherwise: &Option<Script>,
    ) -> Result<(), AllocError>
        ensures { IfOk result (λ unit. AddsOtherwise self.now (walks.around self.now.script.now around.now) number (otherwise_from self.now.script.now otherwise.now) known equations.old equations.new) }
    {
        match otherwise {
            Some(list) => {
                let after = self.list(equations, around, known, list)?;
                self.leaves(equations, number, after)
            }
            None => self.bound(equations, Part::Zero.of(number), known, Change::NONE),
        }
    }

    /// Goes over an `if`, if this is known after its redirections.
    ///
    /// # Errors
    ///
    /// If a growth was refused.
    #[cycle(tally)]
    pub fn conditional(
        &self,
        equations: &mut Equations,
        around: &Around<'_>,
        number: u32,
        inside: Views,
        of: &Kind,
    ) -> Result<(), AllocError>
        ensures { IfOk result (λ unit. AddsKind self.now (walks.around self.now.script.now around.now) number (trees.kind_of self.now.script.now of.now) inside equations.old equations.new) }
    {
        let Kind::Cond {
            branches,
            otherwise,
        } = of
        else {
            return Ok(());
        };
        let left = self.branches(equations, around, number, inside, branches.as_slice())?;
        self.otherwise(equations, around, number, left, otherwise)
    }

    // Goes over the patterns of a clause. Each is expanded after the word by itself.
    #[cycle(tally)]
    fn patterns(
        &self,
        equations: &mut Equations,
        known: Views,
        patterns: &[Word],
    ) -> Result<(), AllocError>
        ensures { IfOk result (λ unit. AddsFrom self.now (λ q. entries.patterns_entered q (words_from self.now.script.now patterns.now)) known equations.old equations.new) }
    {
        for pattern in patterns {
            self.word(equations, known, pattern)?;
        }
        Ok(())
    }

    // Goes over the list of a clause of `case`, if this is known at its entry. Returns what is
    // known where it goes on with the next list.
    #[cycle(tally)]
    fn clause(
        &self,
        equations: &mut Equations,
        around: &Around<'_>,
        number: u32,
        known: Views,
        clause: &Clause,
    ) -> Result<After, AllocError>
        ensures adds { IfOk result (λ left. AddsClause self.now (walks.around self.now.script.now around.now) number (trees.script_of self.now.script.now (out-Clause clause.now).body) (out-Clause clause.now).end known equations.old equations.new) }
        ensures left { IfOk result (λ left. (q : Seen) → Sight self.now q known → SightAfter self.now (falling (out-Clause clause.now).end (entries.items_after (Both q) (trees.script_of self.now.script.now (out-Clause clause.now).body))) left) }
    {
        let after = self.list(equations, around, known, &clause.body)?;
        match clause.end {
            ClauseEnd::Break => {
                self.leaves(equations, number, after)?;
                Ok(After::both(Views::NONE))
            }
            ClauseEnd::FallThrough => Ok(after),
        }
    }

    // The last clause leaves what the whole does, also if it would go on with a next one.
    #[cycle(tally)]
    fn clauses(
        &self,
        equations: &mut Equations,
        around: &Around<'_>,
        number: u32,
        known: Views,
        clauses: &[Clause],
    ) -> Result<(), AllocError>
        ensures { IfOk result (λ unit. AddsClauses self.now (walks.around self.now.script.now around.now) number (clauses_from self.now.script.now clauses.now) known equations.old equations.new) }
    {
        let mut left = After::both(Views::NONE);
        for clause in clauses {
            self.patterns(equations, known, clause.patterns.as_slice())?;
            let fallen = left.in_any_case(&self.places, &*equations);
            let both = known.and(&self.places, &*equations, fallen);
            left = self.clause(equations, around, number, both, clause)?;
        }
        self.leaves(equations, number, left)
    }

    // If no clause matches whatever the word is, what is known after the word may be left.
    fn unmatched(
        &self,
        equations: &mut Equations,
        number: u32,
        known: Views,
        clauses: &[Clause],
    ) -> Result<(), AllocError>
        ensures { IfOk result (λ unit. AddsUnmatched self.now number (clauses_from self.now.script.now clauses.now) known equations.old equations.new) }
    {
        if matches_always(clauses, self.script) {
            Ok(())
        } else {
            self.bound(equations, Part::Zero.of(number), known, Change::NONE)
        }
    }

    /// Goes over a `case`, if this is known after its redirections.
    ///
    /// # Errors
    ///
    /// If a growth was refused.
    #[cycle(tally)]
    pub fn cases(
        &self,
        equations: &mut Equations,
        around: &Around<'_>,
        number: u32,
        inside: Views,
        of: &Kind,
    ) -> Result<(), AllocError>
        ensures { IfOk result (λ unit. AddsKind self.now (walks.around self.now.script.now around.now) number (trees.kind_of self.now.script.now of.now) inside equations.old equations.new) }
    {
        let Kind::Branches { word, clauses } = of else {
            return Ok(());
        };
        let behind = self.word(equations, inside, word)?;
        let listed = clauses.as_slice();
        self.clauses(equations, around, number, behind, listed)?;
        self.unmatched(equations, number, behind, listed)
    }
}
