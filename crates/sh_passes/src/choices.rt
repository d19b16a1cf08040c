//! A sweep of the search over the branches of `if` and the clauses of `case` (XCU 2.9.4).
ghost use Rattle.std.specs.Prelude.{◌≡◌, ◌∷◌, ℕ, [], List, false, true, IfOk};
ghost use Rattle.sh_tree.specs.declared.tree.Branch as if_branch;
ghost use Rattle.sh_tree.specs.declared.tree.Clause as case_clause;
ghost use Rattle.sh_tree.specs.declared.tree.Clause.{out-Clause};
ghost use Rattle.sh_tree.specs.Lists.{branches_from, clauses_from, otherwise_from, parts_from};
ghost use Rattle.sh_tree.specs.standard.program.Syntax as p;
ghost use Rattle.sh_tree.specs.standard.program.Syntax.{Text};
ghost use Rattle.sh_tree.specs.standard.program.Trees as trees;
ghost use Rattle.sh_domain.specs.declared.rule.FlowRule.TheVariants.{F6};
ghost use Rattle.sh_domain.specs.Facts.{NotReached};
ghost use Rattle.sh_domain.specs.Knowledge.{knowledge_facts};
ghost use Rattle.sh_rules.specs.Tells as tells;
ghost use Rattle.sh_rules.specs.Walks as walks;
ghost use Rattle.sh_drafts.specs.declared.place.Part.TheVariants.{Nonzero, Zero};
ghost use Rattle.sh_sweeps.specs.Sweeps.{AreBranches, AreClauses, ClaimsWithin, IsCase, IsLeft};
ghost use Rattle.sh_drafts.specs.Ready.{IsReady, IsSwept};

use crate::sweep::sweep_items;
use crate::words::{pass_word, sweep_patterns};
use sh_domain::{FlowRule, Knowledge};
use sh_drafts::{Draft, Subject};
use sh_rules::{Around, Behind, begun, meet};
use sh_sweeps::waits::place_of_news;
use sh_sweeps::{lower_left, lower_zero};
use sh_tree::{Branch, Clause, ClauseEnd, Script, Word};
use sh_visits::ends_case;
use std::alloc::AllocError;

/// Lowers the certificate at the branches of `if`, and at what follows `else`.
///
/// # Errors
///
/// If a growth was refused.
#[cycle(sweep)]
pub fn sweep_cond(
    subject: &Subject<'_>,
    draft: &mut Draft,
    levels: u32,
    around: &Around<'_>,
    number: u32,
    known: &Knowledge,
    branches: &[Branch],
    otherwise: &Option<Script>,
) -> Result<(), AllocError>
    requires ready { IsReady subject.now draft.old.certificate draft.old.probe.count }
    requires placed { AreBranches subject.now (walks.around subject.now.script.now around.now) number (knowledge_facts subject.now.names.now known.now)
        (branches_from subject.now.script.now branches.now) (otherwise_from subject.now.script.now otherwise.now) }
    ensures swept { IfOk result (λ unit. IsSwept subject.now draft.old.certificate draft.new.certificate draft.new.probe.count) }
{
    let leaves = !known.is_reached();
    let mut left = *known;
    sweep_branches(
        subject, draft, levels, around, number, leaves, &mut left, branches, otherwise,
    )?;
    match otherwise {
        None => leave_unmatched(subject, draft, number, leaves, &left),
        Some(list) => sweep_left(subject, draft, levels, around, number, leaves, &left, list),
    }
}

// Lowers what is claimed after the command of a number to what is known after one of its lists, if
// that leaves it with something new. What is known after its words or conditions is not new then.
fn leave(
    subject: &Subject<'_>,
    draft: &mut Draft,
    number: u32,
    leaves: bool,
    left: &Behind,
) -> Result<(), AllocError>
    requires ready { IsReady subject.now draft.old.certificate draft.old.probe.count }
    requires zero { leaves ≡ true → ClaimsWithin subject.now Zero number (knowledge_facts subject.now.names.now left.now.zero) }
    requires nonzero { leaves ≡ true → ClaimsWithin subject.now Nonzero number (knowledge_facts subject.now.names.now left.now.nonzero) }
    ensures swept { IfOk result (λ unit. IsSwept subject.now draft.old.certificate draft.new.certificate draft.new.probe.count) }
{
    if !leaves {
        return Ok(());
    }
    lower_left(subject, draft, number, left)
}

// The same for an `if` without `else`, if this is known after the last condition.
fn leave_unmatched(
    subject: &Subject<'_>,
    draft: &mut Draft,
    number: u32,
    leaves: bool,
    known: &Knowledge,
) -> Result<(), AllocError>
    requires ready { IsReady subject.now draft.old.certificate draft.old.probe.count }
    requires zero { ClaimsWithin subject.now Zero number (knowledge_facts subject.now.names.now known.now) }
    ensures swept { IfOk result (λ unit. IsSwept subject.now draft.old.certificate draft.new.certificate draft.new.probe.count) }
{
    if !leaves {
        return Ok(());
    }
    lower_zero(subject, draft, number, known)
}

// Lowers the certificate at a list of an `if`, and what the `if` leaves by what the list does.
#[cycle(sweep)]
fn sweep_left(
    subject: &Subject<'_>,
    draft: &mut Draft,
    levels: u32,
    around: &Around<'_>,
    number: u32,
    leaves: bool,
    known: &Knowledge,
    list: &Script,
) -> Result<(), AllocError>
    requires ready { IsReady subject.now draft.old.certificate draft.old.probe.count }
    requires placed { IsLeft subject.now (walks.around subject.now.script.now around.now) number F6 (knowledge_facts subject.now.names.now known.now) (trees.script_of subject.now.script.now list.now) }
    ensures swept { IfOk result (λ unit. IsSwept subject.now draft.old.certificate draft.new.certificate draft.new.probe.count) }
{
    let mut course = begun(FlowRule::F6, known);
    let items = list.items.as_slice();
    sweep_items(subject, draft, levels, around, &mut course, items)?;
    leave(subject, draft, number, leaves, &course.behind)
}

// Lowers the certificate at the branches. What is known after the last condition, if it was not
// zero, is left for `else`.
#[cycle(sweep)]
fn sweep_branches(
    subject: &Subject<'_>,
    draft: &mut Draft,
    levels: u32,
    around: &Around<'_>,
    number: u32,
    leaves: bool,
    known: &mut Knowledge,
    branches: &[Branch],
    otherwise: &Option<Script>,
) -> Result<(), AllocError>
    requires ready { IsReady subject.now draft.old.certificate draft.old.probe.count }
    requires placed { AreBranches subject.now (walks.around subject.now.script.now around.now) number (knowledge_facts subject.now.names.now known.old)
        (branches_from subject.now.script.now branches.now) (otherwise_from subject.now.script.now otherwise.now) }
    ensures swept { IfOk result (λ unit. IsSwept subject.now draft.old.certificate draft.new.certificate draft.new.probe.count) }
    ensures left { IfOk result (λ unit. AreBranches subject.now (walks.around subject.now.script.now around.now) number (knowledge_facts subject.now.names.now known.new)
        (branches_from subject.now.script.now []) (otherwise_from subject.now.script.now otherwise.now)) }
{
    let mut place = 0;
    while place < branches.len() {
        let is_known = known.is_reached();
        let next = place_of_news(subject, &draft.waiting, is_known, branches, place);
        if next == branches.len() {
            return Ok(());
        }
        let branch = &branches[next];
        sweep_branch(
            subject, draft, levels, around, number, leaves, known, branch,
        )?;
        place = next + 1;
    }
    Ok(())
}

#[cycle(sweep)]
fn sweep_branch(
    subject: &Subject<'_>,
    draft: &mut Draft,
    levels: u32,
    around: &Around<'_>,
    number: u32,
    leaves: bool,
    known: &mut Knowledge,
    branch: &Branch,
) -> Result<(), AllocError>
    requires ready { IsReady subject.now draft.old.certificate draft.old.probe.count }
    requires placed { (others : List if_branch.Branch) × (z : p.Otherwise) × AreBranches subject.now (walks.around subject.now.script.now around.now) number (knowledge_facts subject.now.names.now known.old)
        (branches_from subject.now.script.now (branch.now ∷ others)) z }
    ensures swept { IfOk result (λ unit. IsSwept subject.now draft.old.certificate draft.new.certificate draft.new.probe.count) }
    ensures passed { IfOk result (λ unit. (others : List if_branch.Branch) (z : p.Otherwise)
        → AreBranches subject.now (walks.around subject.now.script.now around.now) number (knowledge_facts subject.now.names.now known.old) (branches_from subject.now.script.now (branch.now ∷ others)) z
        → AreBranches subject.now (walks.around subject.now.script.now around.now) number (knowledge_facts subject.now.names.now known.new) (branches_from subject.now.script.now others) z) }
{
    let mut course = begun(FlowRule::F6, &*known);
    sweep_items(
        subject,
        draft,
        levels,
        around,
        &mut course,
        branch.condition.items.as_slice(),
    )?;
    let zero = course.behind.zero;
    let body = &branch.body;
    sweep_left(subject, draft, levels, around, number, leaves, &zero, body)?;
    *known = course.behind.nonzero;
    Ok(())
}

/// Lowers the certificate at the commands in the word of `case`, and in its clauses.
///
/// # Errors
///
/// If a growth was refused.
#[cycle(sweep)]
pub fn sweep_case(
    subject: &Subject<'_>,
    draft: &mut Draft,
    levels: u32,
    around: &Around<'_>,
    number: u32,
    known: &Knowledge,
    word: &Word,
    clauses: &[Clause],
) -> Result<(), AllocError>
    requires ready { IsReady subject.now draft.old.certificate draft.old.probe.count }
    requires placed { IsCase subject.now (walks.around subject.now.script.now around.now) number (knowledge_facts subject.now.names.now known.now)
        (parts_from subject.now.script.now word.now.parts) (clauses_from subject.now.script.now clauses.now) }
    ensures swept { IfOk result (λ unit. IsSwept subject.now draft.old.certificate draft.new.certificate draft.new.probe.count) }
{
    let mut behind = *known;
    pass_word(subject, draft, levels, &mut behind, word)?;
    sweep_clauses(subject, draft, levels, around, number, &behind, clauses)
}

// Whether anything is known after the word, or where the list of the clause before falls through.
#[tactic(auto, using(sh_sweeps::proofs::KnownLemmas::unreached))]
fn is_any_known(behind: &Knowledge, fallen: &Knowledge) -> bool
    ensures { result ≡ false → (names : List Text) → knowledge_facts names fallen.now ≡ NotReached }
{
    behind.is_reached() || fallen.is_reached()
}

#[cycle(sweep)]
fn sweep_clauses(
    subject: &Subject<'_>,
    draft: &mut Draft,
    levels: u32,
    around: &Around<'_>,
    number: u32,
    behind: &Knowledge,
    clauses: &[Clause],
) -> Result<(), AllocError>
    requires ready { IsReady subject.now draft.old.certificate draft.old.probe.count }
    requires placed { AreClauses subject.now (walks.around subject.now.script.now around.now) number (knowledge_facts subject.now.names.now behind.now)
        NotReached (clauses_from subject.now.script.now clauses.now) }
    ensures swept { IfOk result (λ unit. IsSwept subject.now draft.old.certificate draft.new.certificate draft.new.probe.count) }
{
    let mut fallen = Knowledge::NotReached;
    let mut place = 0;
    while place < clauses.len() {
        let is_known = is_any_known(behind, &fallen);
        let next = place_of_news(subject, &draft.waiting, is_known, clauses, place);
        if next == clauses.len() {
            return Ok(());
        }
        let clause = &clauses[next];
        place = next + 1;
        let leaves = leaves_case(behind, clause.end, &clauses[place..]);
        sweep_clause(
            subject,
            draft,
            levels,
            around,
            number,
            behind,
            &mut fallen,
            leaves,
            clause,
        )?;
    }
    Ok(())
}

#[cycle(sweep)]
fn sweep_clause(
    subject: &Subject<'_>,
    draft: &mut Draft,
    levels: u32,
    around: &Around<'_>,
    number: u32,
    behind: &Knowledge,
    fallen: &mut Knowledge,
    leaves: bool,
    clause: &Clause,
) -> Result<(), AllocError>
    requires ready { IsReady subject.now draft.old.certificate draft.old.probe.count }
    requires placed { (others : List case_clause.Clause) × AreClauses subject.now (walks.around subject.now.script.now around.now) number (knowledge_facts subject.now.names.now behind.now)
        (knowledge_facts subject.now.names.now fallen.old) (clauses_from subject.now.script.now (clause.now ∷ others))
        × (leaves ≡ true → tells.ends_case subject.now.script.now (out-Clause clause.now).end others ≡ true) }
    ensures swept { IfOk result (λ unit. IsSwept subject.now draft.old.certificate draft.new.certificate draft.new.probe.count) }
    ensures passed { IfOk result (λ unit. (others : List case_clause.Clause)
        → AreClauses subject.now (walks.around subject.now.script.now around.now) number (knowledge_facts subject.now.names.now behind.now) (knowledge_facts subject.now.names.now fallen.old) (clauses_from subject.now.script.now (clause.now ∷ others))
        → AreClauses subject.now (walks.around subject.now.script.now around.now) number (knowledge_facts subject.now.names.now behind.now) (knowledge_facts subject.now.names.now fallen.new) (clauses_from subject.now.script.now others)) }
{
    sweep_patterns(subject, draft, levels, behind, clause.patterns.as_slice())?;
    sweep_body(
        subject, draft, levels, around, number, behind, fallen, leaves, clause,
    )
}

// Whether a clause leaves the `case` with something new, though its word does not: nothing is known
// after the word then.
fn leaves_case(behind: &Knowledge, end: ClauseEnd, others: &[Clause]) -> bool
    ensures { (b : List ℕ) → result ≡ true → tells.ends_case b end others.now ≡ true }
{
    !behind.is_reached() && ends_case(end, others)
}

// Lowers the certificate at the list of a clause, and goes on after it.
#[cycle(sweep)]
fn sweep_body(
    subject: &Subject<'_>,
    draft: &mut Draft,
    levels: u32,
    around: &Around<'_>,
    number: u32,
    behind: &Knowledge,
    fallen: &mut Knowledge,
    leaves: bool,
    clause: &Clause,
) -> Result<(), AllocError>
    requires ready { IsReady subject.now draft.old.certificate draft.old.probe.count }
    requires placed { (others : List case_clause.Clause) × AreClauses subject.now (walks.around subject.now.script.now around.now) number (knowledge_facts subject.now.names.now behind.now)
        (knowledge_facts subject.now.names.now fallen.old) (clauses_from subject.now.script.now (clause.now ∷ others))
        × (leaves ≡ true → tells.ends_case subject.now.script.now (out-Clause clause.now).end others ≡ true) }
    ensures swept { IfOk result (λ unit. IsSwept subject.now draft.old.certificate draft.new.certificate draft.new.probe.count) }
    ensures passed { IfOk result (λ unit. (others : List case_clause.Clause)
        → AreClauses subject.now (walks.around subject.now.script.now around.now) number (knowledge_facts subject.now.names.now behind.now) (knowledge_facts subject.now.names.now fallen.old) (clauses_from subject.now.script.now (clause.now ∷ others))
        → AreClauses subject.now (walks.around subject.now.script.now around.now) number (knowledge_facts subject.now.names.now behind.now) (knowledge_facts subject.now.names.now fallen.new) (clauses_from subject.now.script.now others)) }
{
    let mut known = *behind;
    meet(&mut known, &*fallen);
    let mut course = begun(FlowRule::F9, &known);
    sweep_items(
        subject,
        draft,
        levels,
        around,
        &mut course,
        clause.body.items.as_slice(),
    )?;
    leave(subject, draft, number, leaves, &course.behind)?;
    *fallen = course.behind.falling(clause.end);
    Ok(())
}
