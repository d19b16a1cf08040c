//! The places in a command's own words, by what is known before it (XCU 2.7, 2.9.1, 2.9.4).
ghost use Rattle.std.specs.Prelude.{fold};
ghost use Rattle.sh_tree.specs.declared.tree.Command.{out-Command};
ghost use Rattle.sh_tree.specs.Lists.{redirects_from};
ghost use Rattle.sh_tree.specs.standard.program.Trees.{kind_of};
ghost use Rattle.sh_demands.specs.Judged.{judged};
ghost use Rattle.sh_gains.specs.Knowing.{knowing};
ghost use Rattle.sh_demands.specs.Own.{own_places};
ghost use Rattle.sh_demands.specs.OwnWalks as walks;
ghost use Rattle.sh_demands.specs.Reported.{Adds, Judges};

use crate::needs::judge_word;
use crate::reports::Reports;
use sh_gains::{Known, gain_operands};
use sh_tree::{Clause, Command, Element, Items, Kind, Redirect, Target, Word};

fn judge_words(words: &[Word], script: &[u8], known: &mut Known<'_>, reports: &mut Reports)
    ensures { Judges (knowing known.old) reports.old (knowing known.new) reports.new (λ s. fold (walks.word_step script.now) s words.now) }
{
    for word in words {
        judge_word(word, script, known, reports);
    }
}

// A word whose gains are not counted.
fn judge_pattern(word: &Word, script: &[u8], known: &Known<'_>, reports: &mut Reports)
    ensures { Judges (knowing known.now) reports.old (knowing known.now) reports.new (λ s. walks.pattern_step script.now s word.now) }
{
    let mut inside = *known;
    judge_word(word, script, &mut inside, reports)
}

fn judge_patterns(words: &[Word], script: &[u8], known: &Known<'_>, reports: &mut Reports)
    ensures { Judges (knowing known.now) reports.old (knowing known.now) reports.new (λ s. fold (walks.pattern_step script.now) s words.now) }
{
    for word in words {
        judge_pattern(word, script, known, reports);
    }
}

#[tactic(auto, using(crate::proofs::OwnLemmas::targets))]
fn judge_target(target: &Target, script: &[u8], known: &mut Known<'_>, reports: &mut Reports)
    ensures { Judges (knowing known.old) reports.old (knowing known.new) reports.new (λ s. walks.target_step script.now s target.now) }
{
    match target {
        Target::File(_, word) => judge_word(word, script, known, reports),
        Target::Here(here) => judge_word(&here.body, script, known, reports),
    }
}

// A redirection whose gains are not counted.
fn judge_target_aside(target: &Target, script: &[u8], known: &Known<'_>, reports: &mut Reports)
    ensures { Adds reports.old reports.new (λ ps. (walks.target_step script.now (judged (knowing known.now) ps) target.now).places) }
{
    let mut inside = *known;
    judge_target(target, script, &mut inside, reports)
}

fn judge_redirects(
    redirects: &[Redirect],
    script: &[u8],
    known: &mut Known<'_>,
    reports: &mut Reports,
)
    ensures { Judges (knowing known.old) reports.old (knowing known.new) reports.new (λ s. fold (walks.redirect_step script.now) s redirects.now) }
{
    for redirect in redirects {
        judge_target(&redirect.target, script, known, reports);
    }
}

#[tactic(auto, using(crate::proofs::OwnLemmas::elements))]
fn judge_element(
    element: &Element,
    behind: &Known<'_>,
    script: &[u8],
    known: &mut Known<'_>,
    reports: &mut Reports,
)
    ensures { Judges (knowing known.old) reports.old (knowing known.new) reports.new (λ s. walks.element_step script.now (knowing behind.now) s element.now) }
{
    match element {
        Element::Assignment { value, .. } => judge_pattern(value, script, behind, reports),
        Element::Word(word) => judge_word(word, script, known, reports),
        Element::Redirection(redirect) => {
            judge_target_aside(&redirect.target, script, behind, reports)
        }
    }
}

fn judge_elements(
    elements: &[Element],
    behind: &Known<'_>,
    script: &[u8],
    known: &mut Known<'_>,
    reports: &mut Reports,
)
    ensures { Judges (knowing known.old) reports.old (knowing known.new) reports.new (λ s. fold (walks.element_step script.now (knowing behind.now)) s elements.now) }
{
    for element in elements {
        judge_element(element, behind, script, known, reports);
    }
}

#[tactic(auto, using(sh_gains::proofs::GainLemmas::operands_gained))]
fn judge_simple(elements: &[Element], script: &[u8], known: &mut Known<'_>, reports: &mut Reports)
    ensures { Judges (knowing known.old) reports.old (knowing known.new) reports.new (λ s. walks.simple_step script.now s elements.now) }
{
    let mut behind = *known;
    gain_operands(elements, script, behind.names, &mut behind.knowledge);
    judge_elements(elements, &behind, script, known, reports)
}

#[tactic(auto, unfolding(crate::specs::OwnWalks::clause_step))]
fn judge_clause(clause: &Clause, script: &[u8], known: &Known<'_>, reports: &mut Reports)
    ensures { Judges (knowing known.now) reports.old (knowing known.now) reports.new (λ s. walks.clause_step script.now s clause.now) }
{
    judge_patterns(clause.patterns.as_slice(), script, known, reports)
}

fn judge_clauses(clauses: &[Clause], script: &[u8], known: &Known<'_>, reports: &mut Reports)
    ensures { Judges (knowing known.now) reports.old (knowing known.now) reports.new (λ s. fold (walks.clause_step script.now) s clauses.now) }
{
    for clause in clauses {
        judge_clause(clause, script, known, reports);
    }
}

// The words of `for`, if it has some.
#[tactic(auto, unfolding(crate::specs::OwnWalks::listed_step))]
fn judge_listed(
    words: &Option<Items<Word>>,
    script: &[u8],
    known: &mut Known<'_>,
    reports: &mut Reports,
)
    ensures { Judges (knowing known.old) reports.old (knowing known.new) reports.new (λ s. walks.listed_step script.now s words.now) }
{
    match words {
        Some(words) => judge_words(words.as_slice(), script, known, reports),
        None => (),
    }
}

#[tactic(auto, using(crate::proofs::OwnLemmas::kinds))]
fn judge_kind(kind: &Kind, script: &[u8], known: &mut Known<'_>, reports: &mut Reports)
    ensures { Judges (knowing known.old) reports.old (knowing known.new) reports.new (λ s. walks.kind_step script.now s kind.now) }
{
    match kind {
        Kind::Simple(elements) => judge_simple(elements.as_slice(), script, known, reports),
        Kind::For { words, .. } => judge_listed(words, script, known, reports),
        Kind::Branches { word, clauses } => {
            judge_word(word, script, known, reports);
            judge_clauses(clauses.as_slice(), script, &*known, reports)
        }
        Kind::Group(_) => (),
        Kind::Subshell(_) => (),
        Kind::Cond { .. } => (),
        Kind::Loop { .. } => (),
        Kind::Define { .. } => (),
    }
}

/// Adds the places in a command's own words whose parameter is not surely set, with this known
/// before the command. Those in the redirections after a compound command come before those in its
/// words. The commands in them are commands of their own.
#[tactic(auto, using(crate::proofs::OwnLemmas::own_walked))]
pub fn judge_own(command: &Command, script: &[u8], known: Known<'_>, reports: &mut Reports)
    ensures { Adds reports.old reports.new (λ ps. own_places (knowing known.entry) ps (kind_of script.now (out-Command command.now).kind) (redirects_from script.now (out-Command command.now).redirects)) }
{
    let mut inside = known;
    judge_redirects(command.redirects.as_slice(), script, &mut inside, reports);
    judge_kind(&command.kind, script, &mut inside, reports)
}
