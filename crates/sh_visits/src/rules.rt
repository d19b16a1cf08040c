//! What the flow rules require of one command (XCU 2.9).
ghost use Rattle.std.specs.Prelude.{◌≡◌, List, Some, ℕ, option_map};
ghost use Rattle.sh_tree.specs.standard.Tree.{text_of};
ghost use Rattle.sh_tree.specs.Lists.{elements_from, redirects_from};
ghost use Rattle.sh_tree.specs.standard.program.Trees as trees;
ghost use Rattle.sh_domain.specs.Table.{is_redirected};
ghost use Rattle.sh_rules.specs.Bounds as bounds;
ghost use Rattle.sh_rules.specs.CommandBounds as commands;
ghost use Rattle.sh_rules.specs.Visits as spec;
ghost use Rattle.sh_rules.specs.Steps as steps;
ghost use Rattle.sh_rules.specs.Tells as tells;
ghost use Rattle.sh_rules.specs.Walks as walks;
ghost use Rattle.sh_rules.specs.Walks.{facts_in, setting};

use crate::bounds::{tell_compound, tell_redirects};
use crate::drops::tell_drops;
use crate::simple::tell_simple;
use sh_domain::{FlowRule, Knowledge};
use sh_rules::{Around, Asked, Claims, Fault, Place, gain_redirects};
use sh_tree::{Command, Element, Items, Kind, Redirect, Span};

// The elements of a simple command.
#[tactic(auto, using(sh_rules::proofs::VisitLemmas::simple_kinds))]
fn elements_in(kind: &Kind) -> Option<&[Element]>
    ensures { (b : List ℕ) → option_map (λ es. elements_from b es.now) result ≡ spec.simple_in (trees.kind_of b kind.now) }
{
    match kind {
        Kind::Simple(elements) => Some(elements.as_slice()),
        Kind::Group(_) => None,
        Kind::Subshell(_) => None,
        Kind::Cond { .. } => None,
        Kind::Loop { .. } => None,
        Kind::For { .. } => None,
        Kind::Branches { .. } => None,
        Kind::Define { .. } => None,
    }
}

// What a compound command claims after it.
fn tell_inside<A: Asked>(
    claims: &Claims<'_>,
    number: u32,
    redirects: &[Redirect],
    kind: &Kind,
    asked: &mut A,
)
    ensures { A.kept asked.new ≡ tells.kind_told A.asked (setting claims.now) number (commands.redirected (setting claims.now) number (redirects_from (setting claims.now).script redirects.now)) kind.now (A.kept asked.old) }
{
    let mut known = Knowledge::NotReached;
    claims.before_into(number, &mut known);
    gain_redirects(claims, redirects, &mut known);
    tell_compound(claims, number, &known, kind, asked);
}

// What the command claims after it.
fn tell_claims<A: Asked>(
    claims: &Claims<'_>,
    around: &Around<'_>,
    number: u32,
    redirects: &[Redirect],
    kind: &Kind,
    asked: &mut A,
)
    ensures { A.kept asked.new ≡ spec.claims_by A.asked (setting claims.now) number (walks.around (setting claims.now).script around.now) (commands.redirected (setting claims.now) number (redirects_from (setting claims.now).script redirects.now)) (trees.kind_of (setting claims.now).script kind.now) (A.kept asked.old) }
{
    match elements_in(kind) {
        Some(elements) => {
            let texts = claims.texts(number);
            let is_call = claims.is_call(number);
            tell_simple(claims, around, number, texts, is_call, elements, asked);
        }
        None => tell_inside(claims, number, redirects, kind, asked),
    }
}

// What a simple command drops of this function.
fn tell_lost<A: Asked>(
    claims: &Claims<'_>,
    function: Span,
    number: u32,
    elements: &[Element],
    asked: &mut A,
)
    ensures { A.kept asked.new ≡ spec.drops_as A.asked (setting claims.now) number (Some (text_of (setting claims.now).script function)) (Some (elements_from (setting claims.now).script elements.now)) (A.kept asked.old) }
{
    let texts = claims.texts(number);
    let is_call = claims.is_call(number);
    tell_drops(claims, function, number, texts, is_call, elements, asked);
}

// What a command drops of this function.
fn tell_dropped<A: Asked>(
    claims: &Claims<'_>,
    function: Span,
    number: u32,
    kind: &Kind,
    asked: &mut A,
)
    ensures { A.kept asked.new ≡ spec.counted_by A.asked (setting claims.now) number (Some (text_of (setting claims.now).script function)) (trees.kind_of (setting claims.now).script kind.now) (A.kept asked.old) }
{
    match elements_in(kind) {
        Some(elements) => tell_lost(claims, function, number, elements, asked),
        None => (),
    }
}

// What the command drops of the function that counts its drops.
fn tell_counted<A: Asked>(
    claims: &Claims<'_>,
    around: &Around<'_>,
    number: u32,
    kind: &Kind,
    asked: &mut A,
)
    ensures { A.kept asked.new ≡ spec.counted_by A.asked (setting claims.now) number (option_map (text_of (setting claims.now).script) around.now.drops) (trees.kind_of (setting claims.now).script kind.now) (A.kept asked.old) }
{
    match around.drops {
        Some(function) => tell_dropped(claims, function, number, kind, asked),
        None => (),
    }
}

// Whether there are redirections.
fn is_redirected(redirects: &[Redirect]) -> bool
    ensures { (b : List ℕ) → result ≡ is_redirected (redirects_from b redirects.now) }
{
    match redirects {
        [] => false,
        [_, ..] => true,
    }
}

/// What a command asks, as it is entered by this rule with this round it and this known there.
/// Asked are its entry, what it claims after it by its kind and where its redirections fail, and
/// what a function drops by it.
#[tactic(auto, using(sh_rules::proofs::VisitLemmas::command_out))]
pub fn tell_command<A: Asked>(
    claims: &Claims<'_>,
    by: FlowRule,
    around: &Around<'_>,
    known: &Knowledge,
    command: &Command,
    asked: &mut A,
)
    ensures { A.kept asked.new ≡ spec.command_by A.asked (setting claims.now) (A.kept asked.old) (steps.met_in (setting claims.now) by around.now known.now command.now) }
{
    let number = command.number;
    let redirects = command.redirects.as_slice();
    let fault = Fault { number, rule: by };
    asked.bound(claims, Place::Before(number), fault, known);
    tell_claims(claims, around, number, redirects, &command.kind, asked);
    tell_redirects(claims, number, is_redirected(redirects), asked);
    tell_counted(claims, around, number, &command.kind, asked);
}
