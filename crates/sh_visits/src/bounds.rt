//! What the flow rules ask at a compound command: of each place that it claims no more than is
//! known there (XCU 2.9.4, 2.9.5).
ghost use Rattle.std.specs.Prelude.{◌≡◌, List, ℕ, fold};
ghost use Rattle.std.specs.List.{list_any};
ghost use Rattle.sh_tree.specs.standard.Tree.{text_of};
ghost use Rattle.sh_tree.specs.declared.tree.ClauseEnd.TheVariants as clause;
ghost use Rattle.sh_domain.specs.declared.rule.FlowRule.TheVariants.{F10, F11};
ghost use Rattle.sh_domain.specs.Views.{Before};
ghost use Rattle.sh_rules.specs.Behind.{both};
ghost use Rattle.sh_rules.specs.Bounds as bounds;
ghost use Rattle.sh_rules.specs.Settings.{known_at};
ghost use Rattle.sh_rules.specs.Tells as tells;
ghost use Rattle.sh_rules.specs.Tells.{fault_of};
ghost use Rattle.sh_rules.specs.Walked.{trail};
ghost use Rattle.sh_rules.specs.Walks.{behind_in, facts_in, setting};

use sh_domain::{FlowRule, Knowledge};
use sh_rules::{Asked, Behind, Claims, Fault, Place, gain_variable, gain_word, meet};
use sh_tree::{
    Branch, Clause, ClauseEnd, Command, Items, Kind, LoopKind, Part, Script, Span, Word,
};

/// Of what is claimed after a command, by its status.
#[tactic(auto, unfolding(sh_rules::specs::Bounds::leaves_told))]
pub fn tell_leaves<A: Asked>(claims: &Claims<'_>, fault: Fault, behind: &Behind, asked: &mut A)
    ensures { A.kept asked.new ≡ bounds.leaves_told A.asked (setting claims.now) (fault_of fault) (behind_in (setting claims.now) behind.now) (A.kept asked.old) }
{
    asked.bound(claims, Place::Zero(fault.number), fault, &behind.zero);
    asked.bound(claims, Place::Nonzero(fault.number), fault, &behind.nonzero);
}

/// After a command, whatever its status was.
#[tactic(auto, unfolding(sh_rules::specs::Bounds::leaves_told))]
pub fn tell_both<A: Asked>(claims: &Claims<'_>, fault: Fault, known: &Knowledge, asked: &mut A)
    ensures { A.kept asked.new ≡ bounds.leaves_told A.asked (setting claims.now) (fault_of fault) (both (facts_in (setting claims.now) known.now)) (A.kept asked.old) }
{
    asked.bound(claims, Place::Zero(fault.number), fault, known);
    asked.bound(claims, Place::Nonzero(fault.number), fault, known);
}

// A condition, and its list if it is zero.
#[tactic(auto, unfolding(sh_rules::specs::Tells::branch_told))]
fn tell_branch<A: Asked>(
    claims: &Claims<'_>,
    number: u32,
    known: &mut Knowledge,
    branch: &Branch,
    asked: &mut A,
)
    ensures { trail (facts_in (setting claims.now) known.new) (A.kept asked.new) ≡ tells.branch_told A.asked (setting claims.now) number (trail (facts_in (setting claims.now) known.old) (A.kept asked.old)) branch.now }
{
    let mut behind = Behind::nowhere();
    behind.pass_script(claims, &*known, &branch.condition);
    *known = behind.nonzero;
    let zero = behind.zero;
    behind.pass_script(claims, &zero, &branch.body);
    let rule = FlowRule::F6;
    tell_leaves(claims, Fault { number, rule }, &behind, asked);
}

fn tell_branches<A: Asked>(
    claims: &Claims<'_>,
    number: u32,
    known: &mut Knowledge,
    branches: &[Branch],
    asked: &mut A,
)
    ensures { trail (facts_in (setting claims.now) known.new) (A.kept asked.new) ≡ fold (tells.branch_told A.asked (setting claims.now) number) (trail (facts_in (setting claims.now) known.old) (A.kept asked.old)) branches.now }
{
    for branch in branches {
        tell_branch(claims, number, known, branch, asked);
    }
}

#[tactic(auto, unfolding(sh_rules::specs::Tells::otherwise_told))]
fn tell_otherwise<A: Asked>(
    claims: &Claims<'_>,
    number: u32,
    known: &Knowledge,
    otherwise: &Option<Script>,
    asked: &mut A,
)
    ensures { A.kept asked.new ≡ tells.otherwise_told A.asked (setting claims.now) number (trail (facts_in (setting claims.now) known.now) (A.kept asked.old)) otherwise.now }
{
    let rule = FlowRule::F6;
    let fault = Fault { number, rule };
    match otherwise {
        Some(list) => {
            let mut behind = Behind::nowhere();
            behind.pass_script(claims, known, list);
            tell_leaves(claims, fault, &behind, asked);
        }
        None => asked.bound(claims, Place::Zero(number), fault, known),
    }
}

fn tell_conditional<A: Asked>(
    claims: &Claims<'_>,
    number: u32,
    known: &Knowledge,
    branches: &[Branch],
    otherwise: &Option<Script>,
    asked: &mut A,
)
    ensures { A.kept asked.new ≡ tells.otherwise_told A.asked (setting claims.now) number (fold (tells.branch_told A.asked (setting claims.now) number) (trail (facts_in (setting claims.now) known.now) (A.kept asked.old)) branches.now) otherwise.now }
{
    let mut left = *known;
    tell_branches(claims, number, &mut left, branches, asked);
    tell_otherwise(claims, number, &left, otherwise, asked);
}

fn tell_group<A: Asked>(
    claims: &Claims<'_>,
    number: u32,
    known: &Knowledge,
    list: &Script,
    asked: &mut A,
)
    ensures { A.kept asked.new ≡ bounds.leaves_told A.asked (setting claims.now) (bounds.fault number F10) (tells.script_left (setting claims.now) (facts_in (setting claims.now) known.now) list.now) (A.kept asked.old) }
{
    let rule = FlowRule::F10;
    let mut behind = Behind::nowhere();
    behind.pass_script(claims, known, list);
    tell_leaves(claims, Fault { number, rule }, &behind, asked);
}

fn tell_subshell<A: Asked>(claims: &Claims<'_>, number: u32, asked: &mut A)
    ensures { A.kept asked.new ≡ bounds.leaves_told A.asked (setting claims.now) (bounds.fault number F11) (both (known_at (setting claims.now) (Before number))) (A.kept asked.old) }
{
    let rule = FlowRule::F11;
    let mut known = Knowledge::NotReached;
    claims.before_into(number, &mut known);
    tell_both(claims, Fault { number, rule }, &known, asked);
}

// The head of a loop is entered from before it and from the end of each turn.
#[tactic(auto, unfolding(sh_rules::specs::Bounds::loop_told))]
fn tell_loop<A: Asked>(
    claims: &Claims<'_>,
    number: u32,
    kind: LoopKind,
    known: &Knowledge,
    condition: &Script,
    body: &Script,
    asked: &mut A,
)
    ensures { A.kept asked.new ≡ tells.loop_left A.asked (setting claims.now) number kind (facts_in (setting claims.now) known.now) condition.now body.now (A.kept asked.old) }
{
    let rule = FlowRule::F7;
    let fault = Fault { number, rule };
    let mut tested = Behind::nowhere();
    tested.pass_script(claims, &claims.head(number), condition);
    let mut turn = Behind::nowhere();
    turn.pass_script(claims, tested.at_turn(kind), body);
    turn.join();
    asked.bound(claims, Place::Head(number), fault, known);
    asked.bound(claims, Place::Head(number), fault, &turn.zero);
    tell_both(claims, fault, tested.at_end(kind), asked);
}

#[tactic(auto, unfolding(sh_rules::specs::Bounds::for_told))]
fn tell_for<A: Asked>(
    claims: &Claims<'_>,
    number: u32,
    name: Span,
    known: &Knowledge,
    body: &Script,
    asked: &mut A,
)
    ensures { A.kept asked.new ≡ tells.for_left A.asked (setting claims.now) number name (facts_in (setting claims.now) known.now) body.now (A.kept asked.old) }
{
    let rule = FlowRule::F8;
    let fault = Fault { number, rule };
    let head = claims.head(number);
    let mut inside = head;
    gain_variable(claims, (&*claims).text(name), &mut inside);
    let mut turn = Behind::nowhere();
    turn.pass_script(claims, &inside, body);
    turn.join();
    asked.bound(claims, Place::Head(number), fault, known);
    asked.bound(claims, Place::Head(number), fault, &turn.zero);
    tell_both(claims, fault, &head, asked);
}

// After words.
fn gain_words(claims: &Claims<'_>, words: &[Word], known: &mut Knowledge)
    ensures { facts_in (setting claims.now) known.new ≡ fold (tells.word_gained (setting claims.now)) (facts_in (setting claims.now) known.old) words.now }
{
    for word in words {
        gain_word(claims, word, known);
    }
}

// Whether no clause is left that one could go on with.
fn is_none_left(rest: &[Clause]) -> bool
    ensures { (b : List ℕ) → result ≡ tells.ends_case b clause.FallThrough rest.now }
{
    match rest {
        [] => true,
        [_, ..] => false,
    }
}

/// Whether a clause leaves what the whole does: if none follows that it could go on with.
#[tactic(auto, using(sh_rules::proofs::TellLemmas::ends))]
pub fn ends_case(end: ClauseEnd, rest: &[Clause]) -> bool
    ensures { (b : List ℕ) → result ≡ tells.ends_case b end rest.now }
{
    match end {
        ClauseEnd::Break => true,
        ClauseEnd::FallThrough => is_none_left(rest),
    }
}

// A clause, after the word and what falls into it.
#[tactic(auto, unfolding(sh_rules::specs::Bounds::clause_told))]
fn tell_clause<A: Asked>(
    claims: &Claims<'_>,
    number: u32,
    is_last: bool,
    left: &Behind,
    asked: &mut A,
)
    ensures { A.kept asked.new ≡ bounds.clause_told A.asked (setting claims.now) number is_last (behind_in (setting claims.now) left.now) (A.kept asked.old) }
{
    if is_last {
        let rule = FlowRule::F9;
        tell_leaves(claims, Fault { number, rule }, left, asked);
    }
}

// A clause, with what falls into the next one.
fn go_through<A: Asked>(
    claims: &Claims<'_>,
    number: u32,
    behind: &Knowledge,
    fallen: &mut Knowledge,
    is_last: bool,
    clause: &Clause,
    asked: &mut A,
)
    ensures { trail (facts_in (setting claims.now) fallen.new) (A.kept asked.new) ≡ tells.clause_left A.asked (setting claims.now) number (facts_in (setting claims.now) behind.now) (trail (facts_in (setting claims.now) fallen.old) (A.kept asked.old)) is_last clause.now }
{
    let mut seen = *behind;
    meet(&mut seen, &*fallen);
    let mut left = Behind::nowhere();
    left.pass_script(claims, &seen, &clause.body);
    tell_clause(claims, number, is_last, &left, asked);
    *fallen = left.falling(clause.end);
}

fn tell_clauses<A: Asked>(
    claims: &Claims<'_>,
    number: u32,
    behind: &Knowledge,
    fallen: &mut Knowledge,
    clauses: &[Clause],
    asked: &mut A,
)
    ensures { trail (facts_in (setting claims.now) fallen.new) (A.kept asked.new) ≡ tells.clauses_left A.asked (setting claims.now) number (facts_in (setting claims.now) behind.now) (trail (facts_in (setting claims.now) fallen.old) (A.kept asked.old)) clauses.now }
{
    let mut rest = clauses;
    while let [clause, others @ ..] = rest {
        let is_last = ends_case(clause.end, others);
        go_through(claims, number, behind, fallen, is_last, clause, asked);
        rest = others;
    }
}

#[tactic(auto, unfolding(sh_rules::specs::Tells::is_star))]
fn is_star(parts: &[Part], script: &[u8]) -> bool
    ensures { result ≡ tells.is_star script.now parts.now }
{
    match parts {
        [Part::Plain(span)] => matches!(span.text(script), b"*"),
        _ => false,
    }
}

fn has_star(clause: &Clause, script: &[u8]) -> bool
    ensures { result ≡ tells.has_star script.now clause.now }
{
    let patterns = clause.patterns.as_slice();
    patterns
        .iter()
        .any(|pattern| is_star(pattern.parts.as_slice(), script))
}

/// Whether some clause matches whatever the word is.
pub fn matches_always(clauses: &[Clause], script: &[u8]) -> bool
    ensures { result ≡ list_any (tells.has_star script.now) clauses.now }
{
    clauses.iter().any(|clause| has_star(clause, script))
}

#[tactic(auto, unfolding(sh_rules::specs::Bounds::unmatched_told))]
fn tell_unmatched<A: Asked>(
    claims: &Claims<'_>,
    number: u32,
    always: bool,
    behind: &Knowledge,
    asked: &mut A,
)
    ensures { A.kept asked.new ≡ bounds.unmatched_told A.asked (setting claims.now) number always (facts_in (setting claims.now) behind.now) (A.kept asked.old) }
{
    if !always {
        let rule = FlowRule::F9;
        asked.bound(claims, Place::Zero(number), Fault { number, rule }, behind);
    }
}

fn tell_case<A: Asked>(
    claims: &Claims<'_>,
    number: u32,
    behind: &Knowledge,
    clauses: &[Clause],
    asked: &mut A,
)
    ensures { A.kept asked.new ≡ tells.case_left A.asked (setting claims.now) number (facts_in (setting claims.now) behind.now) clauses.now (A.kept asked.old) }
{
    let mut fallen = Knowledge::NotReached;
    tell_clauses(claims, number, behind, &mut fallen, clauses, asked);
    let always = matches_always(clauses, claims.script);
    tell_unmatched(claims, number, always, behind, asked);
}

// The body of a function is where it returns.
fn tell_returns<A: Asked>(claims: &Claims<'_>, name: Span, body: u32, asked: &mut A)
    ensures { A.kept asked.new ≡ tells.returns_told A.asked (setting claims.now) (text_of (setting claims.now).script name) body (A.kept asked.old) }
{
    let number = body;
    let rule = FlowRule::F13;
    let fault = Fault { number, rule };
    let mut known = Knowledge::NotReached;
    claims.zero_into(body, &mut known);
    asked.bound(claims, Place::ReturnZero(name), fault, &known);
    claims.nonzero_into(body, &mut known);
    asked.bound(claims, Place::ReturnNonzero(name), fault, &known);
}

// What is known after a definition.
#[tactic(auto, using(sh_rules::proofs::TellLemmas::defined_known))]
fn define(claims: &Claims<'_>, name: &[u8], known: &mut Knowledge)
    ensures { facts_in (setting claims.now) known.new ≡ bounds.defined (setting claims.now) name.now (facts_in (setting claims.now) known.old) }
{
    known.define(claims.names, name);
}

fn tell_define<A: Asked>(
    claims: &Claims<'_>,
    number: u32,
    name: Span,
    body: &Command,
    asked: &mut A,
)
    ensures { A.kept asked.new ≡ tells.define_left A.asked (setting claims.now) number (text_of (setting claims.now).script name) body.now (A.kept asked.old) }
{
    let rule = FlowRule::F13;
    let mut behind = Knowledge::NotReached;
    claims.before_into(number, &mut behind);
    define(claims, (&*claims).text(name), &mut behind);
    asked.bound(claims, Place::Zero(number), Fault { number, rule }, &behind);
    tell_returns(claims, name, body.number, asked);
}

/// What a compound command claims, after whose redirections this is known; of a simple command
/// nothing.
#[tactic(auto, using(sh_rules::proofs::TellLemmas::told_kinds), unfolding(sh_rules::specs::Tells::for_words_gained))]
pub fn tell_compound<A: Asked>(
    claims: &Claims<'_>,
    number: u32,
    known: &Knowledge,
    kind: &Kind,
    asked: &mut A,
)
    ensures { A.kept asked.new ≡ tells.kind_told A.asked (setting claims.now) number (facts_in (setting claims.now) known.now) kind.now (A.kept asked.old) }
{
    match kind {
        Kind::Simple(_) => (),
        Kind::Group(list) => tell_group(claims, number, known, list, asked),
        Kind::Subshell(_) => tell_subshell(claims, number, asked),
        Kind::Cond {
            branches,
            otherwise,
        } => tell_conditional(claims, number, known, branches.as_slice(), otherwise, asked),
        Kind::Loop {
            kind: turns,
            condition,
            body,
        } => tell_loop(claims, number, *turns, known, condition, body, asked),
        Kind::For { name, words, body } => {
            let mut behind = *known;
            if let Some(words) = words {
                gain_words(claims, words.as_slice(), &mut behind);
            }
            tell_for(claims, number, *name, &behind, body, asked);
        }
        Kind::Branches { word, clauses } => {
            let mut behind = *known;
            gain_word(claims, word, &mut behind);
            tell_case(claims, number, &behind, clauses.as_slice(), asked);
        }
        Kind::Define { name, body } => tell_define(claims, number, *name, body.get(), asked),
    }
}

/// If a redirection of a compound command fails, what was known before it is known.
#[tactic(auto, unfolding(sh_rules::specs::Bounds::redirects_told))]
pub fn tell_redirects<A: Asked>(
    claims: &Claims<'_>,
    number: u32,
    is_redirected: bool,
    asked: &mut A,
)
    ensures { A.kept asked.new ≡ bounds.redirects_told A.asked (setting claims.now) number is_redirected (A.kept asked.old) }
{
    if is_redirected {
        let rule = FlowRule::F10;
        let fault = Fault { number, rule };
        let mut known = Knowledge::NotReached;
        claims.before_into(number, &mut known);
        asked.bound(claims, Place::Nonzero(number), fault, &known);
    }
}
