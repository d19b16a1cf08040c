//! A walk over the commands of a script, those in its words included. It has the rule that enters
//! each, what is round it and what is known there (XCU 2.9, 2.13).
ghost use Rattle.std.specs.Prelude.{◌≡◌, fold};
ghost use Rattle.sh_tree.specs.standard.program.Trees.{script_of};
ghost use Rattle.sh_domain.specs.Facts.{meet};
ghost use Rattle.sh_rules.specs.Behind.{turns};
ghost use Rattle.sh_rules.specs.Settings.{Setting, without_job};
ghost use Rattle.sh_rules.specs.Walked as spec;
ghost use Rattle.sh_rules.specs.Walked.{Met, trail};
ghost use Rattle.sh_rules.specs.Steps as steps;
ghost use Rattle.sh_rules.specs.Walks as walks;
ghost use Rattle.sh_rules.specs.Walks.{facts_in, setting};
ghost use Rattle.sh_walks.specs.Lone.{inside_kept};

use crate::lone::is_lone;
use sh_domain::{FlowRule, Knowledge};
use sh_rules::{
    Around, Behind, Claims, Course, alone, begun, enter_operator, gain_action, gain_assigned,
    gain_variable, gain_word, in_function, is_settled, pipe_behind,
};
use sh_tree::{
    AndOr, Binary, Branch, Clause, Command, Element, Expr, Item, Items, Kind, Link, LoopKind,
    ParameterOperator, Part, Pipe, Redirect, Script, Span, Subject, Target, Word,
};

/// What is done at each command of a script.
pub trait Visitor {
    // What is kept of the commands that were visited.
    ghost Kept: { Type 0 };

    ghost kept: { Self → Kept };

    // What is kept with one command more.
    ghost with_met: { Setting → Kept → Met → Kept };

    /// Visits a command, with the rule that enters it, what is round it and what is known there.
    fn visit(
        &mut self,
        claims: &Claims<'_>,
        by: FlowRule,
        around: &Around<'_>,
        known: &Knowledge,
        command: &Command,
    )
        ensures { kept self.new ≡ with_met (setting claims.now) (kept self.old) (steps.met_in (setting claims.now) by around.now known.now command.now) };
}

#[tactic(auto, using(sh_rules::proofs::GainLemmas::operand_elements))]
fn gain_operand(claims: &Claims<'_>, element: &Element, known: &mut Knowledge)
    ensures { facts_in (setting claims.now) known.new ≡ steps.element_gained (setting claims.now) (facts_in (setting claims.now) known.old) element.now }
{
    match element {
        Element::Assignment { .. } => (),
        Element::Word(word) => gain_word(claims, word, known),
        Element::Redirection(_) => (),
    }
}

// After the words of a simple command.
fn gain_operands(claims: &Claims<'_>, elements: &[Element], known: &mut Knowledge)
    ensures { facts_in (setting claims.now) known.new ≡ fold (steps.element_gained (setting claims.now)) (facts_in (setting claims.now) known.old) elements.now }
{
    for element in elements {
        gain_operand(claims, element, known);
    }
}

// A process that is started may have no `!`.
#[tactic(auto, unfolding(sh_rules::specs::Settings::without_job, sh_rules::specs::Walks::facts_in, sh_rules::specs::Walks::setting))]
fn lose_job(claims: &Claims<'_>, known: &mut Knowledge)
    ensures { facts_in (setting claims.now) known.new ≡ without_job (setting claims.now) (facts_in (setting claims.now) known.old) }
{
    known.lose_variable(claims.names, b"!");
}

// Leaves of what is known here what is known there too.
#[tactic(auto, unfolding(sh_rules::specs::Walks::facts_in))]
fn meet(known: &mut Knowledge, other: &Knowledge)
    ensures { (x : Setting) → facts_in x known.new ≡ meet (facts_in x known.old) (facts_in x other.now) }
{
    known.meet(other);
}

#[cycle(walk)]
#[tactic(auto, using(sh_rules::proofs::WalkLemmas::script_out))]
fn walk_script<V: Visitor>(
    claims: &Claims<'_>,
    around: &Around<'_>,
    course: &mut Course,
    list: &Script,
    visitor: &mut V,
)
    ensures { steps.ran (setting claims.now) course.new (V.kept visitor.new) ≡ steps.script_ran (setting claims.now) (V.with_met (setting claims.now)) (walks.around (setting claims.now).script around.now) (steps.ran (setting claims.now) course.old (V.kept visitor.old)) list.now }
{
    walk_items(claims, around, course, list.items.as_slice(), visitor);
}

#[cycle(walk)]
fn walk_items<V: Visitor>(
    claims: &Claims<'_>,
    around: &Around<'_>,
    course: &mut Course,
    items: &[Item],
    visitor: &mut V,
)
    ensures { steps.ran (setting claims.now) course.new (V.kept visitor.new) ≡ fold (steps.item_step (setting claims.now) (V.with_met (setting claims.now)) (walks.around (setting claims.now).script around.now)) (steps.ran (setting claims.now) course.old (V.kept visitor.old)) items.now }
{
    for item in items {
        walk_item(claims, around, course, item, visitor);
    }
}

// Goes on after an item, if what is known at zero is known whatever the status was.
fn pass_joined(claims: &Claims<'_>, behind: &mut Behind, item: &Item)
    ensures { walks.behind_in (setting claims.now) behind.new ≡ walks.behind_item (setting claims.now) (facts_in (setting claims.now) behind.old.zero) item.now }
{
    if is_settled(item) {
        behind.pass_item(claims, item);
    } else {
        behind.pass_joined(claims, item);
    }
}

#[cycle(walk)]
#[tactic(auto, using(sh_rules::proofs::WalkLemmas::item_out))]
fn walk_item<V: Visitor>(
    claims: &Claims<'_>,
    around: &Around<'_>,
    course: &mut Course,
    item: &Item,
    visitor: &mut V,
)
    ensures { steps.ran (setting claims.now) course.new (V.kept visitor.new) ≡ steps.item_step (setting claims.now) (V.with_met (setting claims.now)) (walks.around (setting claims.now).script around.now) (steps.ran (setting claims.now) course.old (V.kept visitor.old)) item.now }
{
    course.behind.join();
    let known = &course.behind.zero;
    enter_item(claims, around, course.by, known, item, visitor);
    pass_joined(claims, &mut course.behind, item);
    course.by = FlowRule::F2;
}

// The list of an item before which this is known in any case.
#[cycle(walk)]
#[tactic(auto, using(sh_rules::proofs::WalkLemmas::foreground, sh_rules::proofs::WalkLemmas::background))]
fn enter_item<V: Visitor>(
    claims: &Claims<'_>,
    around: &Around<'_>,
    by: FlowRule,
    known: &Knowledge,
    item: &Item,
    visitor: &mut V,
)
    ensures { V.kept visitor.new ≡ steps.item_kept (setting claims.now) (V.with_met (setting claims.now)) by (walks.around (setting claims.now).script around.now) (facts_in (setting claims.now) known.now) (V.kept visitor.old) item.now }
{
    if item.background {
        let inner = alone();
        let mut seen = *known;
        lose_job(claims, &mut seen);
        walk_and_or(claims, FlowRule::F11, &inner, &seen, &item.list, visitor);
    } else {
        walk_and_or(claims, by, around, known, &item.list, visitor);
    }
}

#[cycle(walk)]
#[tactic(auto, using(sh_rules::proofs::WalkLemmas::and_or_out, sh_rules::proofs::WalkLemmas::no_links))]
fn walk_and_or<V: Visitor>(
    claims: &Claims<'_>,
    by: FlowRule,
    around: &Around<'_>,
    known: &Knowledge,
    list: &AndOr,
    visitor: &mut V,
)
    ensures { V.kept visitor.new ≡ steps.and_or_kept (setting claims.now) (V.with_met (setting claims.now)) by (walks.around (setting claims.now).script around.now) (facts_in (setting claims.now) known.now) (V.kept visitor.old) list.now }
{
    walk_pipe(claims, by, around, known, &list.first, visitor);
    match list.rest.as_slice() {
        [] => (),
        links => {
            let mut course = Course {
                by: FlowRule::F3,
                behind: pipe_behind(claims, known, &list.first),
            };
            walk_links(claims, around, &mut course, links, visitor);
        }
    }
}

#[cycle(walk)]
fn walk_links<V: Visitor>(
    claims: &Claims<'_>,
    around: &Around<'_>,
    course: &mut Course,
    links: &[(Link, Pipe)],
    visitor: &mut V,
)
    ensures { steps.ran (setting claims.now) course.new (V.kept visitor.new) ≡ fold (steps.link_step (setting claims.now) (V.with_met (setting claims.now)) (walks.around (setting claims.now).script around.now)) (steps.ran (setting claims.now) course.old (V.kept visitor.old)) links.now }
{
    for link in links {
        walk_link(claims, around, course, link.0, &link.1, visitor);
    }
}

#[cycle(walk)]
#[tactic(auto, using(sh_rules::proofs::WalkLemmas::link_out))]
fn walk_link<V: Visitor>(
    claims: &Claims<'_>,
    around: &Around<'_>,
    course: &mut Course,
    link: Link,
    pipe: &Pipe,
    visitor: &mut V,
)
    ensures { steps.ran (setting claims.now) course.new (V.kept visitor.new) ≡ steps.link_step (setting claims.now) (V.with_met (setting claims.now)) (walks.around (setting claims.now).script around.now) (steps.ran (setting claims.now) course.old (V.kept visitor.old)) (link, pipe.now) }
{
    walk_pipe(
        claims,
        course.by,
        around,
        course.behind.at_link(link),
        pipe,
        visitor,
    );
    course.behind.pass_link(claims, link, pipe);
}

#[cycle(walk)]
#[tactic(auto, using(sh_rules::proofs::WalkLemmas::no_parts, sh_rules::proofs::WalkLemmas::one_part, sh_rules::proofs::WalkLemmas::more_parts))]
fn walk_pipe<V: Visitor>(
    claims: &Claims<'_>,
    by: FlowRule,
    around: &Around<'_>,
    known: &Knowledge,
    pipe: &Pipe,
    visitor: &mut V,
)
    ensures { V.kept visitor.new ≡ steps.pipe_kept (setting claims.now) (V.with_met (setting claims.now)) by (walks.around (setting claims.now).script around.now) (facts_in (setting claims.now) known.now) (V.kept visitor.old) pipe.now }
{
    match pipe.parts.as_slice() {
        [] => (),
        [command] => walk_command(claims, by, around, known, command, visitor),
        [_, _, ..] => {
            let inner = around.round_parts();
            let mut seen = *known;
            lose_job(claims, &mut seen);
            let parts = pipe.parts.as_slice();
            walk_commands(claims, FlowRule::F12, &inner, &seen, parts, visitor);
        }
    }
}

#[cycle(walk)]
fn walk_commands<V: Visitor>(
    claims: &Claims<'_>,
    by: FlowRule,
    around: &Around<'_>,
    known: &Knowledge,
    commands: &[Command],
    visitor: &mut V,
)
    ensures { V.kept visitor.new ≡ fold (steps.command_kept (setting claims.now) (V.with_met (setting claims.now)) by (walks.around (setting claims.now).script around.now) (facts_in (setting claims.now) known.now)) (V.kept visitor.old) commands.now }
{
    for command in commands {
        walk_command(claims, by, around, known, command, visitor);
    }
}

#[cycle(walk)]
fn walk_command<V: Visitor>(
    claims: &Claims<'_>,
    by: FlowRule,
    around: &Around<'_>,
    known: &Knowledge,
    command: &Command,
    visitor: &mut V,
)
    ensures { V.kept visitor.new ≡ steps.command_kept (setting claims.now) (V.with_met (setting claims.now)) by (walks.around (setting claims.now).script around.now) (facts_in (setting claims.now) known.now) (V.kept visitor.old) command.now }
{
    visitor.visit(claims, by, around, known, command);
    if !is_lone(command) {
        walk_inside(claims, around, command, visitor);
    }
}

// The commands in a command. It is not inlined: each visit would fill its local.
#[cycle(walk)]
#[inline(never)]
fn walk_inside<V: Visitor>(
    claims: &Claims<'_>,
    around: &Around<'_>,
    command: &Command,
    visitor: &mut V,
)
    ensures { V.kept visitor.new ≡ inside_kept (setting claims.now) (V.with_met (setting claims.now)) (walks.around (setting claims.now).script around.now) (V.kept visitor.old) command.now }
{
    let mut inside = Knowledge::NotReached;
    claims.before_into(command.number, &mut inside);
    walk_redirects(claims, &mut inside, command.redirects.as_slice(), visitor);
    walk_kind(
        claims,
        around,
        command.number,
        &mut inside,
        &command.kind,
        visitor,
    );
}

#[cycle(walk)]
fn walk_redirects<V: Visitor>(
    claims: &Claims<'_>,
    known: &mut Knowledge,
    redirects: &[Redirect],
    visitor: &mut V,
)
    ensures { trail (facts_in (setting claims.now) known.new) (V.kept visitor.new) ≡ fold (steps.redirect_step (setting claims.now) (V.with_met (setting claims.now))) (trail (facts_in (setting claims.now) known.old) (V.kept visitor.old)) redirects.now }
{
    for redirect in redirects {
        walk_target(claims, known, &redirect.target, visitor);
    }
}

#[cycle(walk)]
#[tactic(auto, using(sh_rules::proofs::WalkLemmas::targets))]
fn walk_target<V: Visitor>(
    claims: &Claims<'_>,
    known: &mut Knowledge,
    target: &Target,
    visitor: &mut V,
)
    ensures { trail (facts_in (setting claims.now) known.new) (V.kept visitor.new) ≡ steps.target_step (setting claims.now) (V.with_met (setting claims.now)) (trail (facts_in (setting claims.now) known.old) (V.kept visitor.old)) target.now }
{
    match target {
        Target::File(_, word) => walk_word(claims, known, word, visitor),
        Target::Here(here) => walk_word(claims, known, &here.body, visitor),
    }
}

#[cycle(walk)]
#[tactic(auto, using(sh_rules::proofs::WalkLemmas::kinds), unfolding(sh_rules::specs::Steps::for_words_kept))]
fn walk_kind<V: Visitor>(
    claims: &Claims<'_>,
    around: &Around<'_>,
    number: u32,
    known: &mut Knowledge,
    kind: &Kind,
    visitor: &mut V,
)
    ensures { V.kept visitor.new ≡ steps.kind_kept (setting claims.now) (V.with_met (setting claims.now)) (walks.around (setting claims.now).script around.now) number (trail (facts_in (setting claims.now) known.old) (V.kept visitor.old)) kind.now }
{
    match kind {
        Kind::Simple(elements) => walk_simple(claims, known, elements.as_slice(), visitor),
        Kind::Group(list) => walk_from(claims, around, FlowRule::F10, &*known, list, visitor),
        Kind::Subshell(list) => walk_subshell(claims, number, list, visitor),
        Kind::Cond {
            branches,
            otherwise,
        } => {
            walk_branches(claims, around, known, branches.as_slice(), visitor);
            walk_otherwise(claims, around, &*known, otherwise, visitor);
        }
        Kind::Loop {
            kind: turns,
            condition,
            body,
        } => {
            let inner = (&*around).in_loop(number);
            let turn = walk_condition(claims, &inner, number, *turns, condition, visitor);
            walk_from(claims, &inner, FlowRule::F7, &turn, body, visitor);
        }
        Kind::For { name, words, body } => {
            if let Some(words) = words {
                walk_words(claims, known, words.as_slice(), visitor);
            }
            walk_for(claims, around, number, *name, body, visitor);
        }
        Kind::Branches { word, clauses } => {
            walk_word(claims, known, word, visitor);
            walk_case(claims, around, &*known, clauses.as_slice(), visitor);
        }
        Kind::Define { name, body } => walk_definition(claims, *name, body.get(), visitor),
    }
}

#[cycle(walk)]
fn walk_subshell<V: Visitor>(claims: &Claims<'_>, number: u32, list: &Script, visitor: &mut V)
    ensures { V.kept visitor.new ≡ steps.subshell_kept (setting claims.now) (V.with_met (setting claims.now)) number (V.kept visitor.old) list.now }
{
    let outside = alone();
    let mut seen = Knowledge::NotReached;
    claims.before_into(number, &mut seen);
    lose_job(claims, &mut seen);
    walk_from(claims, &outside, FlowRule::F11, &seen, list, visitor);
}

#[cycle(walk)]
fn walk_definition<V: Visitor>(claims: &Claims<'_>, name: Span, body: &Command, visitor: &mut V)
    ensures { V.kept visitor.new ≡ steps.definition_kept (setting claims.now) (V.with_met (setting claims.now)) name (V.kept visitor.old) body.now }
{
    let entry = claims.function_entry((&*claims).text(name));
    let inner = in_function(name);
    walk_command(claims, FlowRule::F13, &inner, &entry, body, visitor);
}

#[cycle(walk)]
#[tactic(auto, using(sh_rules::proofs::WalkLemmas::from_made))]
fn walk_from<V: Visitor>(
    claims: &Claims<'_>,
    around: &Around<'_>,
    by: FlowRule,
    known: &Knowledge,
    list: &Script,
    visitor: &mut V,
)
    ensures { V.kept visitor.new ≡ steps.from_kept (setting claims.now) (V.with_met (setting claims.now)) (walks.around (setting claims.now).script around.now) by (facts_in (setting claims.now) known.now) (V.kept visitor.old) list.now }
{
    let mut course = begun(by, known);
    walk_script(claims, around, &mut course, list, visitor);
}

// The condition of a loop, and what its body is entered with.
#[cycle(walk)]
#[tactic(auto, using(sh_rules::proofs::WalkLemmas::condition_known, sh_rules::proofs::WalkLemmas::condition_kept))]
fn walk_condition<V: Visitor>(
    claims: &Claims<'_>,
    around: &Around<'_>,
    number: u32,
    kind: LoopKind,
    condition: &Script,
    visitor: &mut V,
) -> Knowledge
    ensures known { facts_in (setting claims.now) result ≡ turns kind (steps.condition_ran (setting claims.now) (V.with_met (setting claims.now)) (walks.around (setting claims.now).script around.now) number (V.kept visitor.old) condition.now).behind }
    ensures kept { V.kept visitor.new ≡ (steps.condition_ran (setting claims.now) (V.with_met (setting claims.now)) (walks.around (setting claims.now).script around.now) number (V.kept visitor.old) condition.now).kept }
{
    let head = claims.head(number);
    let mut course = begun(FlowRule::F7, &head);
    walk_script(claims, around, &mut course, condition, visitor);
    *course.behind.at_turn(kind)
}

#[cycle(walk)]
fn walk_for<V: Visitor>(
    claims: &Claims<'_>,
    around: &Around<'_>,
    number: u32,
    name: Span,
    body: &Script,
    visitor: &mut V,
)
    ensures { V.kept visitor.new ≡ steps.for_kept (setting claims.now) (V.with_met (setting claims.now)) (walks.around (setting claims.now).script around.now) number name (V.kept visitor.old) body.now }
{
    let inner = (&*around).in_loop(number);
    let mut turn = claims.head(number);
    gain_variable(claims, (&*claims).text(name), &mut turn);
    walk_from(claims, &inner, FlowRule::F8, &turn, body, visitor);
}

#[cycle(walk)]
fn walk_words<V: Visitor>(
    claims: &Claims<'_>,
    known: &mut Knowledge,
    words: &[Word],
    visitor: &mut V,
)
    ensures { V.kept visitor.new ≡ (fold (steps.word_step (setting claims.now) (V.with_met (setting claims.now))) (trail (facts_in (setting claims.now) known.old) (V.kept visitor.old)) words.now).kept }
{
    for word in words {
        walk_word(claims, known, word, visitor);
    }
}

#[cycle(walk)]
fn walk_simple<V: Visitor>(
    claims: &Claims<'_>,
    known: &mut Knowledge,
    elements: &[Element],
    visitor: &mut V,
)
    ensures { V.kept visitor.new ≡ steps.simple_kept (setting claims.now) (V.with_met (setting claims.now)) (trail (facts_in (setting claims.now) known.old) (V.kept visitor.old)) elements.now }
{
    let mut behind = *known;
    gain_operands(claims, elements, &mut behind);
    walk_elements(claims, known, &behind, elements, visitor);
}

#[cycle(walk)]
fn walk_elements<V: Visitor>(
    claims: &Claims<'_>,
    known: &mut Knowledge,
    behind: &Knowledge,
    elements: &[Element],
    visitor: &mut V,
)
    ensures { V.kept visitor.new ≡ (fold (steps.element_step (setting claims.now) (V.with_met (setting claims.now)) (facts_in (setting claims.now) behind.now)) (trail (facts_in (setting claims.now) known.old) (V.kept visitor.old)) elements.now).kept }
{
    for element in elements {
        walk_element(claims, known, behind, element, visitor);
    }
}

// An element: values and redirections are judged after all words.
#[cycle(walk)]
#[tactic(auto, using(sh_rules::proofs::WalkLemmas::elements))]
fn walk_element<V: Visitor>(
    claims: &Claims<'_>,
    known: &mut Knowledge,
    behind: &Knowledge,
    element: &Element,
    visitor: &mut V,
)
    ensures { trail (facts_in (setting claims.now) known.new) (V.kept visitor.new) ≡ steps.element_step (setting claims.now) (V.with_met (setting claims.now)) (facts_in (setting claims.now) behind.now) (trail (facts_in (setting claims.now) known.old) (V.kept visitor.old)) element.now }
{
    match element {
        Element::Assignment { value, .. } => walk_aside(claims, behind, value, visitor),
        Element::Word(word) => walk_word(claims, known, word, visitor),
        Element::Redirection(redirect) => {
            let mut aside = *behind;
            walk_target(claims, &mut aside, &redirect.target, visitor);
        }
    }
}

#[cycle(walk)]
fn walk_branches<V: Visitor>(
    claims: &Claims<'_>,
    around: &Around<'_>,
    known: &mut Knowledge,
    branches: &[Branch],
    visitor: &mut V,
)
    ensures { trail (facts_in (setting claims.now) known.new) (V.kept visitor.new) ≡ fold (steps.branch_step (setting claims.now) (V.with_met (setting claims.now)) (walks.around (setting claims.now).script around.now)) (trail (facts_in (setting claims.now) known.old) (V.kept visitor.old)) branches.now }
{
    for branch in branches {
        walk_branch(claims, around, known, branch, visitor);
    }
}

#[cycle(walk)]
#[tactic(auto, using(sh_rules::proofs::WalkLemmas::branch_made))]
fn walk_branch<V: Visitor>(
    claims: &Claims<'_>,
    around: &Around<'_>,
    known: &mut Knowledge,
    branch: &Branch,
    visitor: &mut V,
)
    ensures { trail (facts_in (setting claims.now) known.new) (V.kept visitor.new) ≡ steps.branch_step (setting claims.now) (V.with_met (setting claims.now)) (walks.around (setting claims.now).script around.now) (trail (facts_in (setting claims.now) known.old) (V.kept visitor.old)) branch.now }
{
    let mut course = begun(FlowRule::F6, &*known);
    walk_script(claims, around, &mut course, &branch.condition, visitor);
    let zero = &course.behind.zero;
    walk_from(claims, around, FlowRule::F6, zero, &branch.body, visitor);
    *known = course.behind.nonzero;
}

#[cycle(walk)]
#[tactic(auto, unfolding(sh_rules::specs::Steps::otherwise_kept))]
fn walk_otherwise<V: Visitor>(
    claims: &Claims<'_>,
    around: &Around<'_>,
    known: &Knowledge,
    otherwise: &Option<Script>,
    visitor: &mut V,
)
    ensures { V.kept visitor.new ≡ steps.otherwise_kept (setting claims.now) (V.with_met (setting claims.now)) (walks.around (setting claims.now).script around.now) (trail (facts_in (setting claims.now) known.now) (V.kept visitor.old)) otherwise.now }
{
    match otherwise {
        Some(list) => walk_from(claims, around, FlowRule::F6, known, list, visitor),
        None => (),
    }
}

#[cycle(walk)]
#[tactic(auto, using(sh_rules::proofs::BehindLemmas::nothing_known))]
fn walk_case<V: Visitor>(
    claims: &Claims<'_>,
    around: &Around<'_>,
    behind: &Knowledge,
    clauses: &[Clause],
    visitor: &mut V,
)
    ensures { V.kept visitor.new ≡ (fold (steps.clause_step (setting claims.now) (V.with_met (setting claims.now)) (walks.around (setting claims.now).script around.now) (facts_in (setting claims.now) behind.now)) (spec.nothing_falls (V.kept visitor.old)) clauses.now).kept }
{
    let mut fallen = Knowledge::NotReached;
    for clause in clauses {
        walk_clause(claims, around, behind, &mut fallen, clause, visitor);
    }
}

#[cycle(walk)]
#[tactic(auto, using(sh_rules::proofs::WalkLemmas::clause_made))]
fn walk_clause<V: Visitor>(
    claims: &Claims<'_>,
    around: &Around<'_>,
    behind: &Knowledge,
    fallen: &mut Knowledge,
    clause: &Clause,
    visitor: &mut V,
)
    ensures { trail (facts_in (setting claims.now) fallen.new) (V.kept visitor.new) ≡ steps.clause_step (setting claims.now) (V.with_met (setting claims.now)) (walks.around (setting claims.now).script around.now) (facts_in (setting claims.now) behind.now) (trail (facts_in (setting claims.now) fallen.old) (V.kept visitor.old)) clause.now }
{
    walk_patterns(claims, behind, clause.patterns.as_slice(), visitor);
    let mut seen = *behind;
    meet(&mut seen, &*fallen);
    let mut course = begun(FlowRule::F9, &seen);
    walk_script(claims, around, &mut course, &clause.body, visitor);
    *fallen = course.behind.falling(clause.end);
}

#[cycle(walk)]
fn walk_patterns<V: Visitor>(
    claims: &Claims<'_>,
    behind: &Knowledge,
    patterns: &[Word],
    visitor: &mut V,
)
    ensures { V.kept visitor.new ≡ fold (steps.pattern_step (setting claims.now) (V.with_met (setting claims.now)) (facts_in (setting claims.now) behind.now)) (V.kept visitor.old) patterns.now }
{
    for pattern in patterns {
        walk_aside(claims, behind, pattern, visitor);
    }
}

// A word: what it sets is not counted.
#[cycle(walk)]
fn walk_aside<V: Visitor>(claims: &Claims<'_>, known: &Knowledge, word: &Word, visitor: &mut V)
    ensures { V.kept visitor.new ≡ steps.pattern_step (setting claims.now) (V.with_met (setting claims.now)) (facts_in (setting claims.now) known.now) (V.kept visitor.old) word.now }
{
    let mut aside = *known;
    walk_word(claims, &mut aside, word, visitor);
}

#[cycle(walk)]
fn walk_word<V: Visitor>(claims: &Claims<'_>, known: &mut Knowledge, word: &Word, visitor: &mut V)
    ensures { trail (facts_in (setting claims.now) known.new) (V.kept visitor.new) ≡ steps.word_step (setting claims.now) (V.with_met (setting claims.now)) (trail (facts_in (setting claims.now) known.old) (V.kept visitor.old)) word.now }
{
    walk_parts(claims, known, word.parts.as_slice(), visitor);
}

#[cycle(walk)]
fn walk_parts<V: Visitor>(
    claims: &Claims<'_>,
    known: &mut Knowledge,
    parts: &[Part],
    visitor: &mut V,
)
    ensures { trail (facts_in (setting claims.now) known.new) (V.kept visitor.new) ≡ fold (steps.part_step (setting claims.now) (V.with_met (setting claims.now))) (trail (facts_in (setting claims.now) known.old) (V.kept visitor.old)) parts.now }
{
    for part in parts {
        walk_part(claims, known, part, visitor);
    }
}

#[cycle(walk)]
#[tactic(auto, using(sh_rules::proofs::WalkLemmas::parts))]
fn walk_part<V: Visitor>(claims: &Claims<'_>, known: &mut Knowledge, part: &Part, visitor: &mut V)
    ensures { trail (facts_in (setting claims.now) known.new) (V.kept visitor.new) ≡ steps.part_step (setting claims.now) (V.with_met (setting claims.now)) (trail (facts_in (setting claims.now) known.old) (V.kept visitor.old)) part.now }
{
    match part {
        Part::Double(_, parts) => walk_parts(claims, known, parts.as_slice(), visitor),
        Part::Param(param) => {
            walk_operator(claims, known, param.subject, &param.operator, visitor)
        }
        Part::Arith(_, expression) => {
            walk_expression(claims, known, expression.get(), visitor);
            gain_assigned(claims, expression.get(), known);
        }
        Part::Command(_, _, list) => {
            let outside = alone();
            let mut inside = *known;
            lose_job(claims, &mut inside);
            walk_from(claims, &outside, FlowRule::F11, &inside, list, visitor);
        }
        Part::Plain(_) => (),
        Part::Escaped(_) => (),
        Part::Single(_, _) => (),
        Part::Tilde(_) => (),
        Part::Joined(_) => (),
    }
}

#[cycle(walk)]
#[tactic(auto, using(sh_rules::proofs::WalkLemmas::operators))]
fn walk_operator<V: Visitor>(
    claims: &Claims<'_>,
    known: &mut Knowledge,
    subject: Subject,
    operator: &ParameterOperator,
    visitor: &mut V,
)
    ensures { trail (facts_in (setting claims.now) known.new) (V.kept visitor.new) ≡ steps.operator_step (setting claims.now) (V.with_met (setting claims.now)) (trail (facts_in (setting claims.now) known.old) (V.kept visitor.old)) subject operator.now }
{
    match operator {
        ParameterOperator::Value => (),
        ParameterOperator::Length => (),
        ParameterOperator::Use { action, word, .. } => {
            let mut inside = *known;
            enter_operator(claims, *action, subject, &mut inside);
            walk_word(claims, &mut inside, word, visitor);
            gain_action(claims, *action, subject, known);
        }
        ParameterOperator::Remove { pattern, .. } => walk_aside(claims, &*known, pattern, visitor),
    }
}

#[cycle(walk)]
fn walk_operands<V: Visitor>(
    claims: &Claims<'_>,
    known: &mut Knowledge,
    rest: &[(Binary, Expr)],
    visitor: &mut V,
)
    ensures { trail (facts_in (setting claims.now) known.new) (V.kept visitor.new) ≡ fold (steps.operand_step (setting claims.now) (V.with_met (setting claims.now))) (trail (facts_in (setting claims.now) known.old) (V.kept visitor.old)) rest.now }
{
    for link in rest {
        walk_expression(claims, known, &link.1, visitor);
    }
}

#[cycle(walk)]
#[tactic(auto, using(sh_rules::proofs::WalkLemmas::expressions))]
fn walk_expression<V: Visitor>(
    claims: &Claims<'_>,
    known: &mut Knowledge,
    expression: &Expr,
    visitor: &mut V,
)
    ensures { trail (facts_in (setting claims.now) known.new) (V.kept visitor.new) ≡ steps.expression_step (setting claims.now) (V.with_met (setting claims.now)) (trail (facts_in (setting claims.now) known.old) (V.kept visitor.old)) expression.now }
{
    match expression {
        Expr::Constant(_) => (),
        Expr::Variable(_) => (),
        Expr::Expansion(part) => walk_part(claims, known, part, visitor),
        Expr::Parenthesis(inner) => walk_expression(claims, known, inner.get(), visitor),
        Expr::Unary { operand, .. } => walk_expression(claims, known, operand.get(), visitor),
        Expr::Chain { first, rest } => {
            walk_expression(claims, known, first.get(), visitor);
            walk_operands(claims, known, rest.as_slice(), visitor);
        }
        Expr::Choice { condition, yes, no } => {
            walk_expression(claims, known, condition.get(), visitor);
            walk_expression(claims, known, yes.get(), visitor);
            walk_expression(claims, known, no.get(), visitor);
        }
        Expr::Assign { value, .. } => walk_expression(claims, known, value.get(), visitor),
    }
}

/// Visits each command of a script, those in its words included, with this known at its start. A
/// command comes before those in its redirections and those in it. The walk takes no memory.
#[tactic(auto, using(sh_rules::proofs::WalkLemmas::whole_out))]
pub fn walk<V: Visitor>(claims: &Claims<'_>, start: &Knowledge, list: &Script, visitor: &mut V)
    ensures { V.kept visitor.new ≡ spec.script_walked (setting claims.now) (V.with_met (setting claims.now)) (facts_in (setting claims.now) start.now) (V.kept visitor.old) (script_of (setting claims.now).script list.now) }
{
    let outside = alone();
    walk_from(claims, &outside, FlowRule::F1, start, list, visitor);
}
