//! A sweep of the search over the commands of a list. It lowers each command where it comes to it,
//! before those after it (XCU 2.9).
ghost use Rattle.std.specs.Prelude.{◌∷◌, ◌<◌, ◌≤◌, ◌-◌, ℕ, List, true, length, take, drop, IfOk};
ghost use Rattle.sh_tree.specs.standard.Tree.{text_of};
ghost use Rattle.sh_tree.specs.declared.tree.Item as tree;
ghost use Rattle.sh_tree.specs.Lists.{items_from};
ghost use Rattle.sh_tree.specs.standard.program.Syntax as p;
ghost use Rattle.sh_tree.specs.standard.program.Trees as trees;
ghost use Rattle.sh_domain.specs.declared.rule.FlowRule.TheVariants.{F11, F12};
ghost use Rattle.sh_domain.specs.Entries as entries;
ghost use Rattle.sh_domain.specs.Entries.{items_after, kind_entered, part_around};
ghost use Rattle.sh_domain.specs.Facts.{Facts};
ghost use Rattle.sh_domain.specs.Knowledge.{knowledge_facts};
ghost use Rattle.sh_domain.specs.Views.{After, Seen, without_job};
ghost use Rattle.sh_rules.specs.Walks as walks;
ghost use Rattle.sh_sweeps.specs.Sweeps.{AreItems, AreParts, ArePassed, IsAndOr, IsCommand, IsInside, IsKind, IsList, IsPart, IsPassed, IsPipe, Knows, KnowsBehind, known_behind};
ghost use Rattle.sh_drafts.specs.Ready.{IsReady, IsSwept};

use crate::bodies::{is_called_again, sweep_called};
use crate::choices::{sweep_case, sweep_cond};
use crate::links::sweep_joined;
use crate::looks::{handed_on, is_before_next, traced};
use crate::own::{is_entered, lower_behind, lower_command};
use crate::rounds::sweep_rounds;
use crate::words::{sweep_elements, sweep_for_words, sweep_redirections};
use sh_domain::{FlowRule, Knowledge};
use sh_drafts::inner::is_in_elements;
use sh_drafts::{Draft, Subject, look, look_again};
use sh_rules::{Around, Course, alone, begun, in_function, meet};
use sh_sweeps::known::{entry_of, head_of, pass_all, pass_on, process_of, started_in, turn_of};
use sh_sweeps::nowhere::{inside_if, leave_all, leave_item};
use sh_sweeps::waits::{Member, do_lists_wait, next_place, place_of_news};
use sh_sweeps::{News, carry_over, lower_before};
use sh_tree::{AndOr, Command, Item, Kind, LoopKind, Pipe, Script, Span};
use sh_worklist::{Inside, Look};
use std::alloc::AllocError;

/// How many levels are gone into: of commands, of parts of words, and of expressions in arithmetic.
/// No script that is read has more, since of 64 levels at most each is a few of these.
pub const LEVELS: u32 = 2048;

// How many of them are gone into at most if a call is followed.
const CALLS: u32 = 128;

/// Lowers the certificate at each item of a list, and goes on after the last. So many levels are
/// gone into; what is further in is left to turns.
///
/// # Errors
///
/// If a growth was refused.
#[cycle(sweep)]
pub fn sweep_items(
    subject: &Subject<'_>,
    draft: &mut Draft,
    levels: u32,
    around: &Around<'_>,
    course: &mut Course,
    items: &[Item],
) -> Result<(), AllocError>
    requires ready { IsReady subject.now draft.old.certificate draft.old.probe.count }
    requires placed { AreItems subject.now course.old.by (walks.around subject.now.script.now around.now) (known_behind subject.now course.old.behind) items.now }
    ensures swept { IfOk result (λ unit. IsSwept subject.now draft.old.certificate draft.new.certificate draft.new.probe.count) }
    ensures behind { IfOk result (λ unit. (o : After) → KnowsBehind subject.now o (known_behind subject.now course.old.behind)
        → KnowsBehind subject.now (items_after o (items_from subject.now.script.now items.now)) (known_behind subject.now course.new.behind)) }
{
    let mut news = news_before(&*course);
    let mut place = 0;
    while place < items.len() {
        let next = pass_idle(subject, &*draft, course, news, items, place);
        let passed = news.looks_at(&items[place..next]);
        draft.looks = draft.looks.saturating_add(passed);
        place = next + 1;
        let item = &items[next];
        news = sweep_or_pass(subject, draft, levels, around, course, news, item)?;
        news = handed_on(subject, &mut draft.waiting, news, &items[next..]);
    }
    Ok(())
}

// What is new where a list is entered: a hint.
fn news_before(course: &Course) -> News {
    if course.behind.zero.is_reached() || course.behind.nonzero.is_reached() {
        News::Anything
    } else {
        News::Nothing
    }
}

// Goes on after the items from a place on that do not wait, if what is new is nothing new to them,
// or else after those over which what is known is carried. Gives the place of the next one.
fn pass_idle(
    subject: &Subject<'_>,
    draft: &Draft,
    course: &mut Course,
    news: News,
    items: &[Item],
    place: usize,
) -> usize
    requires ready { IsReady subject.now draft.now.certificate draft.now.probe.count }
    requires within { place < length items.now }
    requires placed { (y : entries.Around) × AreItems subject.now course.old.by y (known_behind subject.now course.old.behind) (drop place items.now) }
    ensures from { place ≤ result }
    ensures there { result < length items.now }
    ensures passed { ArePassed subject.now course.old course.new (take (result - place) (drop place items.now)) }
{
    if news == News::Anything {
        return carry_over(subject, draft, course, items, place);
    }
    let waits = next_place(subject, &draft.waiting, items, place).unwrap_or(items.len() - 1);
    if news == News::Nothing {
        leave_all(course, &items[place..waits]);
        return waits;
    }
    let next = news.place_of(items, place, waits);
    pass_all(subject, &draft.certificate, course, &items[place..next]);
    next
}

// Goes on after an item, and lowers the certificate at its commands if something is new to them or
// one of them waits. Reports what is new after it: a hint.
#[cycle(sweep)]
fn sweep_or_pass(
    subject: &Subject<'_>,
    draft: &mut Draft,
    levels: u32,
    around: &Around<'_>,
    course: &mut Course,
    news: News,
    item: &Item,
) -> Result<News, AllocError>
    requires ready { IsReady subject.now draft.old.certificate draft.old.probe.count }
    requires placed { (others : List tree.Item) × AreItems subject.now course.old.by (walks.around subject.now.script.now around.now) (known_behind subject.now course.old.behind) (item.now ∷ others) }
    ensures swept { IfOk result (λ news. IsSwept subject.now draft.old.certificate draft.new.certificate draft.new.probe.count) }
    ensures passed { IfOk result (λ news. IsPassed subject.now course.old course.new item.now) }
{
    let waits = item.waits(subject, &draft.waiting);
    if news.passes(item) && !waits {
        pass_by(subject, &*draft, course, news, item);
        return Ok(news.after(item, draft.has_jobs));
    }
    let before = draft.traces;
    enter_item(subject, draft, levels, around, &*course, item)?;
    let traces = draft.traces;
    let waited = traces.looks != before.looks;
    let has_fallen = traces.falls != before.falls || traces.entries != before.entries;
    let news = if has_fallen {
        News::Anything
    } else {
        news.after(item, draft.has_jobs)
    };
    // If all wait after a turn, what the turn lowered is new to those that come next.
    pass_by(
        subject,
        &*draft,
        course,
        if waited { News::Anything } else { news },
        item,
    );
    Ok(news)
}

// Goes on after an item, if this is new after it.
fn pass_by(subject: &Subject<'_>, draft: &Draft, course: &mut Course, news: News, item: &Item)
    requires { IsReady subject.now draft.now.certificate draft.now.probe.count }
    ensures { IsPassed subject.now course.old course.new item.now }
{
    if news == News::Nothing {
        leave_item(course);
    } else {
        pass_on(subject, &draft.certificate, course, item);
    }
}

// Lowers the certificate at the commands of an item.
#[cycle(sweep)]
fn enter_item(
    subject: &Subject<'_>,
    draft: &mut Draft,
    levels: u32,
    around: &Around<'_>,
    course: &Course,
    item: &Item,
) -> Result<(), AllocError>
    requires ready { IsReady subject.now draft.old.certificate draft.old.probe.count }
    requires placed { (others : List tree.Item) × AreItems subject.now course.now.by (walks.around subject.now.script.now around.now) (known_behind subject.now course.now.behind) (item.now ∷ others) }
    ensures swept { IfOk result (λ unit. IsSwept subject.now draft.old.certificate draft.new.certificate draft.new.probe.count) }
{
    let mut seen = course.behind.zero;
    meet(&mut seen, &course.behind.nonzero);
    if item.background {
        return enter_process(subject, draft, levels, &seen, &item.list);
    }
    sweep_and_or(subject, draft, levels, course.by, around, &seen, &item.list)
}

// Lowers the certificate at the commands of an asynchronous item, before which this is known.
#[cycle(sweep)]
fn enter_process(
    subject: &Subject<'_>,
    draft: &mut Draft,
    levels: u32,
    known: &Knowledge,
    list: &AndOr,
) -> Result<(), AllocError>
    requires ready { IsReady subject.now draft.old.certificate draft.old.probe.count }
    requires placed { (k : Facts) → ((q : Seen) → Knows subject.now q (knowledge_facts subject.now.names.now known.now) → Knows subject.now (without_job q) k) → IsAndOr subject.now F11 entries.alone k list.now }
    ensures swept { IfOk result (λ unit. IsSwept subject.now draft.old.certificate draft.new.certificate draft.new.probe.count) }
{
    let inside = started_in(subject, &draft.certificate, known);
    let outside = alone();
    let falls = draft.traces.falls;
    sweep_and_or(
        subject,
        draft,
        levels,
        FlowRule::F11,
        &outside,
        &inside,
        list,
    )?;
    draft.traces.falls = falls;
    Ok(())
}

#[cycle(sweep)]
fn sweep_and_or(
    subject: &Subject<'_>,
    draft: &mut Draft,
    levels: u32,
    by: FlowRule,
    around: &Around<'_>,
    known: &Knowledge,
    list: &AndOr,
) -> Result<(), AllocError>
    requires ready { IsReady subject.now draft.old.certificate draft.old.probe.count }
    requires placed { IsAndOr subject.now by (walks.around subject.now.script.now around.now) (knowledge_facts subject.now.names.now known.now) list.now }
    ensures swept { IfOk result (λ unit. IsSwept subject.now draft.old.certificate draft.new.certificate draft.new.probe.count) }
{
    let before = draft.traces;
    sweep_pipe(subject, draft, levels, by, around, known, &list.first)?;
    let links = list.rest.as_slice();
    let is_joined = known.is_reached() && list.first.parts.as_slice().len() != 1;
    let is_new = draft.traces != before || is_joined;
    if links.is_empty() || (!is_new && next_place(subject, &draft.waiting, links, 0).is_none()) {
        return Ok(());
    }
    sweep_joined(subject, draft, levels, around, known, list, is_new)
}

/// Lowers the certificate at the commands of a pipeline.
///
/// # Errors
///
/// If a growth was refused.
#[cycle(sweep)]
pub fn sweep_pipe(
    subject: &Subject<'_>,
    draft: &mut Draft,
    levels: u32,
    by: FlowRule,
    around: &Around<'_>,
    known: &Knowledge,
    pipe: &Pipe,
) -> Result<(), AllocError>
    requires ready { IsReady subject.now draft.old.certificate draft.old.probe.count }
    requires placed { IsPipe subject.now by (walks.around subject.now.script.now around.now) (knowledge_facts subject.now.names.now known.now) pipe.now }
    ensures swept { IfOk result (λ unit. IsSwept subject.now draft.old.certificate draft.new.certificate draft.new.probe.count) }
{
    let parts = pipe.parts.as_slice();
    if parts.len() > 1 {
        return sweep_processes(subject, draft, levels, around, known, parts);
    }
    sweep_parts(subject, draft, levels, by, around, known, parts)
}

// Lowers the certificate at the parts of a pipeline of two or more, before which this is known.
#[cycle(sweep)]
#[inline(never)]
fn sweep_processes(
    subject: &Subject<'_>,
    draft: &mut Draft,
    levels: u32,
    around: &Around<'_>,
    known: &Knowledge,
    parts: &[Command],
) -> Result<(), AllocError>
    requires ready { IsReady subject.now draft.old.certificate draft.old.probe.count }
    requires placed { (k : Facts) → ((q : Seen) → Knows subject.now q (knowledge_facts subject.now.names.now known.now) → Knows subject.now (without_job q) k) → AreParts subject.now F12 (part_around true (walks.around subject.now.script.now around.now)) k parts.now }
    ensures swept { IfOk result (λ unit. IsSwept subject.now draft.old.certificate draft.new.certificate draft.new.probe.count) }
{
    let inner = around.round_parts();
    let seen = started_in(subject, &draft.certificate, known);
    let falls = draft.traces.falls;
    sweep_parts(subject, draft, levels, FlowRule::F12, &inner, &seen, parts)?;
    draft.traces.falls = falls;
    Ok(())
}

#[cycle(sweep)]
fn sweep_parts(
    subject: &Subject<'_>,
    draft: &mut Draft,
    levels: u32,
    by: FlowRule,
    around: &Around<'_>,
    known: &Knowledge,
    parts: &[Command],
) -> Result<(), AllocError>
    requires ready { IsReady subject.now draft.old.certificate draft.old.probe.count }
    requires placed { AreParts subject.now by (walks.around subject.now.script.now around.now) (knowledge_facts subject.now.names.now known.now) parts.now }
    ensures swept { IfOk result (λ unit. IsSwept subject.now draft.old.certificate draft.new.certificate draft.new.probe.count) }
{
    let mut place = 0;
    while place < parts.len() {
        let is_known = known.is_reached();
        let next = place_of_news(subject, &draft.waiting, is_known, parts, place);
        if next == parts.len() {
            return Ok(());
        }
        sweep_command(subject, draft, levels, by, around, known, &parts[next])?;
        place = next + 1;
    }
    Ok(())
}

// Lowers the certificate at a command, and in it.
#[cycle(sweep)]
fn sweep_command(
    subject: &Subject<'_>,
    draft: &mut Draft,
    levels: u32,
    by: FlowRule,
    around: &Around<'_>,
    known: &Knowledge,
    command: &Command,
) -> Result<(), AllocError>
    requires ready { IsReady subject.now draft.old.certificate draft.old.probe.count }
    requires placed { IsCommand subject.now by (walks.around subject.now.script.now around.now) (knowledge_facts subject.now.names.now known.now) command.now }
    ensures swept { IfOk result (λ unit. IsSwept subject.now draft.old.certificate draft.new.certificate draft.new.probe.count) }
{
    if !known.is_reached() && !draft.waiting.has(command.number) {
        return Ok(());
    }
    if levels == 0 {
        return lower_command(subject, draft, by, around, known, command);
    }
    let look = look(subject, &mut draft.waiting, command.number);
    let outer = draft.waiting.enter_command(command.number);
    sweep_looked(
        subject,
        draft,
        levels - 1,
        by,
        around,
        known,
        command,
        look,
        outer,
    )?;
    draft.waiting.leave(outer);
    Ok(())
}

// Lowers the certificate at a command that waited or not, and in it.
#[cycle(sweep)]
fn sweep_looked(
    subject: &Subject<'_>,
    draft: &mut Draft,
    levels: u32,
    by: FlowRule,
    around: &Around<'_>,
    known: &Knowledge,
    command: &Command,
    look: Look,
    outer: Inside,
) -> Result<(), AllocError>
    requires ready { IsReady subject.now draft.old.certificate draft.old.probe.count }
    requires placed { IsCommand subject.now by (walks.around subject.now.script.now around.now) (knowledge_facts subject.now.names.now known.now) command.now }
    ensures swept { IfOk result (λ unit. IsSwept subject.now draft.old.certificate draft.new.certificate draft.new.probe.count) }
{
    let is_reached = known.is_reached() || is_entered(&*draft, command);
    if !is_reached && !look.inner && is_simple(&command.kind) {
        return Ok(());
    }
    let before = draft.traces.falls;
    lower_before(subject, draft, known, command)?;
    let has_fallen = draft.traces.falls != before;
    draft.traces = traced(draft.traces, look, has_fallen);
    let is_new = look.own || has_fallen;
    if !is_new && !look.inner {
        return Ok(());
    }
    if is_simple(&command.kind) {
        let is_inside = look.inner || has_fallen;
        let is_new = is_new && is_reached;
        sweep_simple(
            subject, draft, levels, by, around, known, command, is_new, is_inside,
        )
    } else {
        sweep_compound(
            subject, draft, levels, by, around, known, command, is_new, outer,
        )
    }
}

// Lowers the certificate at the commands in the words of a simple command, and after it if
// something is new. If that enters a function for the first time, or has its body go again, it goes
// on in its bodies, and then after the command again.
#[cycle(sweep)]
fn sweep_simple(
    subject: &Subject<'_>,
    draft: &mut Draft,
    levels: u32,
    by: FlowRule,
    around: &Around<'_>,
    known: &Knowledge,
    command: &Command,
    is_new: bool,
    is_inside: bool,
) -> Result<(), AllocError>
    requires ready { IsReady subject.now draft.old.certificate draft.old.probe.count }
    requires placed { IsCommand subject.now by (walks.around subject.now.script.now around.now) (knowledge_facts subject.now.names.now known.now) command.now }
    ensures swept { IfOk result (λ unit. IsSwept subject.now draft.old.certificate draft.new.certificate draft.new.probe.count) }
{
    sweep_held(subject, draft, levels, around, command, is_new, is_inside)?;
    if !is_new {
        return Ok(());
    }
    let entered = draft.entered;
    lower_behind(subject, draft, by, around, known, command)?;
    let is_news = draft.entered != entered || is_called_again(subject, draft, around, command);
    if !is_news || levels < LEVELS - CALLS {
        return Ok(());
    }
    draft.waiting.hold(command.number);
    sweep_called(subject, draft, levels, command)?;
    look_again(subject, &mut draft.waiting, command.number);
    lower_behind(subject, draft, by, around, known, command)?;
    Ok(())
}

// Lowers the certificate at the commands in the words of a simple command, if it holds any.
#[cycle(sweep)]
fn sweep_held(
    subject: &Subject<'_>,
    draft: &mut Draft,
    levels: u32,
    around: &Around<'_>,
    command: &Command,
    is_new: bool,
    is_inside: bool,
) -> Result<(), AllocError>
    requires ready { IsReady subject.now draft.old.certificate draft.old.probe.count }
    requires placed { IsInside subject.now (walks.around subject.now.script.now around.now) command.now }
    ensures swept { IfOk result (λ unit. IsSwept subject.now draft.old.certificate draft.new.certificate draft.new.probe.count) }
{
    if !is_inside || !(is_before_next(subject, command) || is_in_elements(command.elements())) {
        return Ok(());
    }
    sweep_inside(subject, draft, levels, around, command, is_new)
}

// Lowers the certificate in a compound command, and after it if something is new. Its words leave
// nothing else than before. If nothing but what is in it is new, the lists of `if` and `case` have
// lowered what it leaves.
#[cycle(sweep)]
fn sweep_compound(
    subject: &Subject<'_>,
    draft: &mut Draft,
    levels: u32,
    by: FlowRule,
    around: &Around<'_>,
    known: &Knowledge,
    command: &Command,
    is_new: bool,
    outer: Inside,
) -> Result<(), AllocError>
    requires ready { IsReady subject.now draft.old.certificate draft.old.probe.count }
    requires placed { IsCommand subject.now by (walks.around subject.now.script.now around.now) (knowledge_facts subject.now.names.now known.now) command.now }
    ensures swept { IfOk result (λ unit. IsSwept subject.now draft.old.certificate draft.new.certificate draft.new.probe.count) }
{
    if !is_new && !do_lists_wait(subject, &draft.waiting, &command.kind) {
        return sweep_inside(subject, draft, levels, around, command, is_new);
    }
    let before = draft.traces.falls;
    sweep_rounds(subject, draft, levels, by, around, known, command, is_new)?;
    sweep_again(subject, draft, levels, around, command, outer)?;
    if !is_new && (draft.traces.falls == before || has_branches(&command.kind)) {
        return Ok(());
    }
    lower_behind(subject, draft, by, around, known, command)?;
    Ok(())
}

// Goes over the branches of `if` and the clauses of `case` again, until none inside waits. So they
// are joined once.
#[cycle(sweep)]
fn sweep_again(
    subject: &Subject<'_>,
    draft: &mut Draft,
    levels: u32,
    around: &Around<'_>,
    command: &Command,
    outer: Inside,
) -> Result<(), AllocError>
    requires ready { IsReady subject.now draft.old.certificate draft.old.probe.count }
    requires placed { IsInside subject.now (walks.around subject.now.script.now around.now) command.now }
    ensures swept { IfOk result (λ unit. IsSwept subject.now draft.old.certificate draft.new.certificate draft.new.probe.count) }
{
    for _round in 0..u32::MAX {
        if !has_branches(&command.kind) || !draft.waiting.has(command.number) {
            return Ok(());
        }
        draft.waiting.leave(outer);
        draft.waiting.look(command.number);
        draft.waiting.enter_command(command.number);
        sweep_inside(subject, draft, levels, around, command, false)?;
    }
    Ok(())
}

fn has_branches(kind: &Kind) -> bool {
    matches!(kind, Kind::Cond { .. } | Kind::Branches { .. })
}

fn is_simple(kind: &Kind) -> bool {
    matches!(kind, Kind::Simple(_))
}

/// Lowers the certificate at the commands in the redirections of a command, and at those in it.
///
/// # Errors
///
/// If a growth was refused.
#[cycle(sweep)]
pub fn sweep_inside(
    subject: &Subject<'_>,
    draft: &mut Draft,
    levels: u32,
    around: &Around<'_>,
    command: &Command,
    is_new: bool,
) -> Result<(), AllocError>
    requires ready { IsReady subject.now draft.old.certificate draft.old.probe.count }
    requires placed { IsInside subject.now (walks.around subject.now.script.now around.now) command.now }
    ensures swept { IfOk result (λ unit. IsSwept subject.now draft.old.certificate draft.new.certificate draft.new.probe.count) }
{
    let number = command.number;
    let redirects = command.redirects.as_slice();
    sweep_redirections(subject, draft, levels, number, redirects, is_new)?;
    let inside = inside_if(subject, &draft.certificate, command, is_new);
    sweep_kind(
        subject,
        draft,
        levels,
        around,
        number,
        &inside,
        &command.kind,
    )
}

#[cycle(sweep)]
fn sweep_kind(
    subject: &Subject<'_>,
    draft: &mut Draft,
    levels: u32,
    around: &Around<'_>,
    number: u32,
    known: &Knowledge,
    kind: &Kind,
) -> Result<(), AllocError>
    requires ready { IsReady subject.now draft.old.certificate draft.old.probe.count }
    requires placed { IsKind subject.now (walks.around subject.now.script.now around.now) number (knowledge_facts subject.now.names.now known.now) kind.now }
    ensures swept { IfOk result (λ unit. IsSwept subject.now draft.old.certificate draft.new.certificate draft.new.probe.count) }
{
    match kind {
        Kind::Simple(elements) => {
            sweep_elements(subject, draft, levels, known, elements.as_slice())
        }
        Kind::Group(list) => {
            sweep_list(subject, draft, levels, around, FlowRule::F10, known, list)
        }
        Kind::Subshell(list) => sweep_subshell(subject, draft, levels, number, list),
        // A body is a unit of its own.
        Kind::Define { .. } => Ok(()),
        _ => sweep_conditional(subject, draft, levels, around, number, known, kind),
    }
}

// Lowers the certificate at what is in `if` or `case`, or in a loop.
#[cycle(sweep)]
fn sweep_conditional(
    subject: &Subject<'_>,
    draft: &mut Draft,
    levels: u32,
    around: &Around<'_>,
    number: u32,
    known: &Knowledge,
    kind: &Kind,
) -> Result<(), AllocError>
    requires ready { IsReady subject.now draft.old.certificate draft.old.probe.count }
    requires placed { IsKind subject.now (walks.around subject.now.script.now around.now) number (knowledge_facts subject.now.names.now known.now) kind.now }
    ensures swept { IfOk result (λ unit. IsSwept subject.now draft.old.certificate draft.new.certificate draft.new.probe.count) }
{
    match kind {
        Kind::Cond {
            branches,
            otherwise,
        } => {
            let branches = branches.as_slice();
            sweep_cond(
                subject, draft, levels, around, number, known, branches, otherwise,
            )
        }
        Kind::Branches { word, clauses } => {
            let clauses = clauses.as_slice();
            sweep_case(subject, draft, levels, around, number, known, word, clauses)
        }
        _ => sweep_iteration(subject, draft, levels, around, number, known, kind),
    }
}

// Lowers the certificate at what is in a loop.
#[cycle(sweep)]
fn sweep_iteration(
    subject: &Subject<'_>,
    draft: &mut Draft,
    levels: u32,
    around: &Around<'_>,
    number: u32,
    known: &Knowledge,
    kind: &Kind,
) -> Result<(), AllocError>
    requires ready { IsReady subject.now draft.old.certificate draft.old.probe.count }
    requires placed { IsKind subject.now (walks.around subject.now.script.now around.now) number (knowledge_facts subject.now.names.now known.now) kind.now }
    ensures swept { IfOk result (λ unit. IsSwept subject.now draft.old.certificate draft.new.certificate draft.new.probe.count) }
{
    match kind {
        Kind::Loop {
            kind,
            condition,
            body,
        } => sweep_loop(
            subject, draft, levels, around, number, *kind, condition, body,
        ),
        Kind::For { name, words, body } => {
            sweep_for_words(subject, draft, levels, known, words)?;
            sweep_for(subject, draft, levels, around, number, *name, body)
        }
        Kind::Simple(_)
        | Kind::Group(_)
        | Kind::Subshell(_)
        | Kind::Cond { .. }
        | Kind::Branches { .. }
        | Kind::Define { .. } => Ok(()),
    }
}

/// Lowers the certificate at a list that a rule enters, with this known.
///
/// # Errors
///
/// If a growth was refused.
#[cycle(sweep)]
pub fn sweep_list(
    subject: &Subject<'_>,
    draft: &mut Draft,
    levels: u32,
    around: &Around<'_>,
    by: FlowRule,
    known: &Knowledge,
    list: &Script,
) -> Result<(), AllocError>
    requires ready { IsReady subject.now draft.old.certificate draft.old.probe.count }
    requires placed { IsList subject.now by (walks.around subject.now.script.now around.now) (knowledge_facts subject.now.names.now known.now) (trees.script_of subject.now.script.now list.now) }
    ensures swept { IfOk result (λ unit. IsSwept subject.now draft.old.certificate draft.new.certificate draft.new.probe.count) }
{
    let mut course = begun(by, known);
    sweep_items(
        subject,
        draft,
        levels,
        around,
        &mut course,
        list.items.as_slice(),
    )
}

#[cycle(sweep)]
fn sweep_subshell(
    subject: &Subject<'_>,
    draft: &mut Draft,
    levels: u32,
    number: u32,
    list: &Script,
) -> Result<(), AllocError>
    requires ready { IsReady subject.now draft.old.certificate draft.old.probe.count }
    requires placed { (y : entries.Around) × (q : Seen) × IsPart subject.now (kind_entered y number q (p.Subshell (trees.script_of subject.now.script.now list.now))) }
    ensures swept { IfOk result (λ unit. IsSwept subject.now draft.old.certificate draft.new.certificate draft.new.probe.count) }
{
    let outside = alone();
    let known = process_of(subject, &draft.certificate, number);
    let traces = draft.traces;
    sweep_list(
        subject,
        draft,
        levels,
        &outside,
        FlowRule::F11,
        &known,
        list,
    )?;
    draft.traces = traces;
    Ok(())
}

/// Lowers the certificate in the body of a function.
///
/// # Errors
///
/// If a growth was refused.
#[cycle(sweep)]
pub fn sweep_definition(
    subject: &Subject<'_>,
    draft: &mut Draft,
    levels: u32,
    name: Span,
    body: &Command,
) -> Result<(), AllocError>
    requires ready { IsReady subject.now draft.old.certificate draft.old.probe.count }
    requires placed { (y : entries.Around) × (n : ℕ) × (q : Seen) × IsPart subject.now (kind_entered y n q (p.Define (text_of subject.now.script.now name) (trees.command_of subject.now.script.now body.now))) }
    ensures swept { IfOk result (λ unit. IsSwept subject.now draft.old.certificate draft.new.certificate draft.new.probe.count) }
{
    let inner = in_function(name);
    let known = entry_of(subject, &draft.certificate, name);
    sweep_command(subject, draft, levels, FlowRule::F13, &inner, &known, body)
}

#[cycle(sweep)]
fn sweep_loop(
    subject: &Subject<'_>,
    draft: &mut Draft,
    levels: u32,
    around: &Around<'_>,
    number: u32,
    kind: LoopKind,
    condition: &Script,
    body: &Script,
) -> Result<(), AllocError>
    requires ready { IsReady subject.now draft.old.certificate draft.old.probe.count }
    requires placed { (q : Seen) × IsPart subject.now (kind_entered (walks.around subject.now.script.now around.now) number q
        (p.Loop kind (trees.script_of subject.now.script.now condition.now) (trees.script_of subject.now.script.now body.now))) }
    ensures swept { IfOk result (λ unit. IsSwept subject.now draft.old.certificate draft.new.certificate draft.new.probe.count) }
{
    let inner = (&*around).in_loop(number);
    let head = head_of(subject, &draft.certificate, number);
    let mut course = begun(FlowRule::F7, &head);
    sweep_items(
        subject,
        draft,
        levels,
        &inner,
        &mut course,
        condition.items.as_slice(),
    )?;
    sweep_list(
        subject,
        draft,
        levels,
        &inner,
        FlowRule::F7,
        course.behind.at_turn(kind),
        body,
    )?;
    Ok(())
}

#[cycle(sweep)]
fn sweep_for(
    subject: &Subject<'_>,
    draft: &mut Draft,
    levels: u32,
    around: &Around<'_>,
    number: u32,
    name: Span,
    body: &Script,
) -> Result<(), AllocError>
    requires ready { IsReady subject.now draft.old.certificate draft.old.probe.count }
    requires placed { (q : Seen) × (ws : p.ForWords) × IsPart subject.now (kind_entered (walks.around subject.now.script.now around.now) number q
        (p.For (text_of subject.now.script.now name) ws (trees.script_of subject.now.script.now body.now))) }
    ensures swept { IfOk result (λ unit. IsSwept subject.now draft.old.certificate draft.new.certificate draft.new.probe.count) }
{
    let inner = (&*around).in_loop(number);
    let turn = turn_of(subject, &draft.certificate, number, name);
    sweep_list(subject, draft, levels, &inner, FlowRule::F8, &turn, body)
}
