//! A sweep of the search over the pipelines after `&&` and `||` (XCU 2.9.3).
ghost use Rattle.std.specs.Prelude.{◌∷◌, ◌<◌, ◌≤◌, List, drop, length, IfOk};
ghost use Rattle.sh_tree.specs.declared.tree.Link as list_link;
ghost use Rattle.sh_tree.specs.declared.tree.Pipe as pipeline;
ghost use Rattle.sh_domain.specs.Entries as entries;
ghost use Rattle.sh_domain.specs.Knowledge.{knowledge_facts};
ghost use Rattle.sh_rules.specs.Behind as spec;
ghost use Rattle.sh_rules.specs.Walks as walks;
ghost use Rattle.sh_sweeps.specs.Sweeps.{AreLinks, IsAndOr, known_behind};
ghost use Rattle.sh_drafts.specs.Ready.{IsReady, IsSwept};

use crate::looks::is_link_held;
use crate::sweep::sweep_pipe;
use sh_domain::{FlowRule, Knowledge};
use sh_drafts::{Draft, Subject};
use sh_rules::{Around, Behind};
use sh_sweeps::nowhere::{link_if, nothing_behind, pipe_if};
use sh_sweeps::waits::next_place;
use sh_tree::{AndOr, Link, Pipe};
use std::alloc::AllocError;

/// Lowers the certificate at the pipelines after `&&` and `||` of a list, until none of them waits.
/// Nothing is known after the first pipeline if nothing is new there.
///
/// # Errors
///
/// If a growth was refused.
#[cycle(sweep)]
#[inline(never)]
pub fn sweep_joined(
    subject: &Subject<'_>,
    draft: &mut Draft,
    levels: u32,
    around: &Around<'_>,
    known: &Knowledge,
    list: &AndOr,
    is_new: bool,
) -> Result<(), AllocError>
    requires ready { IsReady subject.now draft.old.certificate draft.old.probe.count }
    requires placed { (by : FlowRule) × IsAndOr subject.now by (walks.around subject.now.script.now around.now) (knowledge_facts subject.now.names.now known.now) list.now }
    ensures swept { IfOk result (λ unit. IsSwept subject.now draft.old.certificate draft.new.certificate draft.new.probe.count) }
{
    let links = list.rest.as_slice();
    let mut behind = pipe_if(subject, &draft.certificate, known, &list.first, is_new);
    sweep_links(subject, draft, levels, around, &mut behind, links)?;
    sweep_links_again(subject, draft, levels, around, links)
}

// Lowers the certificate at the pipelines after `&&` or `||`. Nothing is known before one to which
// nothing is new.
#[cycle(sweep)]
fn sweep_links(
    subject: &Subject<'_>,
    draft: &mut Draft,
    levels: u32,
    around: &Around<'_>,
    behind: &mut Behind,
    links: &[(Link, Pipe)],
) -> Result<(), AllocError>
    requires ready { IsReady subject.now draft.old.certificate draft.old.probe.count }
    requires placed { AreLinks subject.now (walks.around subject.now.script.now around.now) (known_behind subject.now behind.old) links.now }
    ensures swept { IfOk result (λ unit. IsSwept subject.now draft.old.certificate draft.new.certificate draft.new.probe.count) }
{
    let mut place = 0;
    while place < links.len() {
        let next = next_link(subject, &*draft, &*behind, links, place);
        if next == links.len() {
            return Ok(());
        }
        let rest = &links[next..];
        sweep_link(subject, draft, levels, around, behind, &links[next], rest)?;
        place = next + 1;
    }
    Ok(())
}

// The place from a place on of the next pipeline to which something is new or in which a command
// may wait, or their count.
fn next_link(
    subject: &Subject<'_>,
    draft: &Draft,
    behind: &Behind,
    links: &[(Link, Pipe)],
    place: usize,
) -> usize
    requires ready { IsReady subject.now draft.now.certificate draft.now.probe.count }
    requires within { place < length links.now }
    ensures from { place ≤ result }
    ensures there { result ≤ length links.now }
    ensures left { (y : entries.Around) → AreLinks subject.now y (known_behind subject.now behind.now) (drop place links.now)
        → AreLinks subject.now y (known_behind subject.now behind.now) (drop result links.now) }
{
    let link = links[place].0;
    if behind.at_link(link).is_reached() {
        return place;
    }
    let waits = next_place(subject, &draft.waiting, links, place).unwrap_or(links.len());
    pass_links(subject, draft, behind, links, place, waits)
}

// The place from one to another of the next pipeline to which something is new, or that other.
fn pass_links(
    subject: &Subject<'_>,
    draft: &Draft,
    behind: &Behind,
    links: &[(Link, Pipe)],
    place: usize,
    end: usize,
) -> usize
    requires ready { IsReady subject.now draft.now.certificate draft.now.probe.count }
    requires from { place ≤ end }
    requires there { end ≤ length links.now }
    ensures from { place ≤ result }
    ensures there { result ≤ end }
    ensures left { (y : entries.Around) → AreLinks subject.now y (known_behind subject.now behind.now) (drop place links.now)
        → AreLinks subject.now y (known_behind subject.now behind.now) (drop result links.now) }
{
    let mut next = place;
    while next < end {
        if behind.at_link(links[next].0).is_reached() {
            return next;
        }
        next += 1;
    }
    next
}

// Goes over the pipelines after `&&` and `||` again, until none of them waits. So the list that
// they are in is joined once.
#[cycle(sweep)]
fn sweep_links_again(
    subject: &Subject<'_>,
    draft: &mut Draft,
    levels: u32,
    around: &Around<'_>,
    links: &[(Link, Pipe)],
) -> Result<(), AllocError>
    requires ready { IsReady subject.now draft.old.certificate draft.old.probe.count }
    requires placed { (k : spec.Behind) × AreLinks subject.now (walks.around subject.now.script.now around.now) k links.now }
    ensures swept { IfOk result (λ unit. IsSwept subject.now draft.old.certificate draft.new.certificate draft.new.probe.count) }
{
    for _round in 0..u32::MAX {
        if next_place(subject, &draft.waiting, links, 0).is_none() {
            return Ok(());
        }
        let mut behind = nothing_behind();
        sweep_links(subject, draft, levels, around, &mut behind, links)?;
    }
    Ok(())
}

// Lowers the certificate at the pipeline after `&&` or `||`, and goes on after it.
#[cycle(sweep)]
fn sweep_link(
    subject: &Subject<'_>,
    draft: &mut Draft,
    levels: u32,
    around: &Around<'_>,
    behind: &mut Behind,
    link: &(Link, Pipe),
    rest: &[(Link, Pipe)],
) -> Result<(), AllocError>
    requires ready { IsReady subject.now draft.old.certificate draft.old.probe.count }
    requires placed { (others : List (list_link.Link × pipeline.Pipe)) × AreLinks subject.now (walks.around subject.now.script.now around.now) (known_behind subject.now behind.old) (link.now ∷ others) }
    ensures swept { IfOk result (λ unit. IsSwept subject.now draft.old.certificate draft.new.certificate draft.new.probe.count) }
    ensures passed { IfOk result (λ unit. (others : List (list_link.Link × pipeline.Pipe))
        → AreLinks subject.now (walks.around subject.now.script.now around.now) (known_behind subject.now behind.old) (link.now ∷ others)
        → AreLinks subject.now (walks.around subject.now.script.now around.now) (known_behind subject.now behind.new) others) }
{
    let before = draft.traces;
    enter_link(subject, draft, levels, around, &*behind, link)?;
    let has_fallen = draft.traces.falls != before.falls;
    let is_held = is_link_held(subject, &mut draft.waiting, has_fallen, rest);
    let is_new = draft.traces != before && !is_held;
    link_if(subject, &draft.certificate, behind, link, is_new);
    Ok(())
}

// Lowers the certificate at the pipeline after `&&` or `||`.
#[cycle(sweep)]
fn enter_link(
    subject: &Subject<'_>,
    draft: &mut Draft,
    levels: u32,
    around: &Around<'_>,
    behind: &Behind,
    link: &(Link, Pipe),
) -> Result<(), AllocError>
    requires ready { IsReady subject.now draft.old.certificate draft.old.probe.count }
    requires placed { (others : List (list_link.Link × pipeline.Pipe)) × AreLinks subject.now (walks.around subject.now.script.now around.now) (known_behind subject.now behind.now) (link.now ∷ others) }
    ensures swept { IfOk result (λ unit. IsSwept subject.now draft.old.certificate draft.new.certificate draft.new.probe.count) }
{
    sweep_pipe(
        subject,
        draft,
        levels,
        FlowRule::F3,
        around,
        behind.at_link(link.0),
        &link.1,
    )
}
