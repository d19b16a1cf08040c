//! Goes over a loop until what is known at its turns no longer falls (XCU 2.9.4).
ghost use Rattle.std.specs.Prelude.{IfOk};
ghost use Rattle.sh_domain.specs.Knowledge.{knowledge_facts};
ghost use Rattle.sh_rules.specs.Walks as walks;
ghost use Rattle.sh_sweeps.specs.Sweeps.{IsCommand};
ghost use Rattle.sh_drafts.specs.Ready.{IsReady, IsSwept};

use crate::own::lower_head;
use crate::sweep::sweep_inside;
use sh_domain::{Facts, FlowRule, Knowledge};
use sh_drafts::{Draft, Size, Subject};
use sh_rules::{Around, Loops};
use sh_tree::Command;
use std::alloc::AllocError;

// Whether this is the first pass over a loop in a loop. One round is enough then, since the outer
// loop takes another turn.
fn is_passed_once(draft: &Draft, around: &Around<'_>, number: u32) -> bool {
    let head = draft.certificate.heads.get(&number);
    matches!(around.loops, Loops::Inside(_, _)) && matches!(head, Some(Facts::NotReached))
}

// One more round if the count alone fell at the turns of a loop in the last one.
fn counted_on(before: Option<Size>, after: Option<Size>, rounds: u32) -> u32 {
    match (before, after) {
        (Some(before), Some(after)) if before.names == after.names => rounds.saturating_add(1),
        _ => 0,
    }
}

/// Lowers the certificate in a command, and at the turns of a loop, until these no longer fall. If
/// counts alone fall, it leaves the loop soon. So what comes after it is reached before the counts
/// of all loops are solved apart.
///
/// # Errors
///
/// If a growth was refused.
#[cycle(sweep)]
pub fn sweep_rounds(
    subject: &Subject<'_>,
    draft: &mut Draft,
    levels: u32,
    by: FlowRule,
    around: &Around<'_>,
    known: &Knowledge,
    command: &Command,
    is_new: bool,
) -> Result<(), AllocError>
    requires ready { IsReady subject.now draft.old.certificate draft.old.probe.count }
    requires placed { IsCommand subject.now by (walks.around subject.now.script.now around.now) (knowledge_facts subject.now.names.now known.now) command.now }
    ensures swept { IfOk result (λ unit. IsSwept subject.now draft.old.certificate draft.new.certificate draft.new.probe.count) }
{
    let is_once = is_passed_once(&*draft, around, command.number);
    lower_head(subject, draft, by, around, known, command, is_new)?;
    let mut rounds = 0;
    for _round in 0..u32::MAX {
        let before = draft.size_at_turns(command.number);
        let falls = draft.traces.falls;
        sweep_inside(subject, draft, levels, around, command, is_new)?;
        let has_fallen = is_new || draft.traces.falls != falls;
        lower_head(subject, draft, by, around, known, command, has_fallen)?;
        let after = draft.size_at_turns(command.number);
        if after == before {
            return Ok(());
        }
        rounds = counted_on(before, after, rounds);
        let is_left = rounds > draft.rounds;
        if is_left {
            draft.has_left = true;
            return Ok(());
        }
        if is_once || draft.is_tired() {
            draft.waiting.wait(command.number)?;
            return Ok(());
        }
    }
    Ok(())
}
