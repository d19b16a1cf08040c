//! What waits after something was lowered: hints.
ghost use Rattle.std.specs.Prelude.{◌≡◌};

use crate::draft::{Draft, tires_after};
use crate::extent::extent_of;
use crate::kept::{drops_of, facts_at};
use crate::place::{Part, Place};
use crate::subject::Subject;
use crate::target::Target;
use sh_domain::{Drops, Facts, RowId};
use sh_worklist::{Flags, Look, Reason, Waiting};
use std::alloc::AllocError;

// Of what is late, so few callers of a function wait before the others.
const FEW_CALLERS: usize = 4;

// So does a body with so few commands.
const FEW_COMMANDS: u32 = 64;

// In so many passes more than others either may fall before it is late.
const MORE_PASSES: u32 = 2;

// In how many passes more than others a function falls before it is late.
fn passes_more(is_small: bool) -> u32 {
    if is_small { MORE_PASSES } else { 0 }
}

// Adds an index to a set. Reports whether it was not there.
fn is_news(indices: &mut Flags, index: u16) -> bool {
    let is_news = !indices.has(u32::from(index));
    indices.add(u32::from(index));
    is_news
}

// The numbers of the commands that define the function of an index.
fn definitions_of<'a>(subject: &Subject<'a>, index: u32) -> &'a [u32] {
    if index as usize >= subject.table.functions().len() {
        return &[];
    }
    subject.table.definitions(index + 1)
}

// Has the bodies of the function of an index wait, unless they all do, or are late.
fn wake_bodies(subject: &Subject<'_>, waiting: &mut Waiting, index: u16) -> Result<(), AllocError> {
    waiting.note_fall(Reason::Entered);
    if !is_news(&mut waiting.entered, index) {
        return Ok(());
    }
    let definitions = definitions_of(subject, u32::from(index));
    let more = passes_more(!are_long(subject, definitions));
    if waiting.late_entries.keeps(u32::from(index), more) {
        return Ok(());
    }
    waiting.wait_bodies(definitions)
}

// Whether a body of these definitions has more than a few commands.
fn are_long(subject: &Subject<'_>, definitions: &[u32]) -> bool {
    for number in definitions {
        if is_long(subject, *number) {
            return true;
        }
    }
    false
}

fn is_long(subject: &Subject<'_>, definition: u32) -> bool {
    let index = definition.saturating_sub(1) as usize;
    match subject.commands.get(index) {
        Some(command) => extent_of(command) > FEW_COMMANDS,
        None => false,
    }
}

fn has_few_callers(waiting: &Waiting, index: usize) -> bool {
    waiting.callers(index).len() <= FEW_CALLERS
}

// Has the callers of the function of an index wait, unless they all do, or are late.
fn wake_callers(waiting: &mut Waiting, index: u16) -> Result<(), AllocError> {
    waiting.note_fall(Reason::Inside);
    if !is_news(&mut waiting.called, index) {
        return Ok(());
    }
    let more = passes_more(has_few_callers(waiting, index as usize));
    if waiting.late_calls.keeps(u32::from(index), more) {
        return Ok(());
    }
    waiting.wait_calls(index as usize)
}

/// A pass begins: over the commands outside of functions, or over the bodies in each order.
pub fn begin_pass(waiting: &mut Waiting) {
    waiting.late_calls.begin();
    waiting.late_entries.begin();
}

/// Something fell in an item. Reports whether that is handed on later to the next item, since it
/// fell in many sweeps. These are the numbers of the first commands of both.
pub fn holds_back(waiting: &mut Waiting, item: u32, next: u32) -> bool {
    waiting.late_items.begin();
    if !waiting.late_items.keeps(item, 0) {
        return false;
    }
    waiting.late_items.keep(next);
    true
}

/// Has those wait that look at what is late: first of functions with few callers and short bodies,
/// and of all else if none of these is late.
///
/// # Errors
///
/// If a growth was refused.
pub fn wake_late(subject: &Subject<'_>, waiting: &mut Waiting) -> Result<(), AllocError> {
    if wake_functions(subject, waiting, false)? {
        return Ok(());
    }
    if wake_items(subject, waiting)? && waiting.late_items.renew() {
        waiting.late_calls.renew();
        waiting.late_entries.renew();
    }
    wake_functions(subject, waiting, true)?;
    Ok(())
}

// Reports whether any item was late.
fn wake_items(subject: &Subject<'_>, waiting: &mut Waiting) -> Result<bool, AllocError> {
    let mut is_late = false;
    for command in subject.commands {
        if waiting.late_items.take(command.number) {
            waiting.wait(command.number)?;
            is_late = true;
        }
    }
    Ok(is_late)
}

// Of all functions, or of those with few callers and short bodies. Reports whether any was late.
fn wake_functions(
    subject: &Subject<'_>,
    waiting: &mut Waiting,
    are_all: bool,
) -> Result<bool, AllocError> {
    let mut is_late = false;
    for index in 0..subject.table.functions().len() {
        let function = index as u32;
        is_late |= wake_late_callers(waiting, function, are_all)?;
        is_late |= wake_late_bodies(subject, waiting, function, are_all)?;
    }
    Ok(is_late)
}

fn wake_late_callers(
    waiting: &mut Waiting,
    function: u32,
    are_all: bool,
) -> Result<bool, AllocError> {
    let is_woken = are_all || has_few_callers(waiting, function as usize);
    if !is_woken || !waiting.late_calls.take(function) {
        return Ok(false);
    }
    waiting.wait_calls(function as usize)?;
    Ok(true)
}

fn wake_late_bodies(
    subject: &Subject<'_>,
    waiting: &mut Waiting,
    function: u32,
    are_all: bool,
) -> Result<bool, AllocError> {
    let definitions = definitions_of(subject, function);
    let is_woken = are_all || !are_long(subject, definitions);
    if !is_woken || !waiting.late_entries.take(function) {
        return Ok(false);
    }
    waiting.wait_bodies(definitions)?;
    Ok(true)
}

// Has those wait that look at a place. The sweep itself goes on to what looks at the other places.
fn wake_place(
    subject: &Subject<'_>,
    waiting: &mut Waiting,
    place: Place,
) -> Result<(), AllocError> {
    match place.part {
        Part::Entered => wake_bodies(subject, waiting, place.index),
        Part::ReturnZero | Part::ReturnNonzero => wake_callers(waiting, place.index),
        Part::Before | Part::Zero | Part::Nonzero | Part::Head => Ok(()),
    }
}

// Not all callers of the function wait that a command calls.
fn take_called(subject: &Subject<'_>, waiting: &mut Waiting, command: u32) {
    if let Some(function) = subject.table.callee(command) {
        waiting.called.take(function.saturating_sub(1));
    }
}

/// A sweep looks at a command, which waits no longer. Returns whether it waited.
pub fn look(subject: &Subject<'_>, waiting: &mut Waiting, command: u32) -> Look {
    take_called(subject, waiting, command);
    waiting.look(command)
}

/// A sweep looks at a call again after it went into the bodies of the function.
pub fn look_again(subject: &Subject<'_>, waiting: &mut Waiting, command: u32) {
    take_called(subject, waiting, command);
    waiting.release(command);
}

/// A sweep goes into a body of the function of an index. Returns the index of the one that it was
/// in.
pub fn enter_function(waiting: &mut Waiting, index: u16) -> u16 {
    waiting.entered.take(u32::from(index));
    let outer = waiting.function;
    waiting.function = index;
    outer
}

// The rows of facts.
fn rows_of(facts: Option<Facts>) -> Option<(RowId, RowId)> {
    match facts {
        Some(
            Facts::Known {
                vars,
                functions,
                ..
            },
        ) => Some((vars, functions)),
        _ => None,
    }
}

/// Notes whether what is claimed at a place was lowered, which was this before, and has those wait
/// that look at it. None waits for a count alone while the sweeps follow no count back.
///
/// # Errors
///
/// If a growth was refused.
pub fn note_place(
    subject: &Subject<'_>,
    draft: &mut Draft,
    place: Place,
    before: Option<Facts>,
    is_lowered: bool,
) -> Result<(), AllocError>
    ensures certificate { draft.new.certificate ≡ draft.old.certificate }
    ensures probe { draft.new.probe ≡ draft.old.probe }
{
    if !is_lowered {
        return Ok(());
    }
    draft.lowered = draft.lowered.saturating_add(1);
    draft.traces.falls = draft.traces.falls.saturating_add(1);
    let now = facts_at(&draft.certificate, place);
    draft.is_count = now != before && rows_of(now) == rows_of(before);
    draft.counted = draft.counted.saturating_add(u64::from(draft.is_count));
    if !draft.is_count {
        draft.tires = tires_after(draft.looks, subject.commands.len());
    }
    if draft.is_count && !draft.follows_counts() && place.part.is_of_function() {
        draft.has_left = true;
        return Ok(());
    }
    wake_place(subject, &mut draft.waiting, place)
}

/// As `note_place`, and notes whether a function may drop more than these.
///
/// # Errors
///
/// If a growth was refused.
pub fn note_lowered(
    subject: &Subject<'_>,
    draft: &mut Draft,
    target: Target,
    before: Option<Facts>,
    drops: Option<Drops>,
    is_lowered: bool,
) -> Result<(), AllocError>
    ensures certificate { draft.new.certificate ≡ draft.old.certificate }
    ensures probe { draft.new.probe ≡ draft.old.probe }
{
    note_place(subject, draft, target.place, before, is_lowered)?;
    if drops_of(&draft.certificate, target.function) != drops {
        wake_callers(&mut draft.waiting, target.function)?;
    }
    Ok(())
}
