//! How long a look at a command takes, what traces it leaves, and whether the command has words
//! that hold another: hints.

use sh_drafts::extent::last_in_items;
use sh_drafts::{Subject, Traces, holds_back};
use sh_sweeps::News;
use sh_sweeps::waits::{Member, number_at};
use sh_tree::{Clause, Command, Element, Item, Kind, Link, Pipe, Target};
use sh_worklist::{Look, Waiting};

// So many bytes of words take as long as a short command.
const BYTES: u32 = 32;

// So many patterns, clauses, branches and redirections do.
const PIECES: usize = 8;

/// How many looks at short commands take as long as a look at this one.
pub fn looks_of(command: &Command) -> u64 {
    let bytes = end_of_words(command).saturating_sub(command.at);
    let pieces = pieces_of(&command.kind).saturating_add(command.redirects.as_slice().len());
    1u64.saturating_add((bytes / BYTES) as u64)
        .saturating_add((pieces / PIECES) as u64)
}

/// The traces after a look at a command, which may be entered with less.
pub fn traced(traces: Traces, look: Look, has_fallen: bool) -> Traces {
    Traces {
        falls: traces.falls,
        entries: traces.entries.saturating_add(u64::from(has_fallen)),
        looks: traces.looks.saturating_add(u64::from(look.own)),
    }
}

/// Whether the next command begins in the words of this one. One in a here-document may come later.
pub fn is_before_next(subject: &Subject<'_>, command: &Command) -> bool {
    match subject.commands.get(command.number as usize) {
        Some(next) => next.at < end_of_words(command),
        None => false,
    }
}

// Where the words of a command end. If it has none, it ends there.
fn end_of_words(command: &Command) -> u32 {
    let end = match &command.kind {
        Kind::Simple(elements) => elements.as_slice().last().map(end_of),
        Kind::For {
            words: Some(words),
            ..
        } => words.as_slice().last().map(|word| word.span.end),
        _ => None,
    };
    end.unwrap_or(command.at)
}

fn end_of(element: &Element) -> u32 {
    match element {
        Element::Assignment { value, .. } => value.span.end,
        Element::Word(word) => word.span.end,
        Element::Redirection(redirect) => match &redirect.target {
            Target::File(_, word) => word.span.end,
            Target::Here(here) => here.body.span.end,
        },
    }
}

// How many clauses with their patterns, or branches, a command has.
fn pieces_of(kind: &Kind) -> usize {
    match kind {
        Kind::Branches { clauses, .. } => count(clauses.as_slice()),
        Kind::Cond { branches, .. } => branches.as_slice().len(),
        _ => 0,
    }
}

fn count(clauses: &[Clause]) -> usize {
    let mut pieces = 0usize;
    for clause in clauses {
        pieces = pieces.saturating_add(1 + clause.patterns.as_slice().len());
    }
    pieces
}

// If so few commands come after an item or a pipeline in its list, what falls in it is not late.
const FEW_COMMANDS: u32 = 64;

/// What is new after the first of these items, unless it is handed on later.
pub fn handed_on(subject: &Subject<'_>, waiting: &mut Waiting, news: News, items: &[Item]) -> News {
    match items {
        [item, next, ..] if news == News::Anything => {
            let last = last_in_items(items);
            if is_held_back(subject, waiting, item, next, last) {
                News::Nothing
            } else {
                news
            }
        }
        _ => news,
    }
}

/// Whether what fell in the first of these pipelines, if it has fallen, is handed on later.
pub fn is_link_held(
    subject: &Subject<'_>,
    waiting: &mut Waiting,
    has_fallen: bool,
    links: &[(Link, Pipe)],
) -> bool {
    match links {
        [link, next, .., last] if has_fallen => {
            let last = last.1.parts.as_slice().last();
            is_held_back(subject, waiting, link, next, last)
        }
        _ => false,
    }
}

// Whether what fell in one is handed on later to the next, since it fell in many sweeps and many
// commands come after it up to the last.
fn is_held_back<M: Member>(
    subject: &Subject<'_>,
    waiting: &mut Waiting,
    member: &M,
    next: &M,
    last: Option<&Command>,
) -> bool {
    let number = member.number(subject);
    let end = match last {
        Some(last) => number_at(subject, end_of_words(last)),
        None => number,
    };
    end.saturating_sub(number) > FEW_COMMANDS && holds_back(waiting, number, next.number(subject))
}
