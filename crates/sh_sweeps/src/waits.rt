//! Where a sweep goes on in a list, a pipeline or a compound command: at the next member in which
//! something waits. All of this is hints.
ghost use Rattle.std.specs.Prelude.{◌≡◌, ◌≤◌, ◌<◌, true, length, IfSome};

use sh_drafts::Subject;
use sh_drafts::inner::is_in_word;
use sh_tree::{
    Branch, Clause, Command, Item, Kind, Link, ParameterOperator, Part, Pipe, Script, Word,
};
use sh_worklist::Waiting;

// So many members are looked at one by one.
const FEW: usize = 16;

// So many patterns of a clause are looked at one by one.
const FEW_PATTERNS: usize = 8;

// In a word of no more bytes each part is looked at.
const SHORT: u32 = 64;

/// One of those that follow each other. The numbers of the commands rise from one to the next.
pub trait Member {
    /// The number of the first command in it, or of the first one after it if it has none.
    fn number(&self, subject: &Subject<'_>) -> u32;

    /// Whether a command of it may wait, or one inside of these.
    fn waits(&self, subject: &Subject<'_>, waiting: &Waiting) -> bool;
}

impl Member for Command {
    fn number(&self, _subject: &Subject<'_>) -> u32 {
        self.number
    }

    fn waits(&self, _subject: &Subject<'_>, waiting: &Waiting) -> bool {
        waiting.has(self.number)
    }
}

impl Member for Pipe {
    fn number(&self, _subject: &Subject<'_>) -> u32 {
        match self.parts.as_slice() {
            [command, ..] => command.number,
            [] => u32::MAX,
        }
    }

    fn waits(&self, subject: &Subject<'_>, waiting: &Waiting) -> bool {
        match self.parts.as_slice() {
            [command] => waiting.has(command.number),
            parts => next_place(subject, waiting, parts, 0).is_some(),
        }
    }
}

impl Member for (Link, Pipe) {
    fn number(&self, subject: &Subject<'_>) -> u32 {
        self.1.number(subject)
    }

    fn waits(&self, subject: &Subject<'_>, waiting: &Waiting) -> bool {
        self.1.waits(subject, waiting)
    }
}

impl Member for Item {
    fn number(&self, subject: &Subject<'_>) -> u32 {
        self.list.first.number(subject)
    }

    fn waits(&self, subject: &Subject<'_>, waiting: &Waiting) -> bool {
        let links = self.list.rest.as_slice();
        self.list.first.waits(subject, waiting) || next_place(subject, waiting, links, 0).is_some()
    }
}

impl Member for Branch {
    fn number(&self, subject: &Subject<'_>) -> u32 {
        match self.condition.items.as_slice() {
            [item, ..] => item.number(subject),
            [] => u32::MAX,
        }
    }

    fn waits(&self, subject: &Subject<'_>, waiting: &Waiting) -> bool {
        does_list_wait(subject, waiting, &self.condition)
            || does_list_wait(subject, waiting, &self.body)
    }
}

impl Member for Clause {
    fn number(&self, subject: &Subject<'_>) -> u32 {
        match self.patterns.as_slice() {
            [word, ..] => number_at(subject, word.span.start),
            [] => u32::MAX,
        }
    }

    fn waits(&self, subject: &Subject<'_>, waiting: &Waiting) -> bool {
        does_list_wait(subject, waiting, &self.body)
            || may_wait_in_patterns(subject, waiting, self.patterns.as_slice())
    }
}

/// The number of the first command that begins at an offset or after it. Numbers are from 1.
pub fn number_at(subject: &Subject<'_>, offset: u32) -> u32 {
    let before = subject
        .commands
        .partition_point(|command| command.at < offset);
    u32::try_from(before).unwrap_or(u32::MAX).saturating_add(1)
}

/// The number of the first command that may wait among those that begin from one offset up to
/// another.
pub fn next_between(subject: &Subject<'_>, waiting: &Waiting, start: u32, end: u32) -> Option<u32> {
    let first = number_at(subject, start);
    let behind = number_at(subject, end);
    waiting.next(first, behind.saturating_sub(1))
}

/// Whether a command may wait in a word.
pub fn may_wait_in(subject: &Subject<'_>, waiting: &Waiting, word: &Word) -> bool {
    if word.span.end.saturating_sub(word.span.start) <= SHORT {
        return may_wait_in_word(subject, waiting, word);
    }
    next_between(subject, waiting, word.span.start, word.span.end).is_some()
}

// Whether a command may wait in the patterns of a clause.
fn may_wait_in_patterns(subject: &Subject<'_>, waiting: &Waiting, patterns: &[Word]) -> bool {
    match patterns {
        [first, .., last] if patterns.len() > FEW_PATTERNS => {
            next_between(subject, waiting, first.span.start, last.span.end).is_some()
        }
        _ => patterns
            .iter()
            .any(|word| may_wait_in(subject, waiting, word)),
    }
}

/// Whether a command waits in a list.
pub fn does_list_wait(subject: &Subject<'_>, waiting: &Waiting, list: &Script) -> bool {
    match list.items.as_slice() {
        [item] => item.waits(subject, waiting),
        items => next_place(subject, waiting, items, 0).is_some(),
    }
}

/// Whether a command may wait in the lists of a compound command, and not in its words alone.
pub fn do_lists_wait(subject: &Subject<'_>, waiting: &Waiting, kind: &Kind) -> bool {
    match kind {
        Kind::Group(list) | Kind::Subshell(list) => does_list_wait(subject, waiting, list),
        Kind::Cond {
            branches,
            otherwise: None,
        } => next_place(subject, waiting, branches.as_slice(), 0).is_some(),
        Kind::Cond {
            branches,
            otherwise: Some(list),
        } => {
            next_place(subject, waiting, branches.as_slice(), 0).is_some()
                || does_list_wait(subject, waiting, list)
        }
        Kind::Loop {
            condition,
            body,
            ..
        } => does_list_wait(subject, waiting, condition) || does_list_wait(subject, waiting, body),
        Kind::For { body, .. } => does_list_wait(subject, waiting, body),
        Kind::Branches { clauses, .. } => next_place(
            subject,
            waiting,
            clauses.as_slice(),
            0,
        ).is_some(),
        Kind::Simple(_) | Kind::Define { .. } => true,
    }
}

// Whether a command may wait in a part of a word that is not in double quotes.
fn may_wait_in_part(subject: &Subject<'_>, waiting: &Waiting, part: &Part) -> bool {
    match part {
        Part::Command(_, _, list) => does_list_wait(subject, waiting, list),
        Part::Param(param) => !matches!(
            param.operator,
            ParameterOperator::Value | ParameterOperator::Length
        ),
        Part::Double(..) | Part::Arith(..) => true,
        _ => false,
    }
}

// Whether a command may wait in one of these.
fn may_wait_in_parts(subject: &Subject<'_>, waiting: &Waiting, parts: &[Part]) -> bool {
    let mut parts = parts.iter();
    parts.any(|part| may_wait_in_part(subject, waiting, part))
}

// Whether a command may wait in a word, each part of which is looked at.
fn may_wait_in_word(subject: &Subject<'_>, waiting: &Waiting, word: &Word) -> bool {
    let mut parts = word.parts.as_slice().iter();
    let may_wait = parts.any(|part| match part {
        Part::Double(_, parts) => may_wait_in_parts(subject, waiting, parts.as_slice()),
        _ => may_wait_in_part(subject, waiting, part),
    });
    may_wait && is_in_word(word)
}

// The place from a place on of the member in which the next command that waits may be, or of the
// last member.
fn place_behind<M: Member>(
    subject: &Subject<'_>,
    waiting: &Waiting,
    members: &[M],
    from: usize,
) -> usize
    requires { from < length members.now }
    ensures from { from ≤ result }
    ensures there { result < length members.now }
{
    let last = members.len() - 1;
    let first = members[from].number(subject);
    match waiting.next(first, members[last].number(subject)) {
        Some(number) => {
            let count = members[from..].partition_point(|member| member.number(subject) <= number);
            from + count.saturating_sub(1)
        }
        None => last,
    }
}

/// The place from a place on of the first member in which a command may wait. A few are looked at
/// one by one, since the bodies of functions that are never called wait too. The others are
/// searched for by the number of the next command that waits.
pub fn next_place<M: Member>(
    subject: &Subject<'_>,
    waiting: &Waiting,
    members: &[M],
    from: usize,
) -> Option<usize>
    ensures { IfSome result (λ place. (from ≤ place) × (place < length members.now)) }
{
    let mut place = from;
    while place < members.len() {
        let end = members.len().min(place.saturating_add(FEW));
        let mut first = members[place..end].iter();
        if let Some(count) = first.position(|member| member.waits(subject, waiting)) {
            return Some(place + count);
        }
        if end == members.len() {
            return None;
        }
        place = place_behind(subject, waiting, members, end);
    }
    None
}

/// The place from a place on at which a sweep goes on: there if something is known, or else at the
/// first member in which a command may wait. Their count if there is none.
pub fn place_of_news<M: Member>(
    subject: &Subject<'_>,
    waiting: &Waiting,
    is_known: bool,
    members: &[M],
    from: usize,
) -> usize
    requires { from < length members.now }
    ensures from { from ≤ result }
    ensures there { result ≤ length members.now }
    ensures known { is_known ≡ true → result ≡ from }
{
    if is_known {
        from
    } else {
        next_place(subject, waiting, members, from).unwrap_or(members.len())
    }
}
