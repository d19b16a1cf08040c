//! How many commands are in a command or in items: hints.

use sh_tree::{Command, Item, Kind, Script};

// A command may be so many levels in another.
const LEVELS: u32 = 2048;

// The last list of a compound command.
fn last_list(kind: &Kind) -> Option<&Script> {
    match kind {
        Kind::Group(list) => Some(list),
        Kind::Subshell(list) => Some(list),
        Kind::Loop { body, .. } => Some(body),
        Kind::For { body, .. } => Some(body),
        Kind::Cond {
            otherwise: Some(list),
            ..
        } => Some(list),
        Kind::Cond { branches, .. } => branches.as_slice().last().map(|branch| &branch.body),
        Kind::Branches { clauses, .. } => clauses.as_slice().last().map(|clause| &clause.body),
        Kind::Simple(_) => None,
        Kind::Define { .. } => None,
    }
}

// The last command of items.
fn last_of(items: &[Item]) -> Option<&Command> {
    let list = &items.last()?.list;
    let pipe = match list.rest.as_slice() {
        [.., (_, pipe)] => pipe,
        [] => &list.first,
    };
    pipe.parts.as_slice().last()
}

// The last command that is directly in another.
fn last_in(command: &Command) -> Option<&Command> {
    match &command.kind {
        Kind::Define { body, .. } => Some(body.get()),
        kind => last_of(last_list(kind)?.items.as_slice()),
    }
}

// The last command of another that is not in words, or the command itself.
fn last_within(command: &Command) -> &Command {
    let mut last = command;
    for _level in 0..LEVELS {
        match last_in(last) {
            Some(inner) => last = inner,
            None => return last,
        }
    }
    last
}

/// How many commands are in a command, apart from those in words after the last one.
pub fn extent_of(command: &Command) -> u32 {
    last_within(command).number.saturating_sub(command.number)
}

/// The last command of items that is not in words.
pub fn last_in_items(items: &[Item]) -> Option<&Command> {
    last_of(items).map(|command| last_within(command))
}
