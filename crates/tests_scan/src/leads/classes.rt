use crate::check::same;
use sh_scan::{
    begins_command, begins_compound, begins_pipeline, begins_simple, clause_end_of, is_redirection,
    link_of, separator,
};
use sh_tree::{ClauseEnd, Form, Lead, Link, Operator, Reserved};
use std::process::Abort;
use std::test::Fail;

/// The least that a token begins.
#[derive(Clone, Copy)]
enum Least {
    Redirection,
    Simple,
    Compound,
    Command,
    Pipeline,
    Nothing,
}

impl Least {
    /// Whether it begins a redirection, a simple command, a compound one, a command and a pipeline.
    fn classes(self) -> [bool; 5] {
        match self {
            Least::Redirection => [true, true, false, true, true],
            Least::Simple => [false, true, false, true, true],
            Least::Compound => [false, false, true, true, true],
            Least::Command => [false, false, false, true, true],
            Least::Pipeline => [false, false, false, false, true],
            Least::Nothing => [false; 5],
        }
    }
}

/// A token, and what it begins.
type Row = (Lead, Least);

fn check(rt: &impl Abort, rows: &[Row]) {
    for (lead, least) in rows {
        let found = [
            is_redirection(*lead),
            begins_simple(*lead),
            begins_compound(*lead),
            begins_command(*lead),
            begins_pipeline(*lead),
        ];
        same(rt, lead, &found, &least.classes());
    }
}

const CLASSES: &[Row] = &[
    (Lead::Number, Least::Redirection),
    (Lead::Operator(Operator::HereDoc), Least::Redirection),
    (Lead::Word, Least::Simple),
    (Lead::Assignment, Least::Simple),
    (Lead::Operator(Operator::LeftParenthesis), Least::Compound),
    (Lead::Reserved(Reserved::While), Least::Compound),
    (Lead::Reserved(Reserved::Do), Least::Nothing),
    (Lead::Definition, Least::Command),
    (Lead::Reserved(Reserved::Bang), Least::Pipeline),
    (Lead::Newline, Least::Nothing),
    (Lead::LeftOut(Form::Time), Least::Nothing),
];

#[test]
fn classes(rt: HostRuntime) -> Result<(), Fail> {
    check(&rt, CLASSES);
    Ok(())
}

/// What a token is after a command.
#[derive(Clone, Copy)]
enum Behind {
    /// It parts two items; the first may be in the background.
    Separator(bool),
    Link(Link),
    End(ClauseEnd),
    Nothing,
}

impl Behind {
    fn separator(self) -> Option<bool> {
        match self {
            Behind::Separator(background) => Some(background),
            _ => None,
        }
    }

    fn link(self) -> Option<Link> {
        match self {
            Behind::Link(link) => Some(link),
            _ => None,
        }
    }

    fn end(self) -> Option<ClauseEnd> {
        match self {
            Behind::End(end) => Some(end),
            _ => None,
        }
    }
}

fn check_behind(rt: &impl Abort, rows: &[(Lead, Behind)]) {
    for (lead, behind) in rows {
        same(rt, lead, &separator(*lead), &behind.separator());
        same(rt, lead, &link_of(*lead), &behind.link());
        same(rt, lead, &clause_end_of(*lead), &behind.end());
    }
}

const BEHIND: &[(Lead, Behind)] = &[
    (Lead::Newline, Behind::Separator(false)),
    (
        Lead::Operator(Operator::Semicolon),
        Behind::Separator(false),
    ),
    (Lead::Operator(Operator::And), Behind::Separator(true)),
    (Lead::Operator(Operator::AndIf), Behind::Link(Link::AndThen)),
    (Lead::Operator(Operator::OrIf), Behind::Link(Link::OrElse)),
    (
        Lead::Operator(Operator::DoubleSemicolon),
        Behind::End(ClauseEnd::Break),
    ),
    (
        Lead::Operator(Operator::SemicolonAnd),
        Behind::End(ClauseEnd::FallThrough),
    ),
    (Lead::End, Behind::Nothing),
];

#[test]
fn behind_commands(rt: HostRuntime) -> Result<(), Fail> {
    check_behind(&rt, BEHIND);
    Ok(())
}
