//! Where a sweep goes on among the words of a command, and in a word: at the next one in which a
//! command may wait, by where that begins in the script. All of this is hints.
ghost use Rattle.std.specs.Prelude.{◌≡◌, ◌≤◌, ◌<◌, List, true, false, length};
ghost use Rattle.sh_tree.specs.standard.program.Syntax.{Text as Bytes};
ghost use Rattle.sh_domain.specs.Facts.{NotReached};
ghost use Rattle.sh_domain.specs.Knowledge.{knowledge_facts};

use crate::waits::{next_between, number_at};
use sh_domain::Knowledge;
use sh_drafts::Subject;
use sh_tree::{Binary, Element, Expr, Part, Redirect, Span, Target, Word};
use sh_worklist::Waiting;

// So few are looked at one by one.
const FEW: usize = 8;

// The first operands of an expression are no more levels in than this.
const LEVELS: u32 = 2048;

/// A word, what has one, or a piece of one. Each begins after the one before it, except in a
/// here-document.
pub trait Text {
    /// Where it begins in the script.
    fn start(&self) -> u32;
}

impl Text for Word {
    fn start(&self) -> u32 {
        self.span.start
    }
}

impl Text for Redirect {
    fn start(&self) -> u32 {
        self.at
    }
}

impl Text for Element {
    fn start(&self) -> u32 {
        match self {
            Element::Assignment { name, .. } => name.start,
            Element::Word(word) => word.span.start,
            Element::Redirection(redirect) => redirect.at,
        }
    }
}

impl Text for Part {
    fn start(&self) -> u32 {
        match self {
            Part::Plain(span)
            | Part::Escaped(span)
            | Part::Single(_, span)
            | Part::Double(span, _)
            | Part::Arith(span, _)
            | Part::Command(_, span, _)
            | Part::Tilde(span)
            | Part::Joined(span) => span.start,
            Part::Param(param) => param.span.start,
        }
    }
}

impl Text for (Binary, Expr) {
    fn start(&self) -> u32 {
        start_of(&self.1)
    }
}

// Where the first operand of an expression begins.
fn start_of(expression: &Expr) -> u32 {
    let mut first = expression;
    for _level in 0..LEVELS {
        first = match first {
            Expr::Constant(span) | Expr::Variable(span) => return span.start,
            Expr::Assign { name, .. } => return name.start,
            Expr::Expansion(part) => return part.start(),
            Expr::Parenthesis(inner) => inner.get(),
            Expr::Unary { operand, .. } => operand.get(),
            Expr::Chain { first, .. } => first.get(),
            Expr::Choice { condition, .. } => condition.get(),
        };
    }
    0
}

/// A text that may be a redirection.
pub trait MayRedirect: Text {
    /// The body of its here-document, if it has one, which is elsewhere in the script.
    fn body(&self) -> Option<Span>;
}

impl MayRedirect for Redirect {
    fn body(&self) -> Option<Span> {
        match &self.target {
            Target::Here(document) => Some(document.body.span),
            _ => None,
        }
    }
}

impl MayRedirect for Element {
    fn body(&self) -> Option<Span> {
        match self {
            Element::Redirection(redirect) => redirect.body(),
            _ => None,
        }
    }
}

/// Whether a sweep goes over elements one by one, since something is known.
#[tactic(auto, using(crate::proofs::KnownLemmas::unreached))]
pub fn goes_by_one(known: &Knowledge, behind: &Knowledge) -> bool
    ensures known { result ≡ false → (names : List Bytes) → knowledge_facts names known.now ≡ NotReached }
    ensures behind { result ≡ false → (names : List Bytes) → knowledge_facts names behind.now ≡ NotReached }
{
    known.is_reached() || behind.is_reached()
}

// The last place from a place on of a text that begins at an offset or before it, or that place.
fn place_at<T: Text>(texts: &[T], from: usize, offset: u32) -> usize
    requires { from < length texts.now }
    ensures from { from ≤ result }
    ensures there { result < length texts.now }
{
    let count = texts[from..].partition_point(|text| text.start() <= offset);
    from + count.saturating_sub(1)
}

// Where the command of a number begins.
fn offset_of(subject: &Subject<'_>, number: u32) -> u32 {
    match subject.commands.get((number as usize).saturating_sub(1)) {
        Some(command) => command.at,
        None => u32::MAX,
    }
}

/// The place from a place on at which a sweep goes on: there if it goes one by one, or else at the
/// first text in which a command may wait. Their count if there is none.
pub fn place_of_text<T: Text>(
    subject: &Subject<'_>,
    waiting: &Waiting,
    by_one: bool,
    texts: &[T],
    from: usize,
) -> usize
    requires { from < length texts.now }
    ensures from { from ≤ result }
    ensures there { result ≤ length texts.now }
    ensures known { by_one ≡ true → result ≡ from }
{
    if by_one || texts.len() - from <= FEW {
        return from;
    }
    let first = number_at(subject, texts[from].start());
    match waiting.next(first, u32::MAX) {
        Some(number) => place_at(texts, from, offset_of(subject, number)),
        None => texts.len(),
    }
}

// Where the first command begins that may wait in a here-document of these texts. The bodies follow
// each other as the texts do.
fn offset_in_bodies<T: MayRedirect>(
    subject: &Subject<'_>,
    waiting: &Waiting,
    texts: &[T],
) -> Option<u32> {
    let first = texts.iter().find_map(|text| text.body())?;
    let last = texts.iter().rev().find_map(|text| text.body())?;
    let number = next_between(subject, waiting, first.start, last.end)?;
    Some(offset_of(subject, number))
}

/// The place as of `place_of_text`, or that of a text before it in whose here-document a command
/// may wait.
pub fn place_of_redirect<T: MayRedirect>(
    subject: &Subject<'_>,
    waiting: &Waiting,
    by_one: bool,
    texts: &[T],
    from: usize,
) -> usize
    requires { from < length texts.now }
    ensures from { from ≤ result }
    ensures there { result ≤ length texts.now }
    ensures known { by_one ≡ true → result ≡ from }
{
    let next = place_of_text(subject, waiting, by_one, texts, from);
    let Some(offset) = offset_in_bodies(subject, waiting, &texts[from..next]) else {
        return next;
    };
    let mut passed = texts[from..next].iter();
    match passed.position(|text| text.body().is_some_and(|body| offset < body.end)) {
        Some(count) => from + count,
        None => next,
    }
}
