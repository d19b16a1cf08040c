//! The bodies of here-documents (XCU 2.7.4).
ghost use Rattle.std.specs.Prelude.{◌-◌, ◌≡◌, ◌<◌, ◌≤◌, ◌&&◌, not, ◌∷◌, [], None, Err, length};
ghost use Rattle.sh_tree.specs.standard.language.HereDocuments as here_documents;
ghost use Rattle.sh_grammar.specs.Documents.{BodyRead, Checks, DocumentFrom, DocumentsFrom, Passing};
ghost use Rattle.sh_grammar.specs.Faults.{IsFault, unended};
ghost use Rattle.sh_grammar.specs.Marks.{mark_of};
ghost use Rattle.sh_grammar.specs.Nests.{Nests};
ghost use Rattle.sh_grammar.specs.States.{AreBefore, Lies};

use super::end_lines::{behind_line, end_line};
use super::grammar::Grammar;
use super::kept::{joined_if, split_at, tabbed_if};
use super::mark::Mark;
use super::state::{Cursor, State};
use sh_bodies::Document;
use sh_tree::{Fault, Form, Items, MAX_SCRIPT, Part, Refusal, Script, Span, Word};
use sh_words::Mode;
use std::alloc::Global;

/// What is reported if no line ends the body: the closing backquote, if the last line holds it. In
/// the body of another here-document it is that this one goes on outside.
fn unended(script: &[u8], mark: &Mark, from: &State) -> Refusal
    requires small { length script.now ≤ MAX_SCRIPT }
    requires inside { mark.now.at < length script.now }
    ensures which { result ≡ unended script.now mark.now from.now }
    ensures fault { IsFault script.now result }
{
    if let Some(at) = from.ticks.overrun(script) {
        Refusal::LeftOut(Form::BackquoteInside, at)
    } else if from.joins {
        Refusal::LeftOut(Form::HereAcross, mark.at)
    } else {
        Refusal::Syntax(Fault::OpenHereDoc, mark.at)
    }
}

/// Whether tabs are stripped from lines that are joined.
fn strips_joined(mark: &Mark) -> bool
    ensures { result ≡ (mark.now.strip && not mark.now.quoted) }
{
    mark.strip && !mark.quoted
}

/// Whether the line begins with a backslash, or with a tab.
#[tactic(auto, unfolding(sh_tree::specs::standard::language::Bytes::is_first))]
fn begins_late(line: &[u8]) -> bool
    ensures { result ≡ here_documents.begins_late line.now }
{
    match line {
        [] => false,
        [first, ..] => *first == b'\\' || *first == b'\t',
    }
}

/// Whether the end line is joined, and may begin with a continuation.
fn joins_end(mark: &Mark, line: &[u8]) -> bool
    ensures { result ≡ (not mark.now.quoted && here_documents.begins_late line.now) }
{
    !mark.quoted && begins_late(line)
}

/// Whether the here-document keeps continuations, and what is around joins lines.
fn keeps_joined(mark: &Mark, from: &State) -> bool
    ensures { result ≡ (from.now.joins && mark.now.quoted) }
{
    from.joins && mark.quoted
}

/// Whether the here-document keeps tabs, and what is around strips them.
fn keeps_tabs(mark: &Mark, from: &State) -> bool
    ensures { result ≡ (from.now.tabs && not mark.now.strip) }
{
    from.tabs && !mark.strip
}

/// A line that is read in two ways. If `<<-` strips tabs, it is one that begins with a tab after a
/// continuation. In a body around, which is joined or stripped, it is one that this here-document
/// keeps as it is. The end line is one if it begins with a continuation.
fn check_lines(script: &[u8], mark: &Mark, line: Span, from: &State) -> Result<(), Refusal>
    requires small { length script.now ≤ MAX_SCRIPT }
    requires ordered { (from.now.at ≤ line.start) × (line.start ≤ line.end) × (line.end ≤ length script.now) }
    requires begins { line.start < length script.now }
    ensures { Checks script.now mark.now from.now line result }
{
    let body = Span {
        start: from.at,
        end: line.start,
    };
    let whole = Span {
        start: from.at,
        end: behind_line(script, line.end),
    };
    if let Some(at) = joined_if(strips_joined(mark), body.text(script), true) {
        return Err(Refusal::LeftOut(Form::HereTab, from.at + at + 2));
    }
    if let Some(at) = joined_if(keeps_joined(mark, from), whole.text(script), false) {
        return Err(Refusal::LeftOut(Form::Continuation, from.at + at));
    }
    if let Some(at) = tabbed_if(keeps_tabs(mark, from), whole.text(script)) {
        return Err(Refusal::LeftOut(Form::HereTab, from.at + at));
    }
    let end = line.text(script);
    if let Some(at) = joined_if(joins_end(mark, end), end, false) {
        return Err(Refusal::LeftOut(Form::Continuation, line.start + at));
    }
    Ok(())
}

impl<F: Fn(Global, &[u8], Cursor) -> Result<(Script, Cursor), Refusal>> Grammar<F> {
    /// The body at the beginning of a line, and the line that ends it.
    fn document(&self, script: &[u8], mark: &Mark, from: Cursor) -> Result<Cursor, Refusal>
        requires small { length script.now ≤ MAX_SCRIPT }
        requires lies { Lies script.now from }
        requires marked { AreBefore (length script.now) (mark.now ∷ []) }
        requires further { length script.now - from.at < self.now.left }
        requires nests { Nests self.now.left (F.pre self.now.nested) (F.post self.now.nested) }
        ensures reads { Passing script.now (DocumentFrom script.now mark.now from) from.at result }
        ensures open { here_documents.end_line (mark_of mark.now) script.now from.at ≡ None → result ≡ Err (unended script.now mark.now from) }
    {
        let here = from.get();
        let Some(line) = end_line(script, mark, here.at) else {
            return Err(unended(script, mark, here));
        };
        check_lines(script, mark, line, here)?;
        let (parts, count) = self.body(script, mark, line.start, here)?;
        let span = Span {
            start: here.at,
            end: line.start,
        };
        let document = Document {
            text: Word { span, parts },
            end: line,
        };
        Ok(from.with_document(document, count, behind_line(script, line.end))?)
    }

    /// The parts of the body from a line's beginning up to `end`, and how many commands began
    /// before it ends.
    fn body(
        &self,
        script: &[u8],
        mark: &Mark,
        end: u32,
        from: &State,
    ) -> Result<(Items<Part>, u32), Refusal>
        requires small { length script.now ≤ MAX_SCRIPT }
        requires lies { Lies script.now from.now }
        requires marked { AreBefore (length script.now) (mark.now ∷ []) }
        requires ordered { from.now.at ≤ end }
        requires inside { end ≤ length script.now }
        requires further { length script.now - from.now.at < self.now.left }
        requires nests { Nests self.now.left (F.pre self.now.nested) (F.post self.now.nested) }
        ensures { BodyRead script.now mark.now end from.now result }
    {
        let seen = &script[..end as usize];
        let mode = Mode::Body {
            end,
            strip: mark.strip,
            quoted: mark.quoted,
        };
        let inside = Cursor::new(self.alloc, from.in_document(self.alloc, mark))?;
        let (word, last) = self.built(seen, mode, from.at, inside)?;
        if let Some(at) = split_at(script, !mark.quoted, word.parts.as_slice()) {
            return Err(Refusal::LeftOut(Form::Continuation, at));
        }
        Ok((word.parts, last.count()))
    }

    /// The bodies of the here-documents, one after the other from a line's beginning on.
    #[tactic(auto, using(crate::proofs::DocumentLemmas::documents_first))]
    pub fn documents(&self, script: &[u8], marks: &[Mark], from: Cursor) -> Result<Cursor, Refusal>
        requires small { length script.now ≤ MAX_SCRIPT }
        requires lies { Lies script.now from }
        requires marked { AreBefore (length script.now) marks.now }
        requires further { length script.now - from.at < self.now.left }
        requires nests { Nests self.now.left (F.pre self.now.nested) (F.post self.now.nested) }
        ensures { Passing script.now (DocumentsFrom script.now marks.now from) from.at result }
    {
        let mut next = from;
        let mut left = marks;
        while let [mark, others @ ..] = left {
            next = self.document(script, mark, next)?;
            left = others;
        }
        Ok(next)
    }
}
