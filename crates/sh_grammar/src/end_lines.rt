//! The line that ends a here-document (XCU 2.7.4).
ghost use Rattle.std.specs.Prelude.{◌≡◌, ◌<◌, ◌≤◌, ◌&&◌, Bool, drop, take, length, not, if◌then◌else◌, IfSome};
ghost use Rattle.std.specs.Str.{bytes_eq};
ghost use Rattle.sh_grammar.specs.Lines as lines;
ghost use Rattle.sh_grammar.specs.Marks.{mark_of};
ghost use Rattle.sh_tree.specs.standard.language.Bytes.{is_tab, run};
ghost use Rattle.sh_tree.specs.standard.language.HereDocuments as documents;

use super::mark::Mark;
use sh_scan::here_line;
use sh_tree::{MAX_SCRIPT, Span};

/// The line after the one that ends at `end`.
pub fn behind_line(script: &[u8], end: u32) -> u32
    requires small { length script.now ≤ MAX_SCRIPT }
    requires inside { end ≤ length script.now }
    ensures value { result ≡ documents.behind_line script.now end }
    ensures within { result ≤ length script.now }
    ensures after { end ≤ result }
{
    if (end as usize) < script.len() {
        end + 1
    } else {
        end
    }
}

/// How many bytes the first piece of a line takes: a line continuation, a backslash and the byte
/// after it, or a byte.
#[tactic(auto, unfolding(crate::specs::Lines::piece_step))]
fn piece_step(rest: &[u8], joins: bool) -> usize
    ensures value { result ≡ lines.piece_step joins rest.now }
    ensures within { result ≤ length rest.now }
{
    match rest {
        [] => 0,
        [_] => 1,
        [first, _, ..] => { if joins && *first == b'\\' { 2 } else { 1 } }
    }
}

/// How many bytes of the first piece stay: none of a line continuation.
#[tactic(auto, unfolding(crate::specs::Lines::piece_kept))]
fn piece_kept(rest: &[u8], joins: bool) -> usize
    ensures value { result ≡ lines.piece_kept joins rest.now }
    ensures within { result ≤ length rest.now }
{
    match rest {
        [] => 0,
        [_] => 1,
        [first, second, ..] => {
            if joins && *first == b'\\' {
                if *second == b'\n' { 0 } else { 2 }
            } else {
                1
            }
        }
    }
}

/// Whether the line, joined if lines are, is the text.
fn is_text(line: &[u8], joins: bool, text: &[u8]) -> bool
    ensures { result ≡ bytes_eq (documents.line_text joins line.now) text.now }
{
    let mut at = 0;
    let mut told = 0;
    loop {
        let rest = &line[at..];
        let taken = piece_step(rest, joins);
        if taken == 0 {
            return told == text.len();
        }
        let kept = piece_kept(rest, joins);
        if !text[told..].starts_with(&rest[..kept]) {
            return false;
        }
        told += kept;
        at += taken;
    }
}

/// How many bytes of a tab or of a line continuation are at the front.
#[tactic(auto, unfolding(crate::specs::Lines::strip_step))]
fn strip_step(rest: &[u8], joins: bool) -> usize
    ensures value { result ≡ lines.strip_step joins rest.now }
    ensures within { result ≤ length rest.now }
{
    match rest {
        [] => 0,
        [first] => { if *first == b'\t' { 1 } else { 0 } }
        [first, second, ..] => {
            if *first == b'\t' {
                1
            } else if joins && *first == b'\\' && *second == b'\n' {
                2
            } else {
                0
            }
        }
    }
}

/// The line without the tabs at its front.
fn stripped(line: &[u8], joins: bool) -> &[u8]
    ensures { documents.line_text joins result.now ≡ drop (run is_tab (documents.line_text joins line.entry.now)) (documents.line_text joins line.entry.now) }
{
    let mut at = 0;
    loop {
        let rest = &line[at..];
        let step = strip_step(rest, joins);
        if step == 0 {
            return rest;
        }
        at += step;
    }
}

/// Whether the line ends the here-document.
fn ends(line: &[u8], mark: &Mark) -> bool
    ensures { result ≡ lines.ends (mark_of mark.now) line.now }
{
    let joins = !mark.quoted;
    let rest = if mark.strip {
        stripped(line, joins)
    } else {
        line
    };
    is_text(rest, joins, mark.delimiter.as_slice())
}

/// The line that ends the body that begins at `from`, without its newline.
pub fn end_line(script: &[u8], mark: &Mark, from: u32) -> Option<Span>
    requires small { length script.now ≤ MAX_SCRIPT }
    requires inside { from ≤ length script.now }
    ensures value { result ≡ documents.end_line (mark_of mark.now) script.now from }
    ensures begins { IfSome result (λ l. l.start < length script.now) }
    ensures ordered { IfSome result (λ l. (from ≤ l.start) × (l.start ≤ l.end) × (l.end ≤ length script.now)) }
{
    let mut start = from;
    while (start as usize) < script.len() {
        let end = here_line(script, start, !mark.quoted);
        if ends(&script[start as usize..end as usize], mark) {
            return Some(Span { start, end });
        }
        start = behind_line(script, end);
    }
    None
}
