//! Quotations that begin with `$'` (XCU 2.2.4).
ghost use Rattle.std.specs.Prelude.{◌≡◌, ◌≢◌, ◌≤◌, ◌<◌, ◌+◌, true, length};
ghost use Rattle.sh_tree.specs.standard.language.Words as words;
ghost use Rattle.sh_scan.specs.Moves.{reads_bytes, refuses};
ghost use Rattle.sh_scan.specs.Quotes as quotes;
ghost use Rattle.sh_scan.specs.Steps as steps;

use super::sites::is_among;
use sh_tree::{Fault, Form, MAX_SCRIPT, Sign, SingleStyle};

/// Whether a backslash keeps the byte, or means another one with it.
fn is_dollar_escape(byte: u8) -> bool
    ensures { result ≡ words.is_dollar_escape byte }
{
    is_among(b"\"'\\abefnrtv", byte)
}

/// How many bytes the quotation goes on by: those of one byte or of an escape.
#[tactic(auto, unfolding(crate::specs::Steps::escape_step))]
fn escape_step(rest: &[u8]) -> usize
    ensures value { result ≡ steps.escape_step rest.now }
    ensures within { result ≤ length rest.now }
{
    match rest {
        [] | [_] | [b'\'', ..] => 0,
        [b'\\', escaped, ..] => { if is_dollar_escape(*escaped) { 2 } else { 0 } }
        _ => 1,
    }
}

/// How many bytes there are before the end of the quotation, or before an escape that is not read.
fn quoted_length(rest: &[u8]) -> usize
    ensures value { result ≡ steps.quoted_length rest.now }
    ensures within { result ≤ length rest.now }
{
    let mut length = 0;
    loop {
        let step = escape_step(&rest[length..]);
        if step == 0 {
            return length;
        }
        length += step;
    }
}

/// What ends the quotation at the front of `rest`, after `behind` bytes of it.
#[tactic(auto, unfolding(crate::specs::Quotes::quotation_end))]
fn quotation_end(rest: &[u8], behind: usize) -> (Sign, usize)
    requires { behind + length rest.now ≤ MAX_SCRIPT }
    ensures value { result ≡ words.told_or behind (quotes.quotation_end rest.now) }
    ensures within { result.1 ≤ behind + length rest.now }
    ensures moves { reads_bytes result.0 ≡ true → 0 < result.1 }
    ensures told { refuses result.0 ≡ true → 0 < behind → result.1 < behind + length rest.now }
    ensures part { result.0 ≢ Sign.Stop }
{
    match rest {
        [b'\'', ..] => (Sign::Single(SingleStyle::Dollar), behind + 1),
        [] | [_] => (Sign::Fault(Fault::OpenSingle), 0),
        _ => (Sign::LeftOut(Form::DollarEscape), behind),
    }
}

/// A `$` and a quote, before `rest`.
pub fn dollar_quoted(rest: &[u8]) -> (Sign, usize)
    requires small { length rest.now + 2 ≤ MAX_SCRIPT }
    ensures value { result ≡ words.told_or 2 (words.dollar_quoted rest.now) }
    ensures within { result.1 ≤ length rest.now + 2 }
    ensures moves { reads_bytes result.0 ≡ true → 0 < result.1 }
    ensures told { refuses result.0 ≡ true → result.1 < length rest.now + 2 }
    ensures part { result.0 ≢ Sign.Stop }
{
    let length = quoted_length(rest);
    quotation_end(&rest[length..], length + 2)
}
