//! What is between tokens (XCU 2.3).
ghost use Rattle.std.specs.Prelude.{◌≡◌, ◌≤◌, ◌-◌, if◌then◌else◌, length, drop};
ghost use Rattle.sh_tree.specs.standard.language.Bytes as bytes;
ghost use Rattle.sh_tree.specs.standard.language.Commands as commands;
ghost use Rattle.sh_scan.specs.Steps.{gap_step};

use crate::bytes::is_blank;
use crate::front::{begins_with, joined_step};
use crate::here_document::line_length;
use sh_tree::MAX_SCRIPT;

#[tactic(auto, unfolding(crate::specs::Steps::gap_step))]
fn gap_step(rest: &[u8]) -> usize
    ensures value { result ≡ gap_step rest.now }
    ensures within { result ≤ length rest.now }
{
    match rest {
        [] => 0,
        [first, ..] => {
            if is_blank(*first) {
                1
            } else {
                joined_step(rest)
            }
        }
    }
}

/// How many bytes of blanks and line continuations there are at the front.
fn gap_length(rest: &[u8]) -> usize
    ensures value { result ≡ commands.gap_length rest.now }
    ensures within { result ≤ length rest.now }
{
    let mut length = 0;
    loop {
        let step = gap_step(&rest[length..]);
        if step == 0 {
            return length;
        }
        length += step;
    }
}

fn comment_length(rest: &[u8]) -> usize
    ensures value { result ≡ commands.comment_length rest.now }
    ensures within { result ≤ length rest.now }
{
    rest.iter().take_while(|byte| **byte != b'\n').count()
}

/// How many bytes the comment at the front has, if there is one.
fn comment_step(body: bool, rest: &[u8]) -> usize
    ensures value { result ≡ if commands.is_comment body rest.now then commands.comment_length rest.now else 0 }
    ensures within { result ≤ length rest.now }
{
    if !begins_with(rest, b'#') {
        return 0;
    }
    let count = comment_length(rest);
    if body && line_length(rest, true) != count {
        0
    } else {
        count
    }
}

#[tactic(auto, unfolding(sh_tree::specs::standard::language::Commands::blank_length))]
fn blank_length(body: bool, rest: &[u8]) -> usize
    ensures value { result ≡ commands.blank_length body rest.now }
    ensures within { result ≤ length rest.now }
{
    let gap = gap_length(rest);
    gap + comment_step(body, &rest[gap..])
}

/// Where the token at or after `at` begins: after blanks, line continuations and a comment. In the
/// body of a here-document a comment whose line goes on after a continuation is none.
#[tactic(auto, unfolding(sh_tree::specs::standard::language::Commands::blanks))]
pub fn blanks_at(script: &[u8], at: u32, body: bool) -> u32
    requires small { length script.now ≤ MAX_SCRIPT }
    requires inside { at ≤ length script.now }
    ensures value { result ≡ commands.blanks body script.now at }
    ensures within { result ≤ length script.now }
    ensures after { at ≤ result }
{
    (at as usize + blank_length(body, &script[at as usize..])) as u32
}
