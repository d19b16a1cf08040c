//! Redirections (XCU 2.7).
ghost use Rattle.std.specs.Prelude.{◌≡◌, ◌≤◌, ◌<◌, ◌==◌, if◌then◌else◌, None, Some, length, IfSome};
ghost use Rattle.sh_tree.specs.standard.language.Commands as commands;

use super::operators::{operator_at, redirects};
use crate::front::digit_length;
use sh_tree::{MAX_SCRIPT, Redirection, Span};

fn number_of(start: u32, end: u32) -> Option<Span>
    ensures { result ≡ commands.number_of start end }
{
    if start == end {
        None
    } else {
        Some(Span { start, end })
    }
}

fn digits_end(script: &[u8], at: u32) -> u32
    requires small { length script.now ≤ MAX_SCRIPT }
    requires inside { at ≤ length script.now }
    ensures value { result ≡ commands.digits_end script.now at }
    ensures within { result ≤ length script.now }
    ensures after { at ≤ result }
{
    (at as usize + digit_length(&script[at as usize..])) as u32
}

/// The front of the redirection that begins at `at`.
#[tactic(auto, unfolding(sh_tree::specs::standard::language::Commands::redirection))]
pub fn redirection_at(script: &[u8], at: u32) -> Option<Redirection>
    requires small { length script.now ≤ MAX_SCRIPT }
    requires inside { at ≤ length script.now }
    ensures value { result ≡ commands.redirection script.now at }
    ensures within { IfSome result (λ found. found.end ≤ length script.now) }
    ensures moves { IfSome result (λ found. found.at < found.end) }
    ensures after { IfSome result (λ found. at ≤ found.at) }
{
    let start = digits_end(script, at);
    match operator_at(script, start) {
        Some((operator, end)) if redirects(operator) => Some(Redirection {
            number: number_of(at, start),
            operator,
            at: start,
            end,
        }),
        _ => None,
    }
}
