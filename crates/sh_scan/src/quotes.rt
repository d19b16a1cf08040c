//! Single quotes (XCU 2.2.2).
ghost use Rattle.std.specs.Prelude.{◌≡◌, ◌≤◌, ◌<◌, length, IfSome};
ghost use Rattle.sh_scan.specs.Quotes as quotes;

use crate::words::single_sign;
use sh_tree::{MAX_SCRIPT, Sign};

/// Where the single quotes that open at `at` end, over the closing one; nothing if none closes
/// them.
#[tactic(auto, unfolding(crate::specs::Quotes::single_end, sh_tree::specs::standard::language::Words::single))]
pub fn single_end(script: &[u8], at: u32) -> Option<u32>
    requires small { length script.now ≤ MAX_SCRIPT }
    requires inside { at < length script.now }
    ensures value { result ≡ quotes.single_end script.now at }
    ensures within { IfSome result (λ end. end ≤ length script.now) }
    ensures moves { IfSome result (λ end. at < end) }
{
    let (sign, length) = single_sign(&script[at as usize + 1..]);
    match sign {
        Sign::Single(_) => Some((at as usize + length) as u32),
        _ => None,
    }
}
