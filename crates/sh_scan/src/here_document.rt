//! The lines of here-documents (XCU 2.7.4).
ghost use Rattle.std.specs.Prelude.{◌≡◌, ◌≤◌, length};
ghost use Rattle.sh_tree.specs.standard.language.HereDocuments as documents;
ghost use Rattle.sh_scan.specs.Steps.{line_step};

use sh_tree::MAX_SCRIPT;

#[tactic(auto, unfolding(crate::specs::Steps::line_step))]
fn line_step(rest: &[u8], joins: bool) -> usize
    ensures value { result ≡ line_step joins rest.now }
    ensures within { result ≤ length rest.now }
{
    match rest {
        [] | [b'\n', ..] => 0,
        [_] => 1,
        [first, _, ..] => { if joins && *first == b'\\' { 2 } else { 1 } }
    }
}

/// How long the line at the front is, without its newline.
pub fn line_length(rest: &[u8], joins: bool) -> usize
    ensures value { result ≡ documents.line_length joins rest.now }
    ensures within { result ≤ length rest.now }
{
    let mut length = 0;
    loop {
        let step = line_step(&rest[length..], joins);
        if step == 0 {
            return length;
        }
        length += step;
    }
}

/// Where the line at `at` ends, before its newline. If lines are joined, a newline after a
/// backslash ends none.
#[tactic(auto, unfolding(sh_tree::specs::standard::language::HereDocuments::line_end))]
pub fn here_line(script: &[u8], at: u32, joins: bool) -> u32
    requires small { length script.now ≤ MAX_SCRIPT }
    requires inside { at ≤ length script.now }
    ensures value { result ≡ documents.line_end joins script.now at }
    ensures within { result ≤ length script.now }
    ensures after { at ≤ result }
{
    (at as usize + line_length(&script[at as usize..], joins)) as u32
}
