//! What is between the tokens of arithmetic.
ghost use Rattle.std.specs.Prelude.{◌≡◌, ◌≤◌, length};
ghost use Rattle.sh_tree.specs.standard.language.Arithmetic as arithmetic;
ghost use Rattle.sh_scan.specs.Spaces.{space_step};

use crate::bytes::is_blank;
use crate::front::joined_step;

#[tactic(auto, unfolding(crate::specs::Spaces::space_step))]
fn space_step(rest: &[u8]) -> usize
    ensures value { result ≡ space_step rest.now }
    ensures within { result ≤ length rest.now }
{
    match rest {
        [] => 0,
        [first, ..] => {
            if is_blank(*first) || *first == b'\n' {
                1
            } else {
                joined_step(rest)
            }
        }
    }
}

/// How many bytes of blanks, newlines and line continuations there are at the front.
pub fn space_length(rest: &[u8]) -> usize
    ensures value { result ≡ arithmetic.space_length rest.now }
    ensures within { result ≤ length rest.now }
{
    let mut length = 0;
    loop {
        let step = space_step(&rest[length..]);
        if step == 0 {
            return length;
        }
        length += step;
    }
}
