//! The canonical text of a script.
ghost use Rattle.sh_accept.specs.Answers.{Prints};

use sh_grammar::parse;
use sh_print::print;
use sh_tree::Refusal;
use std::alloc::Global;

/// The canonical text of a script that is read, whether it is admitted or not.
///
/// # Errors
///
/// The refusal of the text; `Memory` if a growth was refused.
#[tactic(auto, using(crate::proofs::PrintLemmas::exhausted, sh_judged::proofs::RefusalLemmas::reported))]
pub fn canonical_text(alloc: Global, script: &[u8]) -> Result<Vec<u8>, Refusal>
    ensures { Prints script.now result }
{
    let tree = parse(alloc, script)?;
    let text = print(alloc, script, &tree)?;
    Ok(text)
}
