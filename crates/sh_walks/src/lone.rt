//! Whether a simple command holds no other command (XCU 2.6.3, 2.9.1). A walk passes it by.
ghost use Rattle.std.specs.Prelude.{◌≡◌, ℕ, List};
ghost use Rattle.sh_tree.specs.standard.program.Trees.{command_of, kind_of};
ghost use Rattle.sh_rules.specs.Visits.{simple_in};
ghost use Rattle.sh_walks.specs.Lone as spec;

use sh_drafts::inner::{is_in_elements, is_in_redirects};
use sh_tree::{Command, Kind};

// Whether it is a simple command, and no command is in its words.
#[tactic(auto, using(sh_rules::proofs::VisitLemmas::simple_kinds))]
fn holds_none(kind: &Kind) -> bool
    ensures { (b : List ℕ) → result ≡ spec.hold_none (simple_in (kind_of b kind.now)) }
{
    match kind {
        Kind::Simple(elements) => !is_in_elements(elements.as_slice()),
        Kind::Group(_) => false,
        Kind::Subshell(_) => false,
        Kind::Cond { .. } => false,
        Kind::Loop { .. } => false,
        Kind::For { .. } => false,
        Kind::Branches { .. } => false,
        Kind::Define { .. } => false,
    }
}

/// Whether it is a simple command, and no command is in its words or in its redirections.
#[tactic(auto, using(crate::proofs::LoneLemmas::command_split))]
pub fn is_lone(command: &Command) -> bool
    ensures { (b : List ℕ) → result ≡ spec.is_lone (command_of b command.now) }
{
    holds_none(&command.kind) && !is_in_redirects(command.redirects.as_slice())
}
