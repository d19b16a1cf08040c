//! Which commands are loops.
ghost use Rattle.std.specs.Prelude.{◌≡◌};
ghost use Rattle.sh_domain.specs.Reading as fit;

use sh_tree::{Command, Kind};

/// Whether a certificate has a head for the command, as for each loop (XCU 2.9.4.2, 2.9.4.5,
/// 2.9.4.6).
#[tactic(auto, unfolding(crate::specs::Reading::kind_loops))]
pub fn is_loop(command: &Command) -> bool
    ensures { result ≡ fit.is_loop command.now }
{
    match &command.kind {
        Kind::Loop { .. } | Kind::For { .. } => true,
        Kind::Simple(_)
        | Kind::Group(_)
        | Kind::Subshell(_)
        | Kind::Cond { .. }
        | Kind::Branches { .. }
        | Kind::Define { .. } => false,
    }
}
