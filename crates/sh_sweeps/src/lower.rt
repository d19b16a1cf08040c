//! Lowers a certificate by what was gathered.
ghost use Rattle.std.specs.Prelude.{◌≡◌, ◌≤◌, ℕ, List, Bool, false, length, IfOk};
ghost use Rattle.sh_tree.specs.declared.limits.TheConstants.{MAX_NAMES};
ghost use Rattle.sh_drafts.specs.Idle.{IsIdle};
ghost use Rattle.sh_drafts.specs.Turns.{AreNumbers, IsSunk};
ghost use Rattle.sh_sweeps.specs.Asked.{gathered_of};
ghost use Rattle.sh_drafts.specs.Working.{IsWorking};
ghost use Rattle.sh_drafts.specs.Writable.{IsWritten, sets_in};

use crate::gather::Gather;
use sh_domain::{Certificate, Names};
use sh_drafts::Writable;
use sh_drafts::lower::{add_drops, lower_known};
use sh_rows::BitRow;
use std::alloc::AllocError;

/// Lowers the certificate by what was gathered, and says whether it claimed more or had a function
/// drop less.
///
/// # Errors
///
/// If a growth was refused.
pub fn lower_gathered(
    names: &Names,
    writable: &Writable,
    certificate: &mut Certificate,
    probe: &mut BitRow,
    gather: &Gather,
) -> Result<bool, AllocError>
    requires few { length names.now ≤ MAX_NAMES }
    requires written { IsWritten names.now (sets_in writable.now.vars writable.now.functions) }
    requires working { (loops : List Bool) × (functions : ℕ) × IsWorking names.now loops functions certificate.old }
    requires probed { probe.old.count ≡ length names.now }
    requires numbers { AreNumbers (length names.now) (gathered_of gather.now) }
    ensures sunk { IfOk result (λ changed. (loops : List Bool) (functions : ℕ) → IsWorking names.now loops functions certificate.old
        → IsSunk names.now loops functions certificate.old certificate.new (gathered_of gather.now) changed) }
    ensures idle { IfOk result (λ changed. changed ≡ false → IsIdle certificate.old (sets_in writable.now.vars writable.now.functions) (gathered_of gather.now)) }
    ensures fits { IfOk result (λ changed. IsIdle certificate.new (sets_in writable.now.vars writable.now.functions) (gathered_of gather.now)) }
    ensures probed { IfOk result (λ changed. probe.new.count ≡ length names.now) }
{
    let target = gather.target;
    let lowered = lower_known(
        names,
        writable,
        certificate,
        probe,
        target.place,
        &gather.known,
    )?;
    let has_dropped = add_drops(
        names,
        writable,
        certificate,
        probe,
        target.function,
        &gather.vars,
        &gather.functions,
    )?;
    Ok(lowered || has_dropped)
}
