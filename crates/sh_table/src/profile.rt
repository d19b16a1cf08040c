//! Which scripts are admitted.
ghost use Rattle.std.specs.Prelude.{◌≡◌, ◌<◌, length, IsErrOf};
ghost use Rattle.sh_tree.specs.standard.program.Trees.{script_of};
ghost use Rattle.sh_table.specs.Admits as admits;
ghost use Rattle.sh_runs.specs.Calls as calls;

use crate::rules::site_rule;
use crate::site::Site;
use crate::sites::sites;
use crate::table::{CallTable, Row};
use sh_tree::{Refusal, Script};
use std::alloc::Global;

/// The refusal of the first command that breaks a rule.
#[tactic(auto, unfolding(crate::specs::Admits::told_from, crate::specs::Admits::or_refused, crate::specs::Admits::refusal_of))]
fn first_refusal(sites: &[Site], rows: &[Row], script: &[u8]) -> Option<Refusal>
    ensures { result ≡ admits.refusal_of (admits.told_from script.now sites.now rows.now) }
{
    let mut left = sites;
    let mut later = rows;
    while let [site, others @ ..] = left {
        let [row, further @ ..] = later else {
            return None;
        };
        if let Some(rule) = site_rule(site, row.texts.as_slice(), script) {
            return Some(Refusal::Profile(rule, site.at));
        }
        left = others;
        later = further;
    }
    None
}

/// Whether the profile admits a script whose table this is.
///
/// # Errors
///
/// `Profile` with the first rule that the command with the least number breaks among those that
/// break one, and the offset at which it starts. `Memory` if a growth was refused, which requires a
/// command.
pub fn admit(alloc: Global, tree: &Script, table: &CallTable, script: &[u8]) -> Result<(), Refusal>
    requires { table.now ≡ calls.table_of script.now tree.now }
    ensures admits { admits.Admits (script_of script.now tree.now) result }
    ensures memory { IsErrOf result Refusal.Memory → 0 < length (calls.table_of script.now tree.now).rows }
{
    let [_, ..] = table.rows() else {
        return Ok(());
    };
    let sites = sites(alloc, tree, script)?;
    match first_refusal(sites.as_slice(), table.rows(), script) {
        Some(refusal) => Err(refusal),
        None => Ok(()),
    }
}
