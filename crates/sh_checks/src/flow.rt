//! Whether the flow rules and the demands hold of a certificate.
ghost use Rattle.std.specs.Prelude.{◌≡◌, Ok, IfErr, IfOk, length};
ghost use Rattle.sh_tree.specs.Answers.{Parses};
ghost use Rattle.sh_runs.specs.Calls.{table_of};
ghost use Rattle.sh_domain.specs.Certificates.{in_byte_order, sheet_of};
ghost use Rattle.sh_domain.specs.Names.{Numbers};
ghost use Rattle.sh_checks.specs.Flows.{FindsFault, Flows, LeavesUnmet, Tells};

use sh_demands::check_demands;
use sh_domain::{Certificate, FlowRule, Names, Policy};
use sh_rules::{Claims, Fault};
use sh_table::CallTable;
use sh_tree::{Place, Script};
use sh_walks::check_rules;
use std::alloc::{AllocError, Global};

/// What a check of a certificate finds.
#[derive(Debug, Drop)]
pub enum Flow {
    /// Every flow rule holds, and no demand is unmet.
    Holds,
    /// The least command that breaks a flow rule, and the least rule that it breaks.
    Rule(u32, FlowRule),
    /// Every flow rule holds, and these are the places of the demands that are unmet.
    Demand(Vec<Place>),
}

// The least command that breaks a flow rule, with the least rule that it breaks.
fn fault_of(
    tree: &Script,
    script: &[u8],
    calls: &CallTable<'_>,
    names: &Names,
    policy: &Policy,
    certificate: &Certificate,
) -> Option<Fault>
    requires reading { Parses script.now (Ok tree.now) }
    requires table { calls.now ≡ table_of script.now tree.now }
    requires names { Numbers script.now tree.now policy.now (Ok names.now) }
    requires sized { certificate.now.rows.count ≡ length names.now }
    ensures { FindsFault script.now policy.now tree.now (sheet_of (in_byte_order names.now) certificate.now) result }
{
    let claims = Claims {
        script,
        names,
        calls,
        certificate,
    };
    check_rules(&claims, policy, tree)
}

// What is found if no flow rule is broken.
fn flow_of(places: Vec<Place>) -> Flow
    ensures { Tells places.items result }
{
    match places.as_slice() {
        [] => Flow::Holds,
        [_, ..] => Flow::Demand(places),
    }
}

/// Checks a certificate of a script that was read: whether every flow rule holds, and then which
/// demands are unmet. The table and the names are those of the script, and the certificate is one
/// over these names.
///
/// # Errors
///
/// `AllocError` if a growth was refused. That requires a certificate that keeps every flow rule and
/// leaves some demand unmet.
#[tactic(auto, using(crate::proofs::FlowLemmas::unmet))]
pub fn check_flow(
    alloc: Global,
    tree: &Script,
    script: &[u8],
    calls: &CallTable<'_>,
    names: &Names,
    policy: &Policy,
    certificate: &Certificate,
) -> Result<Flow, AllocError>
    requires reading { Parses script.now (Ok tree.now) }
    requires table { calls.now ≡ table_of script.now tree.now }
    requires names { Numbers script.now tree.now policy.now (Ok names.now) }
    requires sized { certificate.now.rows.count ≡ length names.now }
    ensures flows { IfOk result (Flows script.now policy.now tree.now (sheet_of (in_byte_order names.now) certificate.now)) }
    ensures memory { IfErr result (λ _. LeavesUnmet script.now policy.now tree.now (sheet_of (in_byte_order names.now) certificate.now)) }
{
    match fault_of(tree, script, calls, names, policy, certificate) {
        Some(fault) => Ok(Flow::Rule(fault.number, fault.rule)),
        None => {
            let places = check_demands(alloc, tree, script, calls, names, certificate)?;
            Ok(flow_of(places))
        }
    }
}
