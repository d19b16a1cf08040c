//! What is reported of places.
ghost use Rattle.std.specs.Prelude.{◌<◌, ◌-◌, ◌^◌, length, IfErr, IfOk};
ghost use Rattle.sh_answers.specs.Findings.{AreFindings};
ghost use Rattle.sh_judged.specs.Told.{TellsPlaces};

use sh_answers::{Finding, Report, Verdict, in_order};
use sh_scan::Lines;
use sh_tree::Place;
use std::alloc::{AllocError, Global};

/// The findings of places, in order.
///
/// # Errors
///
/// `AllocError` if a growth was refused.
pub fn findings_at(
    alloc: Global,
    script: &[u8],
    places: &[Place],
) -> Result<Vec<Finding>, AllocError>
    requires { length script.now < 2 ^ 32 - 1 }
    ensures { IfOk result (λ v. AreFindings script.now places.now v.items) }
{
    let lines = Lines::new(alloc, script)?;
    let mut findings = Vec::with_capacity(alloc, places.len())?;
    for place in places {
        let (line, column) = lines.place(place.at);
        findings.push(Finding {
            line,
            column,
            code: place.code,
            subject: Vec::from_slice(alloc, place.subject.as_slice())?,
        })?;
    }
    in_order(findings)
}

/// A pass if there is no place, and otherwise their findings.
///
/// # Errors
///
/// `AllocError` if a growth was refused. That requires a place.
pub fn verdict_of(alloc: Global, script: &[u8], places: &[Place]) -> Result<Verdict, AllocError>
    requires { length script.now < 2 ^ 32 - 1 }
    ensures told { IfOk result (TellsPlaces script.now places.now) }
    ensures memory { IfErr result (λ _. 0 < length places.now) }
{
    match places {
        [] => Ok(Verdict::Pass),
        [_, ..] => {
            let findings = findings_at(alloc, script, places)?;
            Ok(Verdict::Fail(Report { findings }))
        }
    }
}
