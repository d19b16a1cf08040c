//! Sets of names as rows of a certificate, and back.
ghost use Rattle.std.specs.Prelude.{◌≡◌, ◌<◌, ◌↔◌, ℕ, true, length, IfOk, IsTrue};
ghost use Rattle.sh_domain.specs.KeptRows.{Stay, holds_at};
ghost use Rattle.sh_domain.specs.NumberSets.{numbers_of};
ghost use Rattle.sh_drafts.specs.Facts.{IsWithin, meet};
ghost use Rattle.sh_drafts.specs.Kept.{sight_facts, fact_of, IsNamed, IsPlaced};

use crate::sight::Sight;
use sh_domain::{Facts, NumberSet, RowId, Rows};
use sh_rows::BitRow;
use std::alloc::AllocError;

// The rows of facts, or the first: hints.
fn rows_of(facts: Facts) -> (RowId, RowId) {
    match facts {
        Facts::NotReached => (RowId { index: 0 }, RowId { index: 0 }),
        Facts::Known {
            vars,
            functions,
            ..
        } => (vars, functions),
    }
}

// The place of a row of these numbers, which is added if there is none. Two rows are compared
// first, since that takes less time than to hash the numbers.
fn intern(
    rows: &mut Rows,
    probe: &mut BitRow,
    numbers: &NumberSet,
    first: RowId,
    second: RowId,
) -> Result<RowId, AllocError>
    requires probed { probe.old.count ≡ rows.old.count }
    requires below { (k : ℕ) → numbers_of numbers.now k ≡ true → k < rows.old.count }
    ensures found { IfOk result (λ id. (k : ℕ) → holds_at rows.new.rows id.index k ≡ numbers_of numbers.now k) }
    ensures known { IfOk result (λ id. id.index < length rows.new.rows) }
    ensures stay { Stay rows.old.rows rows.new.rows }
    ensures count { rows.new.count ≡ rows.old.count }
    ensures probed { probe.new.count ≡ probe.old.count }
{
    probe.copy_from(numbers.words());
    if rows.is_at(first, probe) {
        return Ok(first);
    }
    if rows.is_at(second, probe) {
        return Ok(second);
    }
    rows.intern(probe)
}

/// The facts that are seen, by the places of their rows. A row that is not there is added. The rows
/// of these two facts are compared first.
///
/// # Errors
///
/// If a growth was refused.
pub fn keep(
    rows: &mut Rows,
    probe: &mut BitRow,
    sight: &Sight,
    first: Facts,
    second: Facts,
) -> Result<Facts, AllocError>
    requires probed { probe.old.count ≡ rows.old.count }
    requires named { IsNamed rows.old.count (sight_facts sight.now) }
    ensures stay { Stay rows.old.rows rows.new.rows }
    ensures count { rows.new.count ≡ rows.old.count }
    ensures probed { probe.new.count ≡ probe.old.count }
    ensures placed { IfOk result (λ f. IsPlaced (length rows.new.rows) f) }
    ensures facts { IfOk result (λ f. fact_of rows.new.rows f ≡ sight_facts sight.now) }
{
    let first = rows_of(first);
    let second = rows_of(second);
    let vars = intern(rows, probe, &sight.vars, first.0, second.0)?;
    let functions = intern(rows, probe, &sight.functions, first.1, second.1)?;
    Ok(Facts::Known {
        vars,
        functions,
        args: sight.args,
    })
}

/// Whether facts claim no more than is seen.
#[tactic(auto, unfolding(crate::specs::Kept::fact_of))]
pub fn is_within(rows: &Rows, fact: Facts, sight: &Sight) -> bool
    ensures { IsTrue result ↔ IsWithin (fact_of rows.now.rows fact) (sight_facts sight.now) }
{
    match fact {
        Facts::NotReached => false,
        Facts::Known {
            vars,
            functions,
            args,
        } => {
            if !sight.vars.includes(rows, vars) {
                return false;
            }
            if !sight.functions.includes(rows, functions) {
                return false;
            }
            args <= sight.args
        }
    }
}

/// Leaves of what is seen what facts claim too.
#[tactic(auto, unfolding(crate::specs::Kept::fact_of, crate::specs::Facts::meet))]
pub fn meet_facts(rows: &Rows, fact: Facts, sight: &mut Sight)
    ensures { sight_facts sight.new ≡ meet (fact_of rows.now.rows fact) (sight_facts sight.old) }
{
    if let Facts::Known {
        vars,
        functions,
        args,
    } = fact
    {
        sight.vars.meet_row(rows, vars);
        sight.functions.meet_row(rows, functions);
        sight.args = sight.args.min(args);
    }
}
