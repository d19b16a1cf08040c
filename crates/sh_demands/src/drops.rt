//! The names that a command may drop: each is reported once, at the start of the command
//! (XCU 2.9.1, 2.15).
ghost use Rattle.std.specs.Prelude.{◌≡◌, ◌++◌, ◌<◌, ◌≤◌, ◌&&◌, ℕ, fold, length, map, nat_lt, not, slice_get};
ghost use Rattle.sh_tree.specs.declared.limits.TheConstants.{MAX_NAMES};
ghost use Rattle.sh_tree.specs.standard.language.Bytes as bytes;
ghost use Rattle.sh_tree.specs.Lists.{elements_from};
ghost use Rattle.sh_table.specs.WordTexts.{text_in};
ghost use Rattle.sh_runs.specs.standard.runs.Environment.{is_one_of};
ghost use Rattle.sh_domain.specs.Certificates as claims;
ghost use Rattle.sh_domain.specs.Knowledge.{AreNumbered};
ghost use Rattle.sh_domain.specs.NumberSets.{numbers_of};
ghost use Rattle.sh_demands.specs.Blocks.{block_of};
ghost use Rattle.sh_demands.specs.declared.blocks.TheConstants.{BLOCKS};
ghost use Rattle.sh_demands.specs.Drops as spec;
ghost use Rattle.sh_demands.specs.DropWalks as walks;
ghost use Rattle.sh_gains.specs.Knowing.{knowing};
ghost use Rattle.sh_gains.specs.Statics.{listed};
ghost use Rattle.sh_demands.specs.Reported.{Adds, AddsFirst, AddsSince};

use crate::blocks::{BLOCKS, Blocks};
use crate::reports::Reports;
use sh_domain::{Drops, Names, NumberSet, Rows};
use sh_gains::Known;
use sh_operands::unset_operands;
use sh_table::{CallTable, WordText};
use sh_tree::{Code, Element, MAX_NAMES, is_name};

#[tactic(auto, unfolding(crate::specs::DropWalks::told_if))]
fn tell_if(is_wanted: bool, name: &[u8], at: u32, start: usize, reports: &mut Reports)
    ensures { AddsSince start reports.old reports.new (λ k ps. walks.told_if is_wanted k at ps name.now) }
{
    if is_wanted {
        reports.report_once(name, at, start);
    }
}

// What functions drop

#[tactic(auto, unfolding(crate::specs::DropWalks::drop_if))]
fn tell_number(number: u32, is_wanted: bool, names: &Names, at: u32, reports: &mut Reports)
    requires { number < length names.now }
    ensures { Adds reports.old reports.new (λ ps. ps ++ walks.drop_if is_wanted at (slice_get names.now number)) }
{
    if is_wanted {
        reports.report(at, Code::P1, names.name(number));
    }
}

// The numbers that are not in a set.
fn others_of(set: &NumberSet) -> NumberSet
    ensures { (k : ℕ) → numbers_of result k ≡ (not (numbers_of set.now k) && nat_lt k MAX_NAMES) }
{
    let mut others = NumberSet::below(MAX_NAMES as u32);
    others.remove(set);
    others
}

// The names of a set in a block, if some of its numbers are not among the others.
fn tell_block(
    blocks: &Blocks<'_>,
    index: usize,
    set: &NumberSet,
    others: &NumberSet,
    at: u32,
    reports: &mut Reports,
)
    requires index { index < BLOCKS }
    requires few { length blocks.now.names.now ≤ MAX_NAMES }
    requires others { (k : ℕ) → numbers_of others.now k ≡ (not (numbers_of set.now k) && nat_lt k MAX_NAMES) }
    ensures { Adds reports.old reports.new (λ ps. fold (walks.plain_step blocks.now.names.now (numbers_of set.now) at) ps (block_of index blocks.now.numbers.now)) }
{
    if blocks.is_within(index, others) {
        return;
    }
    for number in blocks.get(index) {
        tell_number(*number, set.has(*number), blocks.names, at, reports);
    }
}

// The names of a set. If it has no numbers, none is gone over.
fn tell_set(blocks: &Blocks<'_>, set: &NumberSet, at: u32, reports: &mut Reports)
    requires few { length blocks.now.names.now ≤ MAX_NAMES }
    ensures { Adds reports.old reports.new (λ ps. fold (walks.plain_step blocks.now.names.now (numbers_of set.now) at) ps blocks.now.numbers.now) }
{
    if set.is_within(&NumberSet::new()) {
        return;
    }
    let others = others_of(set);
    for index in 0..BLOCKS {
        tell_block(blocks, index, set, &others, at, reports);
    }
}

/// The variables that a function may drop, and then the functions, each in byte order. No place is
/// read again.
pub fn tell_dropped(blocks: &Blocks<'_>, rows: &Rows, drops: Drops, at: u32, reports: &mut Reports)
    requires { AreNumbered blocks.now.names.now }
    ensures { (start : ℕ) → AddsFirst start reports.old reports.new (λ ps. spec.all_told (length ps) at ps (claims.names_at (claims.in_byte_order blocks.now.names.now) rows.now drops.vars ++ claims.names_at (claims.in_byte_order blocks.now.names.now) rows.now drops.functions)) }
{
    let mut vars = NumberSet::new();
    vars.join_row(rows, drops.vars);
    let mut functions = NumberSet::new();
    functions.join_row(rows, drops.functions);
    functions.remove(&vars);
    tell_set(blocks, &vars, at, reports);
    tell_set(blocks, &functions, at, reports)
}

// `unset`

#[tactic(auto, unfolding(crate::specs::DropWalks::variable_told))]
fn tell_variable(operand: &WordText, script: &[u8], at: u32, start: usize, reports: &mut Reports)
    ensures { AddsSince start reports.old reports.new (λ k ps. walks.variable_step script.now k at ps operand.now) }
{
    match operand.get(script) {
        None => (),
        Some(name) => tell_if(is_name(name), name, at, start, reports),
    }
}

fn tell_variables(
    operands: &[WordText],
    script: &[u8],
    at: u32,
    start: usize,
    reports: &mut Reports,
)
    ensures { AddsSince start reports.old reports.new (λ k ps. fold (walks.variable_step script.now k at) ps operands.now) }
{
    for operand in operands {
        tell_variable(operand, script, at, start, reports);
    }
}

fn names_function(name: &[u8], calls: &CallTable<'_>) -> bool
    ensures { result ≡ (bytes.is_name name.now && is_one_of calls.now.functions.names name.now) }
{
    is_name(name) && calls.is_function(name)
}

#[tactic(auto, unfolding(crate::specs::DropWalks::function_told))]
fn tell_function(
    operand: &WordText,
    script: &[u8],
    calls: &CallTable<'_>,
    at: u32,
    start: usize,
    reports: &mut Reports,
)
    ensures { AddsSince start reports.old reports.new (λ k ps. walks.function_step script.now calls.now.functions.names k at ps operand.now) }
{
    match operand.get(script) {
        None => (),
        Some(name) => tell_if(names_function(name, calls), name, at, start, reports),
    }
}

fn tell_functions(
    operands: &[WordText],
    script: &[u8],
    calls: &CallTable<'_>,
    at: u32,
    start: usize,
    reports: &mut Reports,
)
    ensures { AddsSince start reports.old reports.new (λ k ps. fold (walks.function_step script.now calls.now.functions.names k at) ps operands.now) }
{
    for operand in operands {
        tell_function(operand, script, calls, at, start, reports);
    }
}

#[tactic(auto, unfolding(crate::specs::DropWalks::removed_told))]
fn tell_removed(
    variables: bool,
    has_functions: bool,
    operands: &[WordText],
    script: &[u8],
    calls: &CallTable<'_>,
    at: u32,
    start: usize,
    reports: &mut Reports,
)
    ensures { AddsSince start reports.old reports.new (λ k ps. walks.removed_told script.now calls.now.functions.names variables has_functions k at ps operands.now) }
{
    if variables {
        tell_variables(operands, script, at, start, reports);
    }
    if has_functions {
        tell_functions(operands, script, calls, at, start, reports);
    }
}

/// The variables that `unset` of these operands may remove, and then the functions, of those that
/// the script has.
#[tactic(auto, using(crate::proofs::DropLemmas::unset_told))]
pub fn tell_unset(
    operands: &[WordText],
    script: &[u8],
    calls: &CallTable<'_>,
    at: u32,
    start: usize,
    reports: &mut Reports,
)
    ensures { AddsSince start reports.old reports.new (λ k ps. spec.all_told k at ps (spec.unset_drops calls.now.functions.names (listed (map (text_in script.now) operands.now)))) }
{
    let (letters, names) = unset_operands(operands, script);
    tell_removed(
        letters.takes_variables(),
        letters.takes_functions(),
        names,
        script,
        calls,
        at,
        start,
        reports,
    )
}

// Prefix assignments

#[tactic(auto, unfolding(crate::specs::DropWalks::unseen_told))]
fn tell_unseen(name: &[u8], known: &Known<'_>, at: u32, start: usize, reports: &mut Reports)
    ensures { AddsSince start reports.old reports.new (λ k ps. walks.unseen_told (knowing known.now).facts k at ps name.now) }
{
    if !known.has_variable(name) {
        reports.report_once(name, at, start);
    }
}

#[tactic(auto, using(crate::proofs::DropLemmas::prefixed))]
fn tell_prefix(
    element: &Element,
    script: &[u8],
    known: &Known<'_>,
    at: u32,
    start: usize,
    reports: &mut Reports,
)
    ensures { AddsSince start reports.old reports.new (λ k ps. walks.prefix_step script.now (knowing known.now).facts k at ps element.now) }
{
    match element {
        Element::Assignment { name, .. } => {
            tell_unseen(name.text(script), known, at, start, reports)
        }
        Element::Word(_) => (),
        Element::Redirection(_) => (),
    }
}

/// The names of prefix assignments that are not known to be set.
pub fn tell_prefixes(
    elements: &[Element],
    script: &[u8],
    known: &Known<'_>,
    at: u32,
    start: usize,
    reports: &mut Reports,
)
    ensures { AddsSince start reports.old reports.new (λ k ps. spec.all_told k at ps (spec.unseen (knowing known.now).facts (elements_from script.now elements.now))) }
{
    for element in elements {
        tell_prefix(element, script, known, at, start, reports);
    }
}
