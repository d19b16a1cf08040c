//! What a command in a part of a pipeline drops or moves, of what the other parts may rely on
//! (XCU 2.9.2, 2.13).
ghost use Rattle.std.specs.Prelude.{◌≡◌, ◌++◌, length, map};
ghost use Rattle.sh_tree.specs.Lists.{elements_from};
ghost use Rattle.sh_runs.specs.Calls.{callee_at};
ghost use Rattle.sh_table.specs.WordTexts.{text_in};
ghost use Rattle.sh_domain.specs.Demands as demands;
ghost use Rattle.sh_demands.specs.Drops as drops;
ghost use Rattle.sh_demands.specs.DropWalks as walks;
ghost use Rattle.sh_demands.specs.Places as spec;
ghost use Rattle.sh_demands.specs.Reported.{Adds, AddsFirst, AddsSince};

use crate::drops::{tell_prefixes, tell_unset};
use crate::moves::moves;
use crate::reports::Reports;
use crate::source::Source;
use sh_table::{Kind as Meaning, WordText, kind_of};
use sh_tree::{Code, Element, Kind, KnownName};

// A utility

#[tactic(auto, unfolding(crate::specs::Drops::utility_drops))]
fn tell_utility(
    kind: Meaning,
    operands: &[WordText],
    source: &Source<'_, '_>,
    at: u32,
    start: usize,
    reports: &mut Reports,
)
    ensures { AddsSince start reports.old reports.new (λ k ps. drops.all_told k at ps (drops.utility_drops source.now.table.functions.names kind (map (text_in source.now.table.script) operands.now))) }
{
    match kind {
        Meaning::Special(KnownName::Unset) => tell_unset(
            operands,
            source.script(),
            source.calls(),
            at,
            start,
            reports,
        ),
        Meaning::Getopts => reports.report_once(b"OPTARG", at, start),
        _ => (),
    }
}

// A call

// The utility `getopts` runs if no function of the name is defined.
#[tactic(auto, unfolding(crate::specs::Drops::builtin_drops))]
fn tell_builtin(name: &[u8], at: u32, start: usize, reports: &mut Reports)
    ensures { AddsSince start reports.old reports.new (λ k ps. drops.all_told k at ps (drops.builtin_drops name.now)) }
{
    if name == b"getopts".as_slice() {
        reports.report_once(b"OPTARG", at, start);
    }
}

#[tactic(auto, using(crate::proofs::DropLemmas::told_both))]
fn tell_call(
    function: u32,
    name: &[u8],
    number: u32,
    elements: &[Element],
    script: &[u8],
    source: &Source<'_, '_>,
    at: u32,
    start: usize,
    reports: &mut Reports,
)
    ensures { AddsFirst start reports.old reports.new (λ ps. drops.all_told (length ps) at ps (drops.call_drops (spec.function_drops source.now function) name.now (spec.known_behind source.now number (elements_from script.now elements.now)).facts (elements_from script.now elements.now))) }
{
    source.tell_function(function, at, reports);
    tell_builtin(name, at, start, reports);
    let known = source.behind(number, elements, script);
    tell_prefixes(elements, script, &known, at, start, reports)
}

#[tactic(auto, unfolding(crate::specs::Places::called_drops))]
fn tell_named(
    name: &[u8],
    operands: &[WordText],
    number: u32,
    elements: &[Element],
    script: &[u8],
    source: &Source<'_, '_>,
    at: u32,
    start: usize,
    reports: &mut Reports,
)
    ensures { AddsFirst start reports.old reports.new (λ ps. drops.all_told (length ps) at ps (spec.called_drops source.now number (elements_from script.now elements.now) name.now (map (text_in source.now.table.script) operands.now) (callee_at source.now.table number))) }
{
    match source.callee(number) {
        Some(function) => tell_call(
            function, name, number, elements, script, source, at, start, reports,
        ),
        None => tell_utility(kind_of(name), operands, source, at, start, reports),
    }
}

#[tactic(auto, unfolding(crate::specs::Places::texts_drops))]
fn tell_drops(
    texts: &[WordText],
    number: u32,
    elements: &[Element],
    script: &[u8],
    source: &Source<'_, '_>,
    at: u32,
    start: usize,
    reports: &mut Reports,
)
    ensures { AddsFirst start reports.old reports.new (λ ps. drops.all_told (length ps) at ps (spec.texts_drops source.now number (elements_from script.now elements.now) (map (text_in source.now.table.script) texts.now))) }
{
    match texts {
        [] => (),
        [name, operands @ ..] => match name.get(source.script()) {
            None => (),
            Some(text) => tell_named(
                text, operands, number, elements, script, source, at, start, reports,
            ),
        },
    }
}

// The positional parameters

#[tactic(auto, unfolding(sh_domain::specs::Demands::move_at))]
fn tell_move(is_moved: bool, at: u32, reports: &mut Reports)
    ensures { Adds reports.old reports.new (λ ps. ps ++ demands.move_at at is_moved) }
{
    if is_moved {
        reports.report(at, Code::P2, &[]);
    }
}

#[tactic(auto, unfolding(crate::specs::Places::sharing))]
fn tell_simple(
    number: u32,
    at: u32,
    elements: &[Element],
    script: &[u8],
    source: &Source<'_, '_>,
    reports: &mut Reports,
)
    ensures { Adds reports.old reports.new (λ ps. spec.sharing source.now number at ps (elements_from script.now elements.now)) }
{
    let start = reports.len();
    let texts = source.texts(number);
    tell_drops(texts, number, elements, script, source, at, start, reports);
    tell_move(moves(texts, source.script()), at, reports)
}

#[tactic(auto, using(crate::proofs::DropLemmas::reached_kinds))]
fn tell_reached(
    number: u32,
    at: u32,
    kind: &Kind,
    script: &[u8],
    source: &Source<'_, '_>,
    reports: &mut Reports,
)
    ensures { Adds reports.old reports.new (λ ps. walks.reached_step script.now source.now number at ps kind.now) }
{
    match kind {
        Kind::Simple(elements) => {
            tell_where_reached(number, at, elements.as_slice(), script, source, reports)
        }
        Kind::Group(_) => (),
        Kind::Subshell(_) => (),
        Kind::Cond { .. } => (),
        Kind::Loop { .. } => (),
        Kind::For { .. } => (),
        Kind::Branches { .. } => (),
        Kind::Define { .. } => (),
    }
}

#[tactic(auto, unfolding(crate::specs::DropWalks::elements_step))]
fn tell_where_reached(
    number: u32,
    at: u32,
    elements: &[Element],
    script: &[u8],
    source: &Source<'_, '_>,
    reports: &mut Reports,
)
    ensures { Adds reports.old reports.new (λ ps. walks.elements_step script.now source.now number at ps elements.now) }
{
    if is_reached(source, number) {
        tell_simple(number, at, elements, script, source, reports);
    }
}

// Whether some run comes to the command of a number.
fn is_reached(source: &Source<'_, '_>, number: u32) -> bool
    ensures { result ≡ demands.is_reached (spec.known_before source.now number).facts }
{
    source.before(number).is_reached()
}

/// Reports the names that a command may drop, and that it moves the positional parameters. It does
/// so if the command is in a part of a pipeline and some run comes to it.
#[tactic(auto, unfolding(crate::specs::DropWalks::shared_step, crate::specs::DropWalks::reached_step, crate::specs::Places::shared))]
pub fn tell_shared(
    shares: bool,
    number: u32,
    at: u32,
    kind: &Kind,
    script: &[u8],
    source: &Source<'_, '_>,
    reports: &mut Reports,
)
    ensures { Adds reports.old reports.new (λ ps. walks.shared_step script.now source.now shares number at ps kind.now) }
{
    if shares {
        tell_reached(number, at, kind, script, source, reports);
    }
}
