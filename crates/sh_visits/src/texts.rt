//! What the operands of built-in utilities say, by their static texts (XCU 2.15, 3).
ghost use Rattle.std.specs.Prelude.{◌≡◌, ◌==◌, map, option_map, fold, if◌then◌else◌, false};
ghost use Rattle.sh_tree.specs.standard.language.Bytes as bytes;
ghost use Rattle.sh_tree.specs.Lists.{elements_from};
ghost use Rattle.sh_table.specs.WordTexts.{text_in};
ghost use Rattle.sh_runs.specs.standard.runs.Operands as operands;
ghost use Rattle.sh_domain.specs.Operands.{status};
ghost use Rattle.sh_domain.specs.Views as views;
ghost use Rattle.sh_table.specs.Numerals.{capped};
ghost use Rattle.sh_rules.specs.Losses as losses;
ghost use Rattle.sh_rules.specs.SimpleBounds.{stepped};
ghost use Rattle.sh_rules.specs.Texts as spec;
ghost use Rattle.sh_rules.specs.Walks.{facts_in, setting};

use crate::steps::{lose_function, lose_variable};
use sh_domain::Knowledge;
use sh_operands::unset_operands;
use sh_rules::Claims;
use sh_table::{WordText, number_in};
use sh_tree::is_name;

// Numbers

#[tactic(auto, unfolding(sh_rules::specs::Texts::number_of))]
fn number_at(operand: &WordText, script: &[u8]) -> Option<u32>
    ensures { result ≡ spec.number_of (text_in script.now operand.now) }
{
    match operand.get(script) {
        Some(text) => number_in(text),
        None => None,
    }
}

/// The number that the first operand writes, or 1 if there is none; 4,294,967,295 means each
/// greater one too.
#[tactic(auto, unfolding(sh_rules::specs::Texts::first_by, sh_rules::specs::Texts::number_of))]
pub fn first_number(texts: &[WordText], script: &[u8]) -> Option<u32>
    ensures { result ≡ option_map capped (spec.first_by (map (text_in script.now) texts.now)) }
{
    match texts {
        [] => Some(1),
        [first, ..] => number_at(first, script),
    }
}

fn as_status(number: u32) -> Option<u32>
    ensures { result ≡ status number }
{
    if number < 256 { Some(number) } else { None }
}

#[tactic(auto, using(sh_rules::proofs::OperandLemmas::statuses))]
fn status_at(operand: &WordText, script: &[u8]) -> Option<u32>
    ensures { result ≡ spec.status_of (text_in script.now operand.now) }
{
    match number_at(operand, script) {
        Some(number) => as_status(number),
        None => None,
    }
}

/// The status that the first operand of `return` writes, if it is one.
#[tactic(auto, unfolding(sh_rules::specs::Texts::status_by))]
pub fn return_status(texts: &[WordText], script: &[u8]) -> Option<u32>
    ensures { result ≡ spec.status_by (map (text_in script.now) texts.now) }
{
    match texts {
        [] => None,
        [first, ..] => status_at(first, script),
    }
}

// `exec`

#[tactic(auto, unfolding(sh_tree::specs::standard::language::Bytes::is_first))]
fn is_dash_first(text: &[u8]) -> bool
    ensures { result ≡ bytes.is_first (λ c. c == 45) text.now }
{
    match text {
        [] => false,
        [first, ..] => *first == b'-',
    }
}

#[tactic(auto, unfolding(sh_rules::specs::Texts::is_command))]
fn is_command(text: &[u8]) -> bool
    ensures { result ≡ spec.is_command text.now }
{
    !text.is_empty() && !is_dash_first(text)
}

#[tactic(auto, unfolding(sh_rules::specs::Texts::command_at))]
fn command_at(operand: &WordText, script: &[u8]) -> bool
    ensures { result ≡ spec.command_at (text_in script.now operand.now) }
{
    match operand.get(script) {
        Some(text) => is_command(text),
        None => false,
    }
}

/// Whether `exec` is sure to run a command.
#[tactic(auto, unfolding(sh_rules::specs::Texts::runs_by))]
pub fn runs_command(texts: &[WordText], script: &[u8]) -> bool
    ensures { result ≡ spec.runs_by (map (text_in script.now) texts.now) }
{
    match texts {
        [] => false,
        [first, ..] => command_at(first, script),
    }
}

// `getopts`

#[tactic(auto, unfolding(sh_rules::specs::Texts::option_name))]
fn option_name<'a>(letters: &WordText, name: &'a WordText, script: &'a [u8]) -> Option<&'a [u8]>
    ensures { option_map (λ t. t.now) result ≡ spec.option_name (text_in script.entry.now letters.now) (text_in script.entry.now name.entry.now) }
{
    match (letters.get(script), name.get(script)) {
        (Some(letters), Some(name)) => {
            if is_name(name) && !is_dash_first(letters) {
                Some(name)
            } else {
                None
            }
        }
        _ => None,
    }
}

/// The name that `getopts` sets.
#[tactic(auto, unfolding(sh_rules::specs::Texts::getopts_name))]
pub fn getopts_name<'a>(texts: &'a [WordText], script: &'a [u8]) -> Option<&'a [u8]>
    ensures { option_map (λ t. t.now) result ≡ spec.getopts_name (map (text_in script.entry.now) texts.entry.now) }
{
    match texts {
        [letters, name, ..] => option_name(letters, name, script),
        _ => None,
    }
}

// `unset`

#[tactic(auto, unfolding(sh_rules::specs::Losses::by_name, sh_rules::specs::Walks::setting))]
fn lose_named_variable(claims: &Claims<'_>, text: &WordText, known: &mut Knowledge)
    ensures { facts_in (setting claims.now) known.new ≡ losses.by_name (losses.variable_lost (setting claims.now)) (facts_in (setting claims.now) known.old) (text_in (setting claims.now).script text.now) }
{
    if let Some(name) = text.get(claims.script) {
        if is_name(name) {
            lose_variable(claims, name, known);
        }
    }
}

fn lose_variables(claims: &Claims<'_>, texts: &[WordText], known: &mut Knowledge)
    ensures { facts_in (setting claims.now) known.new ≡ fold (losses.texts_with (setting claims.now) (losses.variable_lost (setting claims.now))) (facts_in (setting claims.now) known.old) texts.now }
{
    for text in texts {
        lose_named_variable(claims, text, known);
    }
}

#[tactic(auto, unfolding(sh_rules::specs::Losses::by_name, sh_rules::specs::Walks::setting))]
fn lose_named_function(claims: &Claims<'_>, text: &WordText, known: &mut Knowledge)
    ensures { facts_in (setting claims.now) known.new ≡ losses.by_name (losses.function_lost (setting claims.now)) (facts_in (setting claims.now) known.old) (text_in (setting claims.now).script text.now) }
{
    if let Some(name) = text.get(claims.script) {
        if is_name(name) {
            lose_function(claims, name, known);
        }
    }
}

fn lose_functions(claims: &Claims<'_>, texts: &[WordText], known: &mut Knowledge)
    ensures { facts_in (setting claims.now) known.new ≡ fold (losses.texts_with (setting claims.now) (losses.function_lost (setting claims.now))) (facts_in (setting claims.now) known.old) texts.now }
{
    for text in texts {
        lose_named_function(claims, text, known);
    }
}

#[tactic(auto, unfolding(sh_rules::specs::Losses::where_taken))]
fn lose_variables_where(takes: bool, claims: &Claims<'_>, texts: &[WordText], known: &mut Knowledge)
    ensures { facts_in (setting claims.now) known.new ≡ losses.where_taken takes (setting claims.now) (losses.variable_lost (setting claims.now)) (facts_in (setting claims.now) known.old) texts.now }
{
    if takes {
        lose_variables(claims, texts, known);
    }
}

#[tactic(auto, unfolding(sh_rules::specs::Losses::where_taken))]
fn lose_functions_where(takes: bool, claims: &Claims<'_>, texts: &[WordText], known: &mut Knowledge)
    ensures { facts_in (setting claims.now) known.new ≡ losses.where_taken takes (setting claims.now) (losses.function_lost (setting claims.now)) (facts_in (setting claims.now) known.old) texts.now }
{
    if takes {
        lose_functions(claims, texts, known);
    }
}

/// The names that `unset` takes may be gone.
pub fn lose_unset(claims: &Claims<'_>, texts: &[WordText], known: &mut Knowledge)
    ensures { facts_in (setting claims.now) known.new ≡ stepped (setting claims.now) (views.Lose (spec.unset_by (map (text_in (setting claims.now).script) texts.now))) (facts_in (setting claims.now) known.old) }
{
    let (letters, names) = unset_operands(texts, claims.script);
    lose_variables_where(letters.takes_variables(), claims, names, known);
    lose_functions_where(letters.takes_functions(), claims, names, known);
}
