//! What the tokens of commands are (XCU 2.3, 2.4, 2.10).
ghost use Rattle.std.specs.Prelude.{◌≡◌, ◌≢◌, ◌≤◌, ◌<◌, ◌+◌, None, length};
ghost use Rattle.sh_tree.specs.standard.language.Commands as commands;

use super::bare::{bare_word, left_out_name, reserved_word};
use super::operators::{is_split, operator_of};
use crate::assignments::is_assignment;
use crate::blanks::blanks_at;
use crate::front::{begins_angle, begins_with, behind_joined, digit_length, is_last_backquote};
use sh_tree::text::behind_first;
use sh_tree::{Form, Lead, MAX_SCRIPT, Operator, Reserved, Stage, is_name};

/// `(` at a command's first token, before `rest`.
#[tactic(auto, unfolding(sh_tree::specs::standard::language::Commands::opening))]
fn opening(rest: &[u8]) -> Lead
    ensures { result ≡ commands.opening rest.now }
{
    if begins_with(rest, b'(') {
        Lead::LeftOut(Form::DoubleParenthesis)
    } else if begins_with(behind_joined(rest), b'(') {
        Lead::LeftOut(Form::Continuation)
    } else {
        Lead::Operator(Operator::LeftParenthesis)
    }
}

/// `!` before `rest`.
fn bang(rest: &[u8]) -> Lead
    ensures { result ≡ commands.bang rest.now }
{
    if begins_with(rest, b'(') {
        Lead::LeftOut(Form::BangParenthesis)
    } else if begins_with(behind_joined(rest), b'(') {
        Lead::LeftOut(Form::Continuation)
    } else {
        Lead::Reserved(Reserved::Bang)
    }
}

/// An operator before `rest`.
#[tactic(auto, unfolding(sh_tree::specs::standard::language::Commands::whole_operator))]
fn whole_operator(stage: Stage, rest: &[u8], operator: Operator) -> Lead
    ensures { result ≡ commands.whole_operator stage rest.now operator }
{
    match (stage, operator) {
        (Stage::First, Operator::LeftParenthesis) => opening(rest),
        _ => Lead::Operator(operator),
    }
}

/// The operator of so many bytes at the front.
#[tactic(auto, unfolding(sh_tree::specs::standard::language::Commands::operator_lead))]
fn operator_lead(stage: Stage, rest: &[u8], operator: Operator, count: usize) -> Lead
    requires { count ≤ length rest.now }
    ensures { result ≡ commands.operator_lead stage rest.now operator count }
{
    if is_split(rest, count) {
        Lead::LeftOut(Form::Continuation)
    } else {
        whole_operator(stage, &rest[count..], operator)
    }
}

/// The reserved word at the front.
#[tactic(auto, unfolding(sh_tree::specs::standard::language::Commands::reserved_lead))]
fn reserved_lead(rest: &[u8], reserved: Reserved) -> Lead
    ensures { result ≡ commands.reserved_lead rest.now reserved }
{
    match reserved {
        Reserved::Bang => bang(behind_first(rest)),
        _ => Lead::Reserved(reserved),
    }
}

/// Whether the word at `at` is a name before `(`.
#[tactic(auto, unfolding(sh_tree::specs::standard::language::Commands::is_definition))]
fn is_definition(script: &[u8], at: u32, word: &[u8]) -> bool
    requires small { length script.now ≤ MAX_SCRIPT }
    requires inside { at + length word.now ≤ length script.now }
    ensures { result ≡ commands.is_definition script.now at word.now }
{
    if !is_name(word) {
        return false;
    }
    let behind = blanks_at(script, (at as usize + word.len()) as u32, false);
    begins_with(&script[behind as usize..], b'(')
}

#[tactic(auto, unfolding(sh_tree::specs::standard::language::Commands::name_lead))]
fn name_lead(left_out: Option<Form>) -> Lead
    ensures { result ≡ commands.name_lead left_out }
{
    match left_out {
        Some(form) => Lead::LeftOut(form),
        None => Lead::Word,
    }
}

/// The word at `at`, at a command's first token.
#[tactic(auto, unfolding(sh_tree::specs::standard::language::Commands::first_lead))]
fn first_lead(script: &[u8], at: u32, word: &[u8]) -> Lead
    requires small { length script.now ≤ MAX_SCRIPT }
    requires inside { at + length word.now ≤ length script.now }
    ensures { result ≡ commands.first_lead script.now at word.now (commands.entry_of commands.reserved_words word.now) }
{
    match reserved_word(word) {
        Some(reserved) => reserved_lead(&script[at as usize..], reserved),
        None => {
            if is_definition(script, at, word) {
                Lead::Definition
            } else {
                name_lead(left_out_name(word))
            }
        }
    }
}

/// The word at `at`, which is no assignment.
#[tactic(auto, unfolding(sh_tree::specs::standard::language::Commands::word_lead))]
fn word_lead(script: &[u8], stage: Stage, at: u32, word: &[u8]) -> Lead
    requires small { length script.now ≤ MAX_SCRIPT }
    requires inside { at + length word.now ≤ length script.now }
    ensures { result ≡ commands.word_lead script.now stage at word.now }
{
    match stage {
        Stage::First => first_lead(script, at, word),
        Stage::Prefixed => name_lead(left_out_name(word)),
        Stage::Named(_) => Lead::Word,
    }
}

fn is_named(stage: Stage) -> bool
    ensures { result ≡ commands.is_named stage }
{
    matches!(stage, Stage::Named(_))
}

/// Digits before `rest`, whose front is `<` or `>`.
#[tactic(auto, unfolding(sh_tree::specs::standard::language::Commands::number_lead))]
fn number_lead(rest: &[u8]) -> Lead
    ensures { result ≡ commands.number_lead rest.now (commands.operator_of rest.now) }
{
    match operator_of(rest) {
        Some((_, count)) => {
            if is_split(rest, count) {
                Lead::LeftOut(Form::Continuation)
            } else {
                Lead::Number
            }
        }
        None => Lead::Number,
    }
}

/// The token at `at`, which is no operator.
#[tactic(auto, unfolding(sh_tree::specs::standard::language::Commands::other_lead))]
fn other_lead(script: &[u8], stage: Stage, at: u32) -> Lead
    requires small { length script.now ≤ MAX_SCRIPT }
    requires inside { at ≤ length script.now }
    ensures { result ≡ commands.other_lead script.now stage at }
{
    let rest = &script[at as usize..];
    let digits = digit_length(rest);
    let behind = &rest[digits..];
    if digits != 0 && begins_angle(behind) {
        number_lead(behind)
    } else if digits != 0 && begins_angle(behind_joined(behind)) {
        Lead::LeftOut(Form::Continuation)
    } else if !is_named(stage) && is_assignment(rest) {
        Lead::Assignment
    } else {
        word_lead(script, stage, at, bare_word(script, at))
    }
}

/// The token at `at`, if no operator begins there.
#[tactic(auto, unfolding(sh_tree::specs::standard::language::Commands::lead_of))]
fn lead_without_operator(script: &[u8], stage: Stage, at: u32) -> Lead
    requires small { length script.now ≤ MAX_SCRIPT }
    requires inside { at ≤ length script.now }
    ensures value { result ≡ commands.lead_of script.now stage at None }
    ensures within { result ≢ Lead.End → at < length script.now }
{
    if script.len() <= at as usize {
        return Lead::End;
    }
    let rest = &script[at as usize..];
    if begins_with(rest, b'\n') {
        Lead::Newline
    } else if begins_with(rest, b'#') {
        Lead::LeftOut(Form::Continuation)
    } else if is_last_backquote(rest) {
        Lead::Backquote
    } else {
        other_lead(script, stage, at)
    }
}

/// What the token at `at` is, if no blank is there. A comment there is one that the body of a
/// here-document must not hold.
#[tactic(auto, unfolding(sh_tree::specs::standard::language::Commands::lead_at, sh_tree::specs::standard::language::Commands::lead_of))]
pub fn lead_at(script: &[u8], stage: Stage, at: u32) -> Lead
    requires small { length script.now ≤ MAX_SCRIPT }
    requires inside { at ≤ length script.now }
    ensures value { result ≡ commands.lead_at script.now stage at }
    ensures within { result ≢ Lead.End → at < length script.now }
{
    let rest = &script[at as usize..];
    match operator_of(rest) {
        Some((operator, count)) => operator_lead(stage, rest, operator, count),
        None => lead_without_operator(script, stage, at),
    }
}
