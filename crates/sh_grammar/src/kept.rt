//! Line continuations and tabs in the bodies of here-documents. There shells read a text in two
//! ways (XCU 2.7.4).
ghost use Rattle.std.specs.Prelude.{◌≡◌, ◌≤◌, ◌<◌, ◌+◌, ◌||◌, ◌&&◌, ◌∷◌, [], not, true, drop, length, ℕ, IfSome};
ghost use Rattle.sh_bodies.specs.Singles.{chained};
ghost use Rattle.sh_grammar.specs.Quotes.{Splits, SplitsIn};
ghost use Rattle.sh_grammar.specs.Lines as lines;
ghost use Rattle.sh_tree.specs.standard.language.Bytes.{is_first, is_tab};
ghost use Rattle.sh_tree.specs.standard.language.HereDocuments as documents;
ghost use Rattle.sh_tree.specs.standard.language.Parts as quotes;
ghost use Rattle.sh_tree.specs.standard.language.Reading.{is_some};

use sh_tree::{Binary, Expr, MAX_SCRIPT, ParameterOperator, Part, Span};

/// How far on a line continuation may begin next.
#[tactic(auto, unfolding(crate::specs::Lines::joined_step))]
fn joined_step(rest: &[u8]) -> usize
    ensures value { result ≡ lines.joined_step rest.now }
    ensures within { result ≤ length rest.now }
{
    match rest {
        [] | [_] => 0,
        [first, _, ..] => { if *first == b'\\' { 2 } else { 1 } }
    }
}

#[tactic(auto, unfolding(sh_tree::specs::standard::language::Bytes::is_first))]
fn begins_with_tab(rest: &[u8]) -> bool
    ensures { result ≡ is_first is_tab rest.now }
{
    match rest {
        [] => false,
        [first, ..] => *first == b'\t',
    }
}

/// Whether a line continuation is at the front, before a tab if it is to be one before a tab.
#[tactic(auto, unfolding(crate::specs::Lines::is_joined))]
fn is_joined(rest: &[u8], tabbed: bool) -> bool
    ensures { result ≡ lines.is_joined tabbed rest.now }
{
    match rest {
        [] | [_] => false,
        [first, second, behind @ ..] => {
            let tab = begins_with_tab(behind);
            *first == b'\\' && (*second == b'\n' && (!tabbed || tab))
        }
    }
}

/// Where the first line continuation is, or the first one before a tab.
pub fn joined_in(text: &[u8], tabbed: bool) -> Option<u32>
    requires small { length text.now ≤ MAX_SCRIPT }
    ensures value { is_some result ≡ documents.has_joined (λ rest. not tabbed || is_first is_tab rest) text.now }
    ensures first { result ≡ lines.first_joined (λ rest. not tabbed || is_first is_tab rest) text.now }
    ensures here { IfSome result (λ at. lines.is_joined tabbed (drop at text.now) ≡ true) }
    ensures within { IfSome result (λ at. at + 1 < length text.now) }
{
    let mut at = 0;
    loop {
        let rest = &text[at..];
        let step = joined_step(rest);
        if step == 0 {
            return None;
        }
        if is_joined(rest, tabbed) {
            return Some(at as u32);
        }
        at += step;
    }
}

/// Where the first line begins that begins with a tab.
fn tabbed_line(text: &[u8]) -> Option<u32>
    requires small { length text.now ≤ MAX_SCRIPT }
    ensures value { is_some result ≡ documents.has_tabbed_line true text.now }
    ensures within { IfSome result (λ at. at < length text.now) }
{
    let mut begins = true;
    let mut at = 0;
    while at < text.len() {
        if begins && text[at] == b'\t' {
            return Some(at as u32);
        }
        begins = text[at] == b'\n';
        at += 1;
    }
    None
}

/// Where the first line continuation of the span is.
fn split_in_span(script: &[u8], span: Span) -> Option<u32>
    requires small { length script.now ≤ MAX_SCRIPT }
    ensures { SplitsIn script.now (span ∷ []) result }
{
    match joined_in(span.text(script), false) {
        Some(further) => Some(span.start + further),
        None => None,
    }
}

/// Where the first line continuation between single quotes in the parts is.
#[cycle(kept)]
fn split_in_parts(script: &[u8], parts: &[Part]) -> Option<u32>
    requires small { length script.now ≤ MAX_SCRIPT }
    ensures { SplitsIn script.now (quotes.singles parts.now) result }
{
    for part in parts {
        if let Some(at) = split_in_part(script, part) {
            return Some(at);
        }
    }
    None
}

#[cycle(kept)]
fn split_in_part(script: &[u8], part: &Part) -> Option<u32>
    requires small { length script.now ≤ MAX_SCRIPT }
    ensures { SplitsIn script.now (quotes.singles_in part.now) result }
{
    match part {
        Part::Single(_, span) => split_in_span(script, *span),
        Part::Double(_, parts) => split_in_parts(script, parts.as_slice()),
        Part::Param(param) => split_in_operator(script, &param.operator),
        Part::Arith(_, expr) => split_in_expr(script, expr.get()),
        Part::Plain(_)
        | Part::Escaped(_)
        | Part::Command(_, _, _)
        | Part::Tilde(_)
        | Part::Joined(_) => None,
    }
}

#[cycle(kept)]
fn split_in_operator(script: &[u8], operator: &ParameterOperator) -> Option<u32>
    requires small { length script.now ≤ MAX_SCRIPT }
    ensures { SplitsIn script.now (quotes.operator_singles operator.now) result }
{
    match operator {
        ParameterOperator::Use { word, .. } => split_in_parts(script, word.parts.as_slice()),
        ParameterOperator::Remove { pattern, .. } => {
            split_in_parts(script, pattern.parts.as_slice())
        }
        ParameterOperator::Value | ParameterOperator::Length => None,
    }
}

#[cycle(kept)]
fn split_in_expr(script: &[u8], expr: &Expr) -> Option<u32>
    requires small { length script.now ≤ MAX_SCRIPT }
    ensures { SplitsIn script.now (quotes.expression_singles expr.now) result }
{
    match expr {
        Expr::Constant(_) | Expr::Variable(_) => None,
        Expr::Expansion(part) => split_in_part(script, part),
        Expr::Parenthesis(inner) => split_in_expr(script, inner.get()),
        Expr::Unary { operand, .. } => split_in_expr(script, operand.get()),
        Expr::Chain { first, rest } => {
            let front = split_in_expr(script, first.get());
            front.or(split_in_chain(script, rest.as_slice()))
        }
        Expr::Choice { condition, yes, no } => {
            let front = split_in_expr(script, condition.get());
            let middle = split_in_expr(script, yes.get());
            let last = split_in_expr(script, no.get());
            front.or(middle).or(last)
        }
        Expr::Assign { value, .. } => split_in_expr(script, value.get()),
    }
}

#[cycle(kept)]
fn split_in_chain(script: &[u8], rest: &[(Binary, Expr)]) -> Option<u32>
    requires small { length script.now ≤ MAX_SCRIPT }
    ensures { SplitsIn script.now (chained rest.now) result }
{
    for (_, operand) in rest {
        if let Some(at) = split_in_expr(script, operand) {
            return Some(at);
        }
    }
    None
}

/// Where single quotes in a body with joined lines hold a line continuation.
pub fn split_at(script: &[u8], joins: bool, parts: &[Part]) -> Option<u32>
    requires small { length script.now ≤ MAX_SCRIPT }
    ensures { Splits script.now joins parts.now result }
{
    if joins {
        split_in_parts(script, parts)
    } else {
        None
    }
}

/// Where the first line continuation is, or the first one before a tab, if it is asked for.
pub fn joined_if(asked: bool, text: &[u8], tabbed: bool) -> Option<u32>
    requires small { length text.now ≤ MAX_SCRIPT }
    ensures value { is_some result ≡ (asked && documents.has_joined (λ rest. not tabbed || is_first is_tab rest) text.now) }
    ensures within { IfSome result (λ at. at + 1 < length text.now) }
{
    if asked { joined_in(text, tabbed) } else { None }
}

/// Where the first line begins that begins with a tab, if it is asked for.
pub fn tabbed_if(asked: bool, text: &[u8]) -> Option<u32>
    requires small { length text.now ≤ MAX_SCRIPT }
    ensures value { is_some result ≡ (asked && documents.has_tabbed_line true text.now) }
    ensures within { IfSome result (λ at. at < length text.now) }
{
    if asked { tabbed_line(text) } else { None }
}
