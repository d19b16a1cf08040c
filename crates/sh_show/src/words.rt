use crate::arithmetic::push_expr;
use crate::commands::push_script;
use crate::spans::{push_signed, push_span};
use sh_tree::{
    Action, CommandStyle, Param, ParameterOperator, Part, Removal, SingleStyle, Special, Subject,
    Word,
};
use std::alloc::{AllocError, Global};

/// The special parameter's byte. `0` has a dollar sign before it, since positional parameters are
/// numbers.
fn sign_of_special(special: Special) -> &'static str {
    match special {
        Special::At => "@",
        Special::Asterisk => "*",
        Special::NumberSign => "#",
        Special::QuestionMark => "?",
        Special::Hyphen => "-",
        Special::Dollar => "$",
        Special::Exclamation => "!",
        Special::Zero => "$0",
    }
}

/// A parameter: a name by its span, others by their number or sign and a colon before it.
fn push_subject(alloc: Global, subject: Subject, text: &mut String) -> Result<(), AllocError> {
    match subject {
        Subject::Name(span) => push_span(alloc, span, text),
        Subject::Positional(number, span) => {
            let shown = format!(in alloc; "{number}")?;
            text.push_str(&shown)?;
            push_signed(alloc, ":", span, text)
        }
        Subject::Special(special, span) => {
            text.push_str(sign_of_special(special))?;
            push_signed(alloc, ":", span, text)
        }
    }
}

fn sign_of_action(action: Action) -> &'static str {
    match action {
        Action::Default => "-",
        Action::Assign => "=",
        Action::Fault => "?",
        Action::Alternative => "+",
    }
}

fn sign_of_removal(removal: Removal) -> &'static str {
    match removal {
        Removal::ShortSuffix => "%",
        Removal::LongSuffix => "%%",
        Removal::ShortPrefix => "#",
        Removal::LongPrefix => "##",
    }
}

/// The letter of an expansion: `v` a value, `l` a length, `u` the use of a word, `r` a removal.
fn letter_of(operator: &ParameterOperator) -> &'static str {
    match operator {
        ParameterOperator::Value => "v",
        ParameterOperator::Length => "l",
        ParameterOperator::Use { .. } => "u",
        ParameterOperator::Remove { .. } => "r",
    }
}

/// An expansion: its letter and span, the parameter, and the operator in brackets with the word
/// after it.
#[cycle(show)]
fn push_param(alloc: Global, param: &Param, text: &mut String) -> Result<(), AllocError> {
    push_signed(alloc, letter_of(&param.operator), param.span, text)?;
    text.push_str("/")?;
    push_subject(alloc, param.subject, text)?;
    match &param.operator {
        ParameterOperator::Value | ParameterOperator::Length => Ok(()),
        ParameterOperator::Use {
            action,
            colon,
            word,
        } => {
            text.push_str(if *colon { "[:" } else { "[" })?;
            push_operand(alloc, sign_of_action(*action), word, text)
        }
        ParameterOperator::Remove { removal, pattern } => {
            text.push_str("[")?;
            push_operand(alloc, sign_of_removal(*removal), pattern, text)
        }
    }
}

/// The word after an operator.
#[cycle(show)]
fn push_operand(
    alloc: Global,
    sign: &str,
    word: &Word,
    text: &mut String,
) -> Result<(), AllocError> {
    text.push_str(sign)?;
    text.push_str("]")?;
    push_word(alloc, word, text)
}

fn letter_of_single(style: SingleStyle) -> &'static str {
    match style {
        SingleStyle::Plain => "s",
        SingleStyle::Dollar => "$s",
    }
}

fn letter_of_command(style: CommandStyle) -> &'static str {
    match style {
        CommandStyle::Paren => "c",
        CommandStyle::Backquote => "b",
    }
}

/// A part: a letter, then its span, and what is in it. The letter is `p` for plain bytes, `e` an
/// escape, `s` single quotes, `$s` those after a dollar sign, or `d` double quotes. It is `a` for
/// arithmetic, `c` commands, `b` commands in backquotes, `t` a tilde-prefix, or `j` a line
/// continuation. Or it is the letter of an expansion: `v` its value, `l` its length, `u` a word in
/// its place, `r` a removal.
///
/// # Errors
///
/// `AllocError` if a growth was refused.
#[cycle(show)]
pub fn push_part(alloc: Global, part: &Part, text: &mut String) -> Result<(), AllocError> {
    match part {
        Part::Plain(span) => push_signed(alloc, "p", *span, text),
        Part::Escaped(span) => push_signed(alloc, "e", *span, text),
        Part::Single(style, span) => push_signed(alloc, letter_of_single(*style), *span, text),
        Part::Double(span, parts) => {
            push_signed(alloc, "d", *span, text)?;
            push_parts(alloc, parts.as_slice(), text)
        }
        Part::Param(param) => push_param(alloc, param, text),
        Part::Arith(span, expr) => {
            push_signed(alloc, "a", *span, text)?;
            text.push_str("(")?;
            push_expr(alloc, expr.get(), text)?;
            text.push_str(")")
        }
        Part::Command(style, span, script) => {
            push_signed(alloc, letter_of_command(*style), *span, text)?;
            text.push_str("{")?;
            push_script(alloc, script, text)?;
            text.push_str("}")
        }
        Part::Tilde(span) => push_signed(alloc, "t", *span, text),
        Part::Joined(span) => push_signed(alloc, "j", *span, text),
    }
}

/// Parts in parentheses, with blanks between them.
///
/// # Errors
///
/// `AllocError` if a growth was refused.
#[cycle(show)]
pub fn push_parts(alloc: Global, parts: &[Part], text: &mut String) -> Result<(), AllocError> {
    text.push_str("(")?;
    let mut is_first = true;
    for part in parts {
        if !is_first {
            text.push_str(" ")?;
        }
        is_first = false;
        push_part(alloc, part, text)?;
    }
    text.push_str(")")
}

/// A word: its span, and its parts.
///
/// # Errors
///
/// `AllocError` if a growth was refused.
#[cycle(show)]
pub fn push_word(alloc: Global, word: &Word, text: &mut String) -> Result<(), AllocError> {
    push_span(alloc, word.span, text)?;
    push_parts(alloc, word.parts.as_slice(), text)
}
