use crate::spans::push_signed;
use crate::words::push_part;
use sh_tree::{Binary, Expr, Span, Unary};
use std::alloc::{AllocError, Global};

fn sign_of_unary(operator: Unary) -> &'static str {
    match operator {
        Unary::Plus => "+",
        Unary::Minus => "-",
        Unary::Complement => "~",
        Unary::Not => "!",
    }
}

fn sign_of_binary(operator: Binary) -> &'static str {
    match operator {
        Binary::Multiply => "*",
        Binary::Divide => "/",
        Binary::Remainder => "%",
        Binary::Add => "+",
        Binary::Subtract => "-",
        Binary::ShiftLeft => "<<",
        Binary::ShiftRight => ">>",
        Binary::Less => "<",
        Binary::LessEqual => "<=",
        Binary::Greater => ">",
        Binary::GreaterEqual => ">=",
        Binary::Equal => "==",
        Binary::Unequal => "!=",
        Binary::BitAnd => "&",
        Binary::BitXor => "^",
        Binary::BitOr => "|",
        Binary::And => "&&",
        Binary::Or => "||",
    }
}

/// An assignment up to its value.
fn push_assigned(
    alloc: Global,
    name: Span,
    operator: Option<Binary>,
    text: &mut String,
) -> Result<(), AllocError> {
    push_signed(alloc, "[", name, text)?;
    text.push_str(" ")?;
    if let Some(operator) = operator {
        text.push_str(sign_of_binary(operator))?;
    }
    text.push_str("= ")
}

/// An expression: `k` and a constant, `n` and a name, an expansion as the part that it is, or
/// parentheses. What an operator makes is in brackets. The name of an assignment is its span alone.
///
/// # Errors
///
/// `AllocError` if a growth was refused.
#[cycle(show)]
pub fn push_expr(alloc: Global, expr: &Expr, text: &mut String) -> Result<(), AllocError> {
    match expr {
        Expr::Constant(span) => push_signed(alloc, "k", *span, text),
        Expr::Variable(span) => push_signed(alloc, "n", *span, text),
        Expr::Expansion(part) => push_part(alloc, part, text),
        Expr::Parenthesis(inner) => {
            push_behind(alloc, "(", inner.get(), text)?;
            text.push_str(")")
        }
        Expr::Unary { operator, operand } => {
            text.push_str("[")?;
            push_behind(alloc, sign_of_unary(*operator), operand.get(), text)?;
            text.push_str("]")
        }
        Expr::Chain { first, rest } => {
            push_behind(alloc, "[", first.get(), text)?;
            push_operands(alloc, rest.as_slice(), text)?;
            text.push_str("]")
        }
        Expr::Choice { condition, yes, no } => {
            push_behind(alloc, "[", condition.get(), text)?;
            push_behind(alloc, " ? ", yes.get(), text)?;
            push_behind(alloc, " : ", no.get(), text)?;
            text.push_str("]")
        }
        Expr::Assign {
            name,
            operator,
            value,
        } => {
            push_assigned(alloc, *name, *operator, text)?;
            push_expr(alloc, value.get(), text)?;
            text.push_str("]")
        }
    }
}

/// An expression after a sign.
#[cycle(show)]
fn push_behind(
    alloc: Global,
    sign: &str,
    expr: &Expr,
    text: &mut String,
) -> Result<(), AllocError> {
    text.push_str(sign)?;
    push_expr(alloc, expr, text)
}

#[cycle(show)]
fn push_operands(
    alloc: Global,
    operands: &[(Binary, Expr)],
    text: &mut String,
) -> Result<(), AllocError> {
    for operand in operands {
        text.push_str(" ")?;
        text.push_str(sign_of_binary(operand.0))?;
        push_behind(alloc, " ", &operand.1, text)?;
    }
    Ok(())
}
