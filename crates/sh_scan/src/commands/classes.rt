//! Classes of the tokens of commands (XCU 2.10).
ghost use Rattle.std.specs.Prelude.{◌≡◌};
ghost use Rattle.sh_tree.specs.standard.language.Commands as commands;

use super::operators::redirects;
use sh_tree::{ClauseEnd, Lead, Link, Operator, Reserved};

/// Whether a redirection begins with the token.
#[tactic(auto, unfolding(sh_tree::specs::standard::language::Commands::is_redirection))]
pub fn is_redirection(lead: Lead) -> bool
    ensures { result ≡ commands.is_redirection lead }
{
    match lead {
        Lead::Number => true,
        Lead::Operator(operator) => redirects(operator),
        _ => false,
    }
}

/// Whether a simple command begins with the token.
#[tactic(auto, unfolding(sh_tree::specs::standard::language::Commands::begins_simple))]
pub fn begins_simple(lead: Lead) -> bool
    ensures { result ≡ commands.begins_simple lead }
{
    match lead {
        Lead::Word | Lead::Assignment => true,
        _ => is_redirection(lead),
    }
}

#[tactic(auto, unfolding(sh_tree::specs::standard::language::Commands::begins_compound))]
fn opens_compound(reserved: Reserved) -> bool
    ensures { result ≡ commands.begins_compound (Lead.Reserved reserved) }
{
    matches!(
        reserved,
        Reserved::LeftBrace
            | Reserved::Case
            | Reserved::For
            | Reserved::If
            | Reserved::Until
            | Reserved::While
    )
}

/// Whether a compound command begins with the token.
#[tactic(auto, unfolding(sh_tree::specs::standard::language::Commands::begins_compound))]
pub fn begins_compound(lead: Lead) -> bool
    ensures { result ≡ commands.begins_compound lead }
{
    match lead {
        Lead::Operator(operator) => operator == Operator::LeftParenthesis,
        Lead::Reserved(reserved) => opens_compound(reserved),
        _ => false,
    }
}

/// Whether a command begins with the token.
#[tactic(auto, unfolding(sh_tree::specs::standard::language::Commands::begins_command))]
pub fn begins_command(lead: Lead) -> bool
    ensures { result ≡ commands.begins_command lead }
{
    if lead == Lead::Definition {
        return true;
    }
    let simple = begins_simple(lead);
    simple || begins_compound(lead)
}

/// Whether a pipeline begins with the token.
#[tactic(auto, unfolding(sh_tree::specs::standard::language::Commands::begins_pipeline))]
pub fn begins_pipeline(lead: Lead) -> bool
    ensures { result ≡ commands.begins_pipeline lead }
{
    match lead {
        Lead::Reserved(Reserved::Bang) => true,
        _ => begins_command(lead),
    }
}

/// Of a separator, whether what is before it is an asynchronous list (XCU 2.9.3).
#[tactic(auto, unfolding(sh_tree::specs::standard::language::Commands::separator))]
pub fn separator(lead: Lead) -> Option<bool>
    ensures { result ≡ commands.separator lead }
{
    match lead {
        Lead::Newline | Lead::Operator(Operator::Semicolon) => Some(false),
        Lead::Operator(Operator::And) => Some(true),
        _ => None,
    }
}

/// What joins two pipelines by the token.
#[tactic(auto, unfolding(sh_tree::specs::standard::language::Commands::link_of))]
pub fn link_of(lead: Lead) -> Option<Link>
    ensures { result ≡ commands.link_of lead }
{
    match lead {
        Lead::Operator(Operator::AndIf) => Some(Link::AndThen),
        Lead::Operator(Operator::OrIf) => Some(Link::OrElse),
        _ => None,
    }
}

/// How a clause of `case` ends by the token.
#[tactic(auto, unfolding(sh_tree::specs::standard::language::Commands::clause_end_of))]
pub fn clause_end_of(lead: Lead) -> Option<ClauseEnd>
    ensures { result ≡ commands.clause_end_of lead }
{
    match lead {
        Lead::Operator(Operator::DoubleSemicolon) => Some(ClauseEnd::Break),
        Lead::Operator(Operator::SemicolonAnd) => Some(ClauseEnd::FallThrough),
        _ => None,
    }
}
