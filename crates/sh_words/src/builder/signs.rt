//! What the signs of a word make.
ghost use Rattle.std.specs.Prelude.{◌≡◌, ◌≤◌, ◌<◌, length};
ghost use Rattle.sh_tree.specs.standard.language.Reading as reading;
ghost use Rattle.sh_words.specs.States as states;
ghost use Rattle.sh_words.specs.Signs as signs;

use crate::frames::Opening;
use sh_scan::{in_arithmetic, in_double, in_removal, in_use};
use sh_tree::{Context, Items, Param, ParameterOperator, Part, Sign, Span, Subject, Word};

fn expansion(span: Span, subject: Subject, operator: ParameterOperator) -> Part
    ensures { result ≡ Part.Param (record { span = span; subject = subject; operator = operator }) }
{
    Part::Param(Param {
        span,
        subject,
        operator,
    })
}

/// The part that a sign is, if it is a whole one.
#[tactic(auto, unfolding(crate::specs::States::whole_part))]
pub fn whole_part(sign: Sign, span: Span) -> Option<Part>
    ensures { result ≡ states.whole_part sign span.start span.end }
{
    match sign {
        Sign::Plain => Some(Part::Plain(span)),
        Sign::Escaped => Some(Part::Escaped(span)),
        Sign::Joined => Some(Part::Joined(span)),
        Sign::Single(style) => Some(Part::Single(style, span)),
        Sign::Tilde => Some(Part::Tilde(span)),
        Sign::Value(subject) => Some(expansion(span, subject, ParameterOperator::Value)),
        Sign::Length(subject) => Some(expansion(span, subject, ParameterOperator::Length)),
        _ => None,
    }
}

/// What a sign that ends at `end` opens, and the context in it.
#[tactic(auto, unfolding(crate::specs::States::opening_of))]
pub fn opening_of(context: Context, sign: Sign, end: u32) -> Option<(Opening, Context)>
    ensures { result ≡ states.opening_of context sign end }
{
    match sign {
        Sign::Double => Some((Opening::Double, in_double(context))),
        Sign::Use(subject, action, colon) => Some((
            Opening::Use(subject, action, colon),
            in_use(context, action, end),
        )),
        Sign::Remove(subject, removal) => {
            Some((Opening::Remove(subject, removal), in_removal(context, end)))
        }
        Sign::Arith => Some((Opening::Arith, in_arithmetic(context))),
        _ => None,
    }
}

/// The part that an opening at `start` makes of the parts in it, which begin at `inside`. It ends
/// at `end`.
#[tactic(auto, unfolding(crate::specs::States::made))]
pub fn made(opening: Opening, start: u32, inside: u32, parts: Items<Part>, end: u32) -> Option<Part>
    ensures { result ≡ states.made opening start inside parts end }
{
    let span = Span { start, end };
    let pattern = Span {
        start: inside,
        end: end.saturating_sub(1),
    };
    match opening {
        Opening::Double => Some(Part::Double(span, parts)),
        Opening::Use(subject, action, colon) => {
            let word = Word {
                span: pattern,
                parts,
            };
            let operator = ParameterOperator::Use {
                action,
                colon,
                word,
            };
            Some(expansion(span, subject, operator))
        }
        Opening::Remove(subject, removal) => {
            let pattern = Word {
                span: pattern,
                parts,
            };
            let operator = ParameterOperator::Remove { removal, pattern };
            Some(expansion(span, subject, operator))
        }
        Opening::Arith => None,
    }
}

/// The last byte of what the sign is, if that is plain, else 0.
pub fn prior_after(script: &[u8], sign: Sign, end: u32) -> u8
    requires some { sign ≡ Sign.Plain → 0 < end }
    requires inside { end ≤ length script.now }
    ensures { result ≡ reading.prior_of script.now sign end }
{
    match sign {
        Sign::Plain => script[end as usize - 1],
        _ => 0,
    }
}

/// Whether a part may begin with the sign.
pub fn is_part(sign: Sign) -> bool
    ensures { result ≡ signs.is_part sign }
{
    !matches!(sign, Sign::Stop | Sign::Tabs)
}

/// Whether the sign begins an expansion.
pub fn is_expansion(sign: Sign) -> bool
    ensures { result ≡ reading.is_expansion sign }
{
    matches!(
        sign,
        Sign::Value(_)
            | Sign::Length(_)
            | Sign::Use(..)
            | Sign::Remove(..)
            | Sign::Substitution(_)
            | Sign::Arith
    )
}
