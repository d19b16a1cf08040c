use crate::trees::{holds, one, plain_item, plain_word, simple_item};
use sh_tree::{
    Command, CommandStyle, Element, HereDoc, Item, Part, Redirect, Script, Span, Target, Word,
    commands,
};
use std::alloc::{AllocError, Global};
use std::test::Fail;

/// The body `$(c)` of the here-document in `<<E; b`.
fn body(alloc: Global) -> Result<Word, AllocError> {
    let inner = plain_item(alloc, 3, Span { start: 9, end: 10 })?;
    let items = one(alloc, inner)?;
    let span = Span { start: 7, end: 11 };
    let substitution = Part::Command(CommandStyle::Paren, span, Script { items });
    let parts = one(alloc, substitution)?;
    let span = Span { start: 7, end: 12 };
    Ok(Word { span, parts })
}

fn document(alloc: Global) -> Result<HereDoc, AllocError> {
    let delimiter = plain_word(alloc, Span { start: 2, end: 3 })?;
    let body = body(alloc)?;
    Ok(HereDoc {
        strip: false,
        delimiter,
        body,
        end: Span { start: 12, end: 13 },
    })
}

/// The command `<<E`.
fn redirecting(alloc: Global) -> Result<Item, AllocError> {
    let target = Target::Here(document(alloc)?);
    let redirect = Redirect {
        at: 0,
        number: None,
        target,
    };
    simple_item(alloc, 1, 0, Element::Redirection(redirect))
}

/// `<<E; b`, and in the body of the here-document `$(c)`.
fn with_body(alloc: Global) -> Result<Script, AllocError> {
    let mut items = one(alloc, redirecting(alloc)?)?;
    items.push(plain_item(alloc, 2, Span { start: 5, end: 6 })?)?;
    Ok(Script { items })
}

/// Whether three commands are numbered in their order.
fn are_in_order(found: &[&Command]) -> bool {
    match found {
        [first, second, third] => first.number == 1 && second.number == 2 && third.number == 3,
        _ => false,
    }
}

#[test]
fn by_their_numbers(rt: HostRuntime) -> Result<(), Fail> {
    let script = with_body(rt.alloc())?;
    let found = commands(rt.alloc(), &script)?;
    holds(&rt, b"<<E; b", are_in_order(&found));
    Ok(())
}
