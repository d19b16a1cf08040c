//! Small trees, and what the checks share.
use sh_tree::{AndOr, Command, Element, Item, Items, Kind, Part, Pipe, Span, Word};
use std::alloc::{AllocError, Global};
use std::process::Abort;

/// Holds what is so of a text.
pub fn holds(rt: &impl Abort, text: &[u8], is_so: bool) {
    assert!(rt; is_so, "{text:?}");
}

pub fn one<T: Drop>(alloc: Global, item: T) -> Result<Items<T>, AllocError> {
    let mut items = Items::new(alloc);
    items.push(item)?;
    Ok(items)
}

/// A word without quotes and expansions.
pub fn plain_word(alloc: Global, span: Span) -> Result<Word, AllocError> {
    let parts = one(alloc, Part::Plain(span))?;
    Ok(Word { span, parts })
}

/// An item that is one command alone.
fn item_of(alloc: Global, command: Command) -> Result<Item, AllocError> {
    let parts = one(alloc, command)?;
    let first = Pipe {
        negated: false,
        parts,
    };
    let list = AndOr {
        first,
        rest: Items::new(alloc),
    };
    Ok(Item {
        list,
        background: false,
    })
}

/// An item that is a simple command of one element.
pub fn simple_item(
    alloc: Global,
    number: u32,
    at: u32,
    element: Element,
) -> Result<Item, AllocError> {
    let elements = one(alloc, element)?;
    let command = Command {
        number,
        at,
        kind: Kind::Simple(elements),
        redirects: Items::new(alloc),
    };
    item_of(alloc, command)
}

/// An item that is one plain word.
pub fn plain_item(alloc: Global, number: u32, span: Span) -> Result<Item, AllocError> {
    let word = plain_word(alloc, span)?;
    simple_item(alloc, number, span.start, Element::Word(word))
}
