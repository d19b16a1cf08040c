//! Reads texts line by line, with `\n`, `\t`, `\\` and `\xNN` for bytes. Prints a line for each:
//! the tree of the script that it is, or its refusal. With words `MODE DEPTH AT TAIL` each text has
//! a word at the offset instead. The body of a here-document then ends so many bytes before the
//! text's end.
#![tactic(auto)]

mod text;
mod word;

use sh_grammar::parse;
use sh_show::push_script;
use std::alloc::{AllocError, Global};
use std::rt::Env;
use std::{env, io};
use text::unescaped;
use word::{Form, Place, word_told};

fn form_of(name: &str) -> Option<Form> {
    let body = |strip, quoted| Some(Form::Body { strip, quoted });
    match name {
        "word" => Some(Form::Word),
        "unsplit" => Some(Form::Unsplit),
        "value" => Some(Form::Value),
        "operand" => Some(Form::Operand),
        "body" => body(false, false),
        "stripped-body" => body(true, false),
        "quoted-body" => body(false, true),
        "stripped-quoted-body" => body(true, true),
        _ => None,
    }
}

/// The number at a place among the words, or 0.
fn number(words: &[String], at: usize) -> u32 {
    match words.get(at) {
        Some(word) => word.as_str().parse::<u32>().unwrap_or(0),
        None => 0,
    }
}

/// The place of a word that the command line names.
fn place_of(words: &[String]) -> Option<Place> {
    let form = form_of(words.get(1)?.as_str())?;
    Some(Place {
        form,
        depth: number(words, 2),
        at: number(words, 3),
        tail: number(words, 4),
    })
}

/// The tree of a script, or its refusal.
fn script_told(alloc: Global, text: &[u8]) -> Result<String, AllocError> {
    match parse(alloc, text) {
        Ok(tree) => {
            let mut told = String::new(alloc);
            push_script(alloc, &tree, &mut told)?;
            Ok(told)
        }
        Err(refusal) => format!(in alloc; "{refusal:?}"),
    }
}

fn told(alloc: Global, place: Option<Place>, text: &[u8]) -> Result<String, AllocError> {
    match place {
        Some(place) => word_told(alloc, place, text),
        None => script_told(alloc, text),
    }
}

fn words_of(rt: &(impl Env + AllocGlobal)) -> io::Result<Vec<String>> {
    env::args(rt)?.collect(rt.alloc()).map_err(io::Error::from)
}

fn main(rt: HostRuntime) -> io::Result<()> {
    let words = words_of(&rt)?;
    let place = place_of(words.as_slice());
    for line in rt.lines(rt.alloc()) {
        let text = unescaped(rt.alloc(), line?.as_str())?;
        let answer = told(rt.alloc(), place, &text)?;
        println!(rt; "{answer}")?;
    }
    Ok(())
}
