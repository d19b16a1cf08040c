//! One word, from its begin to its end. Commands in it are not read: each substitution goes up to
//! its first `)` or backquote.
ghost use Rattle.std.specs.Prelude.{◌≡◌, ◌≤◌, true, length, IfOk};
ghost use Rattle.show_tree.specs.Words.{Continues};

use sh_show::push_word;
use sh_tree::{CommandStyle, Items, MAX_NESTING, MAX_SCRIPT, Script};
use sh_words::{Mode, Next, WordBuilder};
use std::alloc::{AllocError, Global};

/// What a word is.
#[derive(Clone, Copy)]
pub enum Form {
    Word,
    Unsplit,
    Value,
    Operand,
    Body { strip: bool, quoted: bool },
}

/// What a word is, how deep it is, and where it begins. If it is a body, it does not see so many
/// bytes of the text.
#[derive(Clone, Copy)]
pub struct Place {
    pub form: Form,
    pub depth: u32,
    pub at: u32,
    pub tail: u32,
}

/// The mode of a word at the place in a text of this length.
fn mode_of_word(place: Place, length: u32) -> Mode {
    match place.form {
        Form::Word => Mode::Word,
        Form::Unsplit => Mode::Unsplit,
        Form::Value => Mode::Value,
        Form::Operand => Mode::Operand,
        Form::Body { strip, quoted } => Mode::Body {
            end: length.saturating_sub(place.tail),
            strip,
            quoted,
        },
    }
}

/// Where the commands end that begin at `at`, and what closes them with them.
fn closed(text: &[u8], style: CommandStyle, at: u32) -> u32
    requires small { length text.now ≤ MAX_SCRIPT }
    requires inside { at ≤ length text.now }
    ensures { result ≤ length text.now }
{
    let close = match style {
        CommandStyle::Paren => b')',
        CommandStyle::Backquote => b'`',
    };
    let commands = text[at as usize..].iter();
    let length = commands.take_while(|byte| **byte != close).count();
    text.len().min(at as usize + length + 1) as u32
}

fn no_commands(alloc: Global) -> Script {
    Script {
        items: Items::new(alloc),
    }
}

/// Reads on, up to commands or to the end, and reports that. Returns whether there is more.
fn read_on(
    alloc: Global,
    builder: &mut WordBuilder,
    mode: Mode,
    text: &[u8],
    told: &mut String,
) -> Result<bool, AllocError>
    requires small { length text.now ≤ MAX_SCRIPT }
    requires continues { Continues text.now mode builder.old }
    ensures { IfOk result (λ more. more ≡ true → Continues text.now mode builder.new) }
{
    match builder.run(text) {
        Ok(Next::Done(word)) => {
            push_word(alloc, &word, told)?;
            Ok(false)
        }
        Ok(
            Next::Inner {
                at,
                depth,
                style,
                ..
            },
        ) => {
            told.push_str(&format!(in alloc; "{at}/{depth} ")?)?;
            let end = closed(mode.seen(text), style, at);
            match builder.resume(no_commands(alloc), end) {
                Ok(()) => Ok(true),
                Err(_) => Ok(false),
            }
        }
        Err(refusal) => {
            told.push_str(&format!(in alloc; "{refusal:?}")?)?;
            Ok(false)
        }
    }
}

/// Where commands begin in the word at the place and how deep, and at last the word or its refusal.
pub fn word_told(alloc: Global, place: Place, text: &[u8]) -> Result<String, AllocError> {
    let mut told = String::new(alloc);
    if text.len() > MAX_SCRIPT || place.depth > MAX_NESTING {
        return Ok(told);
    }
    let mode = mode_of_word(place, text.len() as u32);
    if place.at as usize > mode.seen(text).len() {
        return Ok(told);
    }
    let mut builder = WordBuilder::start(alloc, mode, place.depth as u8, place.at, None)?;
    for _ in 0..MAX_SCRIPT {
        if !read_on(alloc, &mut builder, mode, text, &mut told)? {
            break;
        }
    }
    Ok(told)
}
