//! Words of bytes that mean nothing more than themselves, and the names that are looked for among
//! them (XCU 2.4).
ghost use Rattle.std.specs.Prelude.{◌≡◌, ◌≤◌, ◌+◌, length};
ghost use Rattle.sh_tree.specs.standard.language.Bytes as bytes;
ghost use Rattle.sh_tree.specs.standard.language.Commands as commands;

use crate::class::{Class, classify};
use crate::front::ends_joined;
use sh_tree::{Form, MAX_SCRIPT, Reserved, is_name};

#[tactic(auto, unfolding(crate::specs::Classes::class_of))]
fn is_bare(byte: u8) -> bool
    ensures { result ≡ commands.is_bare byte }
{
    matches!(classify(byte), Class::Letter | Class::Digit | Class::Other)
}

fn bare_length(rest: &[u8]) -> usize
    ensures value { result ≡ bytes.run commands.is_bare rest.now }
    ensures within { result ≤ length rest.now }
{
    rest.iter().take_while(|byte| is_bare(**byte)).count()
}

/// The token at `at`, if none of its bytes means more than itself, or no bytes.
#[tactic(auto, unfolding(sh_tree::specs::standard::language::Commands::bare_word))]
pub fn bare_word(script: &[u8], at: u32) -> &[u8]
    requires small { length script.now ≤ MAX_SCRIPT }
    requires inside { at ≤ length script.now }
    ensures value { result.now ≡ commands.bare_word script.now at }
    ensures within { at + length result.now ≤ length script.now }
{
    let rest = &script[at as usize..];
    let length = bare_length(rest);
    if ends_joined(&rest[length..]) {
        &rest[..length]
    } else {
        &[]
    }
}

#[tactic(auto, unfolding(sh_tree::specs::standard::language::Commands::entry_of))]
pub fn reserved_word(word: &[u8]) -> Option<Reserved>
    ensures { result ≡ commands.entry_of commands.reserved_words word.now }
{
    match word {
        b"!" => Some(Reserved::Bang),
        b"{" => Some(Reserved::LeftBrace),
        b"}" => Some(Reserved::RightBrace),
        b"case" => Some(Reserved::Case),
        b"do" => Some(Reserved::Do),
        b"done" => Some(Reserved::Done),
        b"elif" => Some(Reserved::Elif),
        b"else" => Some(Reserved::Else),
        b"esac" => Some(Reserved::Esac),
        b"fi" => Some(Reserved::Fi),
        b"for" => Some(Reserved::For),
        b"if" => Some(Reserved::If),
        b"in" => Some(Reserved::In),
        b"then" => Some(Reserved::Then),
        b"until" => Some(Reserved::Until),
        b"while" => Some(Reserved::While),
        _ => None,
    }
}

/// The form of other shells that the word begins in the place of a command name.
#[tactic(auto, unfolding(sh_tree::specs::standard::language::Commands::entry_of))]
pub fn left_out_name(word: &[u8]) -> Option<Form>
    ensures { result ≡ commands.entry_of commands.left_out_names word.now }
{
    match word {
        b"[[" => Some(Form::LeftBrackets),
        b"]]" => Some(Form::RightBrackets),
        b"function" => Some(Form::Function),
        b"select" => Some(Form::Select),
        b"time" => Some(Form::Time),
        b"namespace" => Some(Form::Namespace),
        _ => None,
    }
}

/// Whether the command name at `at` is `export` or `readonly`, unquoted (XCU 2.9.1.1).
#[tactic(auto, unfolding(sh_tree::specs::standard::language::Commands::declares))]
pub fn declares_at(script: &[u8], at: u32) -> bool
    requires small { length script.now ≤ MAX_SCRIPT }
    requires inside { at ≤ length script.now }
    ensures { result ≡ commands.declares script.now at }
{
    matches!(bare_word(script, at), b"export" | b"readonly")
}

/// Whether the word at `at` is a name, unquoted (XCU 2.10.2, rule 5).
#[tactic(auto, unfolding(sh_tree::specs::standard::language::Commands::is_bare_name))]
pub fn is_bare_name_at(script: &[u8], at: u32) -> bool
    requires small { length script.now ≤ MAX_SCRIPT }
    requires inside { at ≤ length script.now }
    ensures { result ≡ commands.is_bare_name script.now at }
{
    is_name(bare_word(script, at))
}
