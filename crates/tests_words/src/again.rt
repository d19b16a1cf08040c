//! What a builder answers out of turn.
ghost use Rattle.std.specs.Prelude.{◌≡◌, ◌≤◌, Some, length, IfSome};
ghost use Rattle.sh_tree.specs.declared.refusal.Refusal as refusal;
ghost use Rattle.sh_words.specs.Builders.{Goes, IsInside, IsSoundIn, refused};

use sh_tree::{CommandStyle, Fault, Form, Items, MAX_SCRIPT, Refusal, Script};
use sh_words::{Mode, Next, WordBuilder};
use std::alloc::{AllocError, Global};
use std::process::Abort;
use std::test::Fail;

fn no_commands(alloc: Global) -> Script {
    Script {
        items: Items::new(alloc),
    }
}

/// The refusal of the word, if it is refused.
fn refusal_of(builder: &mut WordBuilder, text: &[u8]) -> Option<Refusal>
    requires small { length text.now ≤ MAX_SCRIPT }
    requires inside { Goes builder.old → IsInside text.now builder.old }
    requires sound { Goes builder.old → IsSoundIn text.now builder.old }
    ensures fails { IfSome result (λ e. refused builder.new ≡ Some e) }
    ensures again { (e : refusal.Refusal) → refused builder.old ≡ Some e → refused builder.new ≡ Some e }
{
    builder.run(text).err()
}

/// What a builder answers that refused the text: the refusal, and what is refused of whatever
/// follows.
fn refused_again(
    alloc: Global,
    text: &[u8],
) -> Result<Option<(Refusal, [Option<Refusal>; 3])>, AllocError> {
    if text.len() > MAX_SCRIPT {
        return Ok(None);
    }
    let mut builder = WordBuilder::start(alloc, Mode::Word, 0, 0, None)?;
    match refusal_of(&mut builder, text) {
        Some(first) => {
            let second = refusal_of(&mut builder, b"a\"");
            let third = refusal_of(&mut builder, b"a");
            let fed = builder.resume(no_commands(alloc), 1).err();
            Ok(Some((first, [second, third, fed])))
        }
        None => Ok(None),
    }
}

fn check_again(
    rt: &impl Abort,
    alloc: Global,
    rows: &[(&'static str, Refusal)],
) -> Result<(), Fail> {
    for (text, want) in rows {
        let told = refused_again(alloc, text.as_bytes())?;
        assert_eq!(rt; told, Some((*want, [Some(*want); 3])), "{text:?}");
    }
    Ok(())
}

const REFUSALS: &[(&str, Refusal)] = &[
    ("a\"b", Refusal::Syntax(Fault::OpenDouble, 1)),
    ("$((08))", Refusal::Syntax(Fault::BadArith, 4)),
    ("${x/y}", Refusal::LeftOut(Form::Braced, 0)),
    ("\"${x-`", Refusal::LeftOut(Form::Backquoted, 5)),
];

#[test]
fn the_same_refusal_again(rt: HostRuntime) -> Result<(), Fail> {
    check_again(&rt, rt.alloc(), REFUSALS)
}

#[test]
fn commands_that_never_came(rt: HostRuntime) -> Result<(), Fail> {
    let mut builder = WordBuilder::start(rt.alloc(), Mode::Word, 0, 0, None)?;
    let text = b"a$(b)";
    let Ok(
        Next::Inner {
            at: 3,
            depth: 1,
            style: CommandStyle::Paren,
            quoted: false,
        },
    ) = builder.run(text)
    else {
        panic!(rt; "no commands");
    };
    let told = refusal_of(&mut builder, text);
    assert_eq!(rt; told, Some(Refusal::Syntax(Fault::OpenSubstitution, 1)));
    Ok(())
}
